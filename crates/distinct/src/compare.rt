// Two words compared, in any case. See specs/Order.antt.
ghost use Rattle.std.specs.Prelude.{◌≡◌};
ghost use Rattle.octets.specs.Class.{upper};
ghost use Rattle.source.specs.Source.{rest};
ghost use Rattle.distinct.specs.Listed.{word_at};
ghost use Rattle.distinct.specs.Order.{order};

use crate::numbers::number_at;
use octets::unit::END;
use octets::{smaller, upper_unit};
use source::{Encoding, unit};

// The words from two cursors on: 0 where they are the same, 1 where the first goes before the second, 2 where it goes behind.
pub fn compare_from<E: Encoding>(s: &[u8], a: usize, t: &[u8], b: usize) -> usize
    ensures { result ≡ order (upper (rest E.encoding s.now a)) (upper (rest E.encoding t.now b)) }
{
    let mut c = a;
    let mut d = b;
    loop {
        let x = unit::<E>(s, c);
        let y = unit::<E>(t, d);
        let xu = upper_unit(x.u);
        let yu = upper_unit(y.u);
        if xu < yu {
            return 1;
        }
        if yu < xu {
            return 2;
        }
        if x.u == END {
            return 0;
        }
        c = x.next;
        d = y.next;
    }
}

// The same of the words of the numbers `i` and `j`.
pub fn compare<E: Encoding>(s: &[u8], from: &[u16], to: &[u16], i: usize, j: usize) -> usize
    ensures { result
        ≡ order (word_at E.encoding s.now from.now to.now i)
        (word_at E.encoding s.now from.now to.now j) }
{
    let a = number_at(from, i);
    let b = number_at(from, j);
    let e = number_at(to, i);
    let f = number_at(to, j);
    let x = smaller(e, s.len());
    let y = smaller(f, s.len());
    compare_from::<E>(&s[..x], a, &s[..y], b)
}
