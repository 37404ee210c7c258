// Two names compared, in any case. See crate distinct, specs/Order.antt.
ghost use Rattle.std.specs.Prelude.{◌≡◌};
ghost use Rattle.distinct.specs.Order.{order};
ghost use Rattle.read_text_parameters.specs.Naming.{name_unit, name_at};

use octets::unit::END;
use octets::{is_name_char, upper_unit};
use source::{Encoding, unit};

// A character of a name, as a capital; END where there is another.
fn name_unit(u: usize) -> usize
    ensures { result ≡ name_unit u }
{
    let part = is_name_char(u);
    if part {
        return upper_unit(u);
    }
    END
}

// The names from two cursors on: 0 where they are the same, 1 where the first goes before the second, 2 where it goes behind.
pub fn compare_names<E: Encoding>(s: &[u8], a: usize, b: usize) -> usize
    ensures { result ≡ order (name_at E.encoding s.now a) (name_at E.encoding s.now b) }
{
    let mut c = a;
    let mut d = b;
    loop {
        let x = unit::<E>(s, c);
        let y = unit::<E>(s, d);
        let xu = name_unit(x.u);
        let yu = name_unit(y.u);
        if xu < yu {
            return 1;
        }
        if yu < xu {
            return 2;
        }
        if xu == END {
            return 0;
        }
        c = x.next;
        d = y.next;
    }
}
