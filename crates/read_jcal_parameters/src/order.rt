// Two strings compared. See crate distinct, specs/Order.antt.
ghost use Rattle.std.specs.Prelude.{◌≡◌, ◌-◌, ◌^◌, ◌<◌};
ghost use Rattle.source.specs.Source.{rest, Reads};
ghost use Rattle.distinct.specs.Order.{order};
ghost use Rattle.read_json.specs.TreeAt.{string_at};

use json_text::char_at;
use octets::unit::END;
use source::{Unit, quoted_unit};

// The unit at a cursor, first where a character stands as it is, as in most names: names are compared thousands of times.
fn name_unit(s: &[u8], at: usize) -> Unit
    ensures { Reads 3 s.now at result }
{
    let p = at / 2;
    if at % 2 == 0 {
        let c = char_at(s, p);
        if c.u < END {
            return Unit {
                u: c.u,
                next: 2 * c.next,
            };
        }
    }
    quoted_unit(s, at)
}

// The characters from two cursors on: 0 where they are the same, 1 where the first go before the second, 2 where they go behind.
pub fn compare(s: &[u8], a: usize, b: usize) -> usize
    ensures { result ≡ order (rest 3 s.now a) (rest 3 s.now b) }
{
    let mut c = a;
    let mut d = b;
    loop {
        let x = name_unit(s, c);
        let y = name_unit(s, d);
        if x.u < y.u {
            return 1;
        }
        if y.u < x.u {
            return 2;
        }
        if x.u == END {
            return 0;
        }
        c = x.next;
        d = y.next;
    }
}

// The same of the strings at two places.
pub fn compare_places(s: &[u8], p: usize, q: usize) -> usize
    requires { (p < 2 ^ 63 - 1) × (q < 2 ^ 63 - 1) }
    ensures { result ≡ order (string_at s.now p) (string_at s.now q) }
{
    let a = 2 * (p + 1);
    let b = 2 * (q + 1);
    compare(s, a, b)
}
