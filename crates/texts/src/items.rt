// The items of a list of TEXT, and the parts of a REQUEST-STATUS, found at a cursor. See specs/Items.antt.
#![tactic(auto, unfolding(octets::specs::Computing::octets_compute))]

ghost use Rattle.std.specs.Prelude.{◌≡◌};
ghost use Rattle.texts.specs.Items.{is_between, ItemEnds};

use crate::text::{is_break, is_opening};
use octets::unit::END;
use source::{Encoding, unit};

// A bare separator.
fn is_between(after: bool, sep: usize, u: usize) -> bool
    ensures { result ≡ is_between after sep u }
{
    !after && u == sep && is_break(u)
}

// The cursor of the first bare separator from the cursor `at` on, or of the end.
pub fn item_end<E: Encoding>(sep: usize, s: &[u8], at: usize) -> usize
    ensures { ItemEnds sep E.encoding s.now at result }
{
    let mut after = false;
    let mut c = at;
    loop {
        let t = unit::<E>(s, c);
        if t.u == END || is_between(after, sep, t.u) {
            return c;
        }
        after = is_opening(after, t.u);
        c = t.next;
    }
}
