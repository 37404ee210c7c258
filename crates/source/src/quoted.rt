// The characters of a JSON string, byte by byte. See specs/Quoted.antt, Stepping.antt.
ghost use Rattle.source.specs.Source.{Reads};

use crate::points::{mark_before, unit_at, unit_within};
use crate::{Cut, Encoding, Step, Unit};
use json_text::char_at;
use octets::unit::BACKSLASH;

// The byte at a cursor over the characters of a JSON string, as a unit.
pub fn quoted_unit(s: &[u8], at: usize) -> Unit
    ensures { Reads 3 s.now at result }
{
    let q = at / 2;
    if at % 2 == 0 {
        let c = char_at(s, q);
        return unit_at(s, q, c.u, c.next, at);
    }
    let p = mark_before(BACKSLASH, s, q);
    let c = char_at(s, p);
    unit_within(s, p, c.u, c.next, q, at)
}

// The characters of a JSON string, up to its end.
pub struct JsonCharacters;

impl Encoding for JsonCharacters {
    ghost encoding = { 3 };

    #[inline(always)]
    fn step(s: &[u8], at: usize) -> Option<Step> {
        quoted_unit(s, at).step()
    }

    fn settled(_s: &[u8], at: usize) -> usize {
        at
    }

    fn cut() -> Option<Cut> {
        None
    }
}
