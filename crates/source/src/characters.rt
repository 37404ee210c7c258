// The characters of an XML element, byte by byte. See specs/Characters.antt, Stepping.antt.
ghost use Rattle.source.specs.Source.{Reads};

use crate::points::{mark_before, unit_at, unit_within};
use crate::{Cut, Encoding, Step, Unit};
use octets::unit::AMPERSAND;
use xml::char_at;

// The byte at a cursor over the characters of an XML element, as a unit.
pub fn xml_unit(s: &[u8], at: usize) -> Unit
    ensures { Reads 1 s.now at result }
{
    let q = at / 2;
    if at % 2 == 0 {
        let c = char_at(s, q);
        return unit_at(s, q, c.u, c.next, at);
    }
    let p = mark_before(AMPERSAND, s, q);
    let c = char_at(s, p);
    unit_within(s, p, c.u, c.next, q, at)
}

// The characters of an XML element, up to a tag.
pub struct XmlCharacters;

impl Encoding for XmlCharacters {
    ghost encoding = { 1 };

    #[inline(always)]
    fn step(s: &[u8], at: usize) -> Option<Step> {
        xml_unit(s, at).step()
    }

    fn settled(_s: &[u8], at: usize) -> usize {
        at
    }

    fn cut() -> Option<Cut> {
        None
    }
}
