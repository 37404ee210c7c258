// The five entities of XML 1.0, section 4.6. See specs/Token.antt.
ghost use Rattle.std.specs.Prelude.{◌≤◌, length, drop};
ghost use Rattle.xml.specs.Token.{entity_ref};
ghost use Rattle.xml.specs.CharAt.{Character};

use crate::CharRead;
use crate::starting::starts_at;
use octets::unit::{AMPERSAND, APOSTROPHE, END, GREATER, LESS, QUOTE};

// The character that an entity names, after its `&`.
pub fn entity_at(s: &[u8], at: usize) -> CharRead
    requires { at ≤ length s.now }
    ensures { Character (entity_ref (drop at s.now)) s.now at result }
{
    if starts_at(s, at, b"amp;") {
        return CharRead {
            u: 257 + AMPERSAND,
            next: at + 4,
        };
    }
    if starts_at(s, at, b"lt;") {
        return CharRead {
            u: 257 + LESS,
            next: at + 3,
        };
    }
    if starts_at(s, at, b"gt;") {
        return CharRead {
            u: 257 + GREATER,
            next: at + 3,
        };
    }
    if starts_at(s, at, b"apos;") {
        return CharRead {
            u: 257 + APOSTROPHE,
            next: at + 5,
        };
    }
    if starts_at(s, at, b"quot;") {
        return CharRead {
            u: 257 + QUOTE,
            next: at + 5,
        };
    }
    CharRead { u: END, next: at }
}
