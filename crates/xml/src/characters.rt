// The character at a place: XML 1.0, sections 2.4, 2.11, 4.1. See specs/CharAt.antt.
ghost use Rattle.std.specs.Prelude.{◌+◌, ◌≤◌, ◌<◌, length, drop};
ghost use Rattle.xml.specs.Token.{literal_byte};
ghost use Rattle.xml.specs.CharAt.{char_in, Character};

use crate::CharRead;
use crate::references::reference_at;
use crate::starting::starts_at;
use octets::unit::{AMPERSAND, CR, END, LESS, LF, RIGHT_BRACKET};
use octets::wide;

// A literal byte, whose next place is `at`.
fn literal_at(s: &[u8], at: usize, u: usize) -> CharRead
    requires { (at ≤ length s.now) × (u < 256) }
    ensures { Character (literal_byte u (drop at s.now)) s.now at result }
{
    if u == CR {
        if starts_at(s, at, b"\n") {
            return CharRead {
                u: LF,
                next: at + 1,
            };
        }
        return CharRead { u: LF, next: at };
    }
    if u == RIGHT_BRACKET {
        if starts_at(s, at, b"]>") {
            return CharRead { u: END, next: at };
        }
        return CharRead {
            u: RIGHT_BRACKET,
            next: at,
        };
    }
    CharRead { u, next: at }
}

// The character at the place `p`, if it is a literal byte or a reference.
pub fn char_at(s: &[u8], p: usize) -> CharRead
    ensures { Character (char_in (drop p s.now)) s.now (p + 1) result }
{
    if p < s.len() {
        let u = wide(s[p]);
        if u == LESS {
            return CharRead { u: END, next: p };
        }
        if u == AMPERSAND {
            return reference_at(s, p + 1);
        }
        return literal_at(s, p + 1, u);
    }
    CharRead { u: END, next: p }
}
