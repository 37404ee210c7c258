// The token at a place. See specs/TokenAt.antt.
ghost use Rattle.std.specs.Prelude.{◌≡◌, ◌<◌, length, get_or};
ghost use Rattle.read_xml_tokens.specs.TokenAt.{Reads, token_in};

use crate::tag::{fault_at, tag_at};
use crate::{TokenAt, TokenKind};
use octets::unit::{END, LESS};
use octets::wide;
use xml::char_at;

// The character at `at`, which is no `<`.
fn char_token_at(s: &[u8], at: usize, b: usize) -> TokenAt
    requires { (at < length s.now) × ((b ≡ get_or s.now at 0) × (b < 256)) × (b ≡ 60 → ⊥) }
    ensures { Reads token_in s.now at at result }
{
    let c = char_at(s, at);
    let u = c.u;
    if u == END {
        return fault_at(s, at);
    }
    if u < END {
        return TokenAt {
            kind: TokenKind::Char,
            name: at,
            name_end: at,
            unit: u,
            next: c.next,
        };
    }
    TokenAt {
        kind: TokenKind::Reference,
        name: at,
        name_end: at,
        unit: u - 257,
        next: c.next,
    }
}

// The token at a place in the content, or behind the root.
pub fn token_at(s: &[u8], at: usize) -> TokenAt
    ensures { Reads token_in s.now at at result }
{
    if at < s.len() {
        let b = wide(s[at]);
        if b == LESS {
            return tag_at(s, at);
        }
        return char_token_at(s, at, b);
    }
    fault_at(s, at)
}
