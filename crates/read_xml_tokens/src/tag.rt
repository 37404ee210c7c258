// Tags at a place. See specs/Tags.antt.
ghost use Rattle.std.specs.Prelude.{◌≡◌, ◌+◌, ◌≤◌, ◌<◌, length};
ghost use Rattle.xml.specs.Token.{tag};
ghost use Rattle.read_xml_tokens.specs.MarksAt.{RootAt};
ghost use Rattle.read_xml_tokens.specs.TokenAt.{Reads, Faulty};
ghost use Rattle.read_xml_tokens.specs.Tags.{end_of, Opened};

use crate::pieces::{attribute_at, blank_at, exactly_at, name_at};
use crate::prolog::prolog_end;
use crate::{TokenAt, TokenKind};
use markup::namespace;

// No token stands there.
pub fn fault_at(s: &[u8], at: usize) -> TokenAt
    ensures { Faulty s.now at result }
{
    if at < s.len() {
        return TokenAt {
            kind: TokenKind::Fault,
            name: at,
            name_end: at,
            unit: at,
            next: at + 1,
        };
    }
    TokenAt {
        kind: TokenKind::Fault,
        name: at,
        name_end: at,
        unit: at,
        next: at,
    }
}

// The tag that begins at `at`, with a name from `a` to `n`, and `>` or `/>` at `e`.
fn opened_at(s: &[u8], at: usize, a: usize, n: usize, e: usize) -> TokenAt
    ensures { Opened s.now at a n e result }
{
    let f = exactly_at(s, e, b">");
    if f <= s.len() {
        return TokenAt {
            kind: TokenKind::Start,
            name: a,
            name_end: n,
            unit: at,
            next: f,
        };
    }
    let g = exactly_at(s, e, b"/>");
    if g <= s.len() {
        return TokenAt {
            kind: TokenKind::Empty,
            name: a,
            name_end: n,
            unit: at,
            next: g,
        };
    }
    fault_at(s, at)
}

// The end tag that begins at `at`, with its name at `a`.
fn closed_at(s: &[u8], at: usize, a: usize) -> TokenAt
    requires { (a ≡ at + 2) × (a ≤ length s.now) }
    ensures { Reads end_of s.now at a result }
{
    let n = name_at(s, a);
    let e = blank_at(s, n);
    let f = exactly_at(s, e, b">");
    if f <= s.len() {
        return TokenAt {
            kind: TokenKind::End,
            name: a,
            name_end: n,
            unit: at,
            next: f,
        };
    }
    fault_at(s, at)
}

// The tag whose `<` stands at `at`.
pub fn tag_at(s: &[u8], at: usize) -> TokenAt
    requires { at < length s.now }
    ensures { Reads tag s.now at (at + 1) result }
{
    let a = at + 1;
    let c = exactly_at(s, a, b"/");
    if c <= s.len() {
        return closed_at(s, at, c);
    }
    let n = name_at(s, a);
    let e = blank_at(s, n);
    opened_at(s, at, a, n, e)
}

// The root's tag; its `unit` is its place.
pub fn root_at(s: &[u8]) -> TokenAt
    ensures { RootAt s.now result }
{
    let at = prolog_end(s);
    let a = exactly_at(s, at, b"<");
    if a <= s.len() {
        let n = name_at(s, a);
        let v = attribute_at(s, n, &namespace::XMLNS, &namespace::ICALENDAR);
        let e = blank_at(s, v);
        return opened_at(s, at, a, n, e);
    }
    fault_at(s, at)
}
