// The head of the node at a place.
ghost use Rattle.std.specs.Prelude.{◌≡◌, length};
ghost use Rattle.read_xml_nodes.specs.HeadFound.{no_head, character_head, HeadAt};

use crate::plain::is_plain;
use crate::{Head, NodeKind};
use octets::wide;
use read_xml_tokens::{TokenKind, token_at};

fn no_head(s: &[u8]) -> Head
    ensures { result ≡ no_head (length s.now) }
{
    Head {
        kind: NodeKind::Absent,
        name: 0,
        name_end: 0,
        inside: s.len(),
        opens: false,
        next: s.len(),
        unit: 0,
    }
}

fn character_head(kind: NodeKind, s: &[u8], unit: usize, next: usize) -> Head
    ensures { result ≡ character_head kind (length s.now) unit next }
{
    Head {
        kind,
        name: 0,
        name_end: 0,
        inside: s.len(),
        opens: false,
        next,
        unit,
    }
}

// The head of the node at `at`, by its token.
pub fn token_head(s: &[u8], at: usize) -> Head
    ensures { HeadAt s.now at result }
{
    let t = token_at(s, at);
    match t.kind {
        TokenKind::Start => Head {
            kind: NodeKind::Element,
            name: t.name,
            name_end: t.name_end,
            inside: t.next,
            opens: true,
            next: t.next,
            unit: 0,
        },
        TokenKind::Empty => Head {
            kind: NodeKind::Element,
            name: t.name,
            name_end: t.name_end,
            inside: s.len(),
            opens: false,
            next: t.next,
            unit: 0,
        },
        TokenKind::Char => character_head(NodeKind::Literal, s, t.unit, t.next),
        TokenKind::Reference => character_head(NodeKind::Referred, s, t.unit, t.next),
        TokenKind::End | TokenKind::Fault => no_head(s),
    }
}

// The head of the node at `at` in the content of an element, whatever the bytes are.
pub fn node_head(s: &[u8], at: usize) -> Head
    ensures { HeadAt s.now at result }
{
    if at < s.len() {
        let b = wide(s[at]);
        if is_plain(b) {
            return character_head(NodeKind::Literal, s, b, at + 1);
        }
    }
    token_head(s, at)
}
