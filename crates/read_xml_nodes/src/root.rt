// The root of a document.
ghost use Rattle.std.specs.Prelude.{◌≡◌};
ghost use Rattle.read_xml_nodes.specs.RootFound.{no_root, RootNode};

use crate::Element;
use crate::closing::element_end;
use read_xml_tokens::{TokenKind, root_at};

fn no_root() -> Element
    ensures { result ≡ no_root }
{
    Element {
        place: 0,
        name: 0,
        name_end: 0,
        inside: 0,
        end: 0,
    }
}

// The root of a document that is within the XML profile.
pub fn root_node(s: &[u8]) -> Element
    ensures { RootNode s.now result }
{
    let t = root_at(s);
    match t.kind {
        TokenKind::Start => {
            let e = element_end(s, t.next);
            Element {
                place: t.unit,
                name: t.name,
                name_end: t.name_end,
                inside: t.next,
                end: e.place,
            }
        }
        TokenKind::Empty => Element {
            place: t.unit,
            name: t.name,
            name_end: t.name_end,
            inside: s.len(),
            end: t.unit,
        },
        TokenKind::End | TokenKind::Char | TokenKind::Reference | TokenKind::Fault => no_root(),
    }
}
