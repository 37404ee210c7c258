// The elements of a content, one by one. See specs/Children.antt.
ghost use Rattle.std.specs.Prelude.{◌≡◌};
ghost use Rattle.octets.specs.Ascii.{ascii};
ghost use Rattle.octets.specs.Words.{same};
ghost use Rattle.xcal.specs.ParameterNodes.{has_encoding};
ghost use Rattle.xml.specs.NodesAt.{nodes_at};
ghost use Rattle.read_xml_parameters.specs.Children.{ChildAt};

use crate::Child;
use names::is_word;
use read_xml_nodes::{NodeKind, next_node};
use source::Plain;

// The first element from `at` on.
pub fn next_child(s: &[u8], at: usize) -> Child
    ensures { ChildAt s.now at result }
{
    let mut c = at;
    loop {
        let n = next_node(s, c);
        let kind = n.kind;
        match kind {
            NodeKind::Absent => {
                return Child {
                    there: false,
                    place: c,
                    name: 0,
                    name_end: 0,
                    inside: s.len(),
                    end: 0,
                    next: s.len(),
                };
            }
            NodeKind::Element => {
                return Child {
                    there: true,
                    place: c,
                    name: n.name,
                    name_end: n.name_end,
                    inside: n.inside,
                    end: n.end,
                    next: n.next,
                };
            }
            NodeKind::Literal => {
                c = n.next;
            }
            NodeKind::Referred => {
                c = n.next;
            }
        }
    }
}

// The name is `encoding`.
fn is_encoding(w: &[u8]) -> bool
    ensures { result ≡ same w.now (ascii "encoding") }
{
    is_word::<Plain>(w, 0, b"encoding")
}

// An element named `encoding` stands among the parameters whose content begins at `inside`.
pub fn has_encoding(s: &[u8], inside: usize) -> bool
    ensures { result ≡ has_encoding (nodes_at s.now inside) }
{
    let mut c = inside;
    loop {
        let n = next_child(s, c);
        if n.there {
            let a = n.name;
            let e = n.name_end;
            let found = is_encoding(&s[a..e]);
            if found {
                return true;
            }
            c = n.next;
        } else {
            return false;
        }
    }
}
