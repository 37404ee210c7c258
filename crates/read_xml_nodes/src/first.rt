// The first element from a place on. See specs/First.antt.
ghost use Rattle.std.specs.Prelude.{◌≡◌, option_map};
ghost use Rattle.xml.specs.NodesAt.{nodes_at};
ghost use Rattle.read_xml_nodes.specs.First.{first_element, first_of};

use crate::NodeKind;
use crate::heads::token_head;
use crate::plain::is_plain;
use octets::wide;

// Its place, and its name from `name` to `name_end`.
#[derive(Clone, Copy, Debug, PartialEq, Eq)]
pub struct FirstElement {
    pub place: usize,
    pub name: usize,
    pub name_end: usize,
}

pub fn first_element(s: &[u8], at: usize) -> Option<FirstElement>
    ensures { first_element (nodes_at s.now at) ≡ option_map (first_of s.now) result }
{
    let mut c = at;
    while c < s.len() {
        if is_plain(wide(s[c])) {
            c += 1;
        } else {
            let n = token_head(s, c);
            match n.kind {
                NodeKind::Absent => {
                    return None;
                }
                NodeKind::Element => {
                    return Some(FirstElement {
                        place: c,
                        name: n.name,
                        name_end: n.name_end,
                    });
                }
                NodeKind::Literal | NodeKind::Referred => {
                    c = n.next;
                }
            }
        }
    }
    None
}
