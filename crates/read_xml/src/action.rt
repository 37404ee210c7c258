// The word of an ACTION. See specs/laws/ActionWord.antt.
ghost use Rattle.std.specs.Prelude.{◌≡◌, ◌≤◌, length};
ghost use Rattle.schema.specs.Counts.{first_text};
ghost use Rattle.schema.specs.Completing.{alarm_action};
ghost use Rattle.xcal.specs.ValueNodes.{typed_values};
ghost use Rattle.xml.specs.NodesAt.{nodes_at};

use crate::word::text_action;
use read_xml_nodes::{NodeKind, node_end, node_head};
use read_xml_value::element_type;
use schema::{Action, value_type};

// What the word of an ACTION names whose content begins at `inside`: that of its first child that is named as a type, where it is a text.
pub fn action_word(s: &[u8], inside: usize) -> Option<Action>
    requires { (length s.now ≤ 65535) × (inside ≤ length s.now) }
    ensures { result ≡ alarm_action (first_text (typed_values (nodes_at s.now inside))) }
{
    let mut at = inside;
    'nodes: loop {
        let n = node_head(s, at);
        match n.kind {
            NodeKind::Absent => {
                return None;
            }
            NodeKind::Element => {
                if let Some(t) = element_type(s, n.name, n.name_end) {
                    return if t == value_type::TEXT {
                        text_action(s, n.inside)
                    } else {
                        None
                    };
                }
                at = node_end(s, at, n.opens, n.next).next;
            }
            NodeKind::Literal | NodeKind::Referred => {
                at = n.next;
            }
        }
    }
}
