// The node at a place.
ghost use Rattle.std.specs.Prelude.{◌≡◌, length};
ghost use Rattle.read_xml_nodes.specs.NodeFound.{no_node, character_node, NodeAt};

use crate::ending::node_end;
use crate::heads::node_head;
use crate::{Node, NodeKind};

fn no_node(s: &[u8]) -> Node
    ensures { result ≡ no_node (length s.now) }
{
    Node {
        kind: NodeKind::Absent,
        name: 0,
        name_end: 0,
        inside: s.len(),
        end: 0,
        next: s.len(),
        unit: 0,
    }
}

fn character_node(kind: NodeKind, s: &[u8], unit: usize, next: usize) -> Node
    ensures { result ≡ character_node kind (length s.now) unit next }
{
    Node {
        kind,
        name: 0,
        name_end: 0,
        inside: s.len(),
        end: 0,
        next,
        unit,
    }
}

// The node at `at` in the content of an element, whatever the bytes are.
pub fn next_node(s: &[u8], at: usize) -> Node
    ensures { NodeAt s.now at result }
{
    let h = node_head(s, at);
    match h.kind {
        NodeKind::Absent => no_node(s),
        NodeKind::Element => {
            let e = node_end(s, at, h.opens, h.next);
            Node {
                kind: NodeKind::Element,
                name: h.name,
                name_end: h.name_end,
                inside: h.inside,
                end: e.place,
                next: e.next,
                unit: 0,
            }
        }
        NodeKind::Literal => character_node(NodeKind::Literal, s, h.unit, h.next),
        NodeKind::Referred => character_node(NodeKind::Referred, s, h.unit, h.next),
    }
}
