// Properties as folded lines. A fold is known only when the line is there: `line` is the room in which it is written before.
ghost use Rattle.std.specs.Prelude.{◌≡◌, ◌≤◌, length};
ghost use Rattle.sink.specs.Sink.{overwrite};
ghost use Rattle.folding.specs.Fold.{folded_line};
ghost use Rattle.text.specs.WriteText.{property_lines};
ghost use Rattle.xcal.specs.PropertyNodes.{read_properties};
ghost use Rattle.xml.specs.NodesAt.{nodes_at};
ghost use Rattle.read_xml_nodes.specs.Elements.{name_at};
ghost use Rattle.write_text_pieces.specs.Filled.{properties_room, PutBy};
ghost use Rattle.write_text.specs.Content.{line_text};

use crate::content::put_content_line;
use edition::Edition;
use folding::folded::put_folded;
use read_xml_nodes::{Element, NodeKind, next_node};

// The line of the property whose element is `e`.
fn put_property_line(
    out: &mut [u8],
    o: usize,
    edition: Edition,
    line: &mut [u8],
    s: &[u8],
    e: Element,
) -> usize
    requires { (length s.now ≤ 65535)
        × (e.name_end ≤ length s.now)
        × (e.inside ≤ length s.now)
        × (length (line_text edition (name_at s.now e) (nodes_at s.now e.inside)) ≤ length line.old) }
    ensures { PutBy out.old out.new o result
        (folded_line (line_text edition (name_at s.now e) (nodes_at s.now e.inside)))
        line.new
        (overwrite line.old 0
        (line_text edition (name_at s.now e) (nodes_at s.now e.inside))) }
{
    let n = put_content_line(line, 0, edition, s, e);
    put_folded(out, o, &line[..n])
}

// The lines of the properties whose elements stand from `from` on.
pub fn put_properties(
    out: &mut [u8],
    o: usize,
    edition: Edition,
    line: &mut [u8],
    s: &[u8],
    from: usize,
) -> usize
    requires { (length s.now ≤ 65535) × (length line.old ≡ 262144) }
    ensures { PutBy out.old out.new o result
        (property_lines edition (read_properties (nodes_at s.now from)))
        line.new
        (properties_room edition (read_properties (nodes_at s.now from)) line.old) }
{
    let mut p = o;
    let mut at = from;
    loop {
        let n = next_node(s, at);
        match n.kind {
            NodeKind::Absent => {
                return p;
            }
            NodeKind::Element => {
                let element = Element {
                    place: at,
                    name: n.name,
                    name_end: n.name_end,
                    inside: n.inside,
                    end: n.end,
                };
                p = put_property_line(out, p, edition, line, s, element);
                at = n.next;
            }
            NodeKind::Literal => {
                at = n.next;
            }
            NodeKind::Referred => {
                at = n.next;
            }
        }
    }
}
