// The first child of a name. See crate xcal, specs/ValueNodes.antt.
ghost use Rattle.write_text_values.specs.Children.{ChildAt, TextAt};

use names::is_word;
use read_xml_nodes::{NodeKind, node_end, node_head};
use source::Plain;

// Where the content of the first child of this name begins, in the content that begins at `inside`.
pub fn find_child(s: &[u8], inside: usize, name: &[u8]) -> Option<usize>
    ensures { ChildAt name.now s.now inside result }
{
    let mut c = inside;
    'children: loop {
        let n = node_head(s, c);
        match n.kind {
            NodeKind::Absent => return None,
            NodeKind::Element => {
                if is_word::<Plain>(&s[..n.name_end], n.name, name) {
                    return Some(n.inside);
                }
                c = node_end(s, c, n.opens, n.next).next;
            }
            NodeKind::Literal | NodeKind::Referred => c = n.next,
        }
    }
}

// Where its content begins; where there is no such child, the end, from where on there are no characters.
pub fn child_inside(s: &[u8], inside: usize, name: &[u8]) -> usize
    ensures { TextAt name.now s.now inside result }
{
    find_child(s, inside, name).unwrap_or(s.len())
}
