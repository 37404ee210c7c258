// The types that elements are named as. See crate xcal, specs/ValueNodes.antt.
ghost use Rattle.std.specs.Prelude.{◌≡◌, List, ℕ, ◌≤◌, take};
ghost use Rattle.source.specs.Source.{rest};
ghost use Rattle.names.specs.Table.{place_of};
ghost use Rattle.schema.specs.Properties.{property_names};
ghost use Rattle.schema.specs.Numbers.{type_at, type_words};
ghost use Rattle.schema.specs.Coded.{row_at};
ghost use Rattle.xcal.specs.ValueNodes.{first_type, type_of_nodes};
ghost use Rattle.xml.specs.NodesAt.{nodes_at};
ghost use Rattle.read_xml_value.specs.ElementTypes.{TypeNamed};

use markup::table;
use names::find_word;
use read_xml_nodes::{NodeKind, node_end, node_head};
use schema::{Row, property};
use source::Plain;

// The number of the type that the word from `at` on names, 15 where it names none.
fn type_word(s: &[u8], at: usize) -> usize
    ensures { result ≡ place_of (rest 0 s.now at) type_words }
{
    find_word::<Plain>(true, s, at, &table::TYPES)
}

// The same of the name from `name` to `name_end`.
fn type_place(s: &[u8], name: usize, name_end: usize) -> usize
    ensures { result ≡ place_of (rest 0 (take name_end s.now) name) type_words }
{
    if name_end <= s.len() {
        type_word(&s[..name_end], name)
    } else {
        type_word(s, name)
    }
}

// The type that an element's name names, by its number; none where it names none.
pub fn element_type(s: &[u8], name: usize, name_end: usize) -> Option<usize>
    ensures { TypeNamed (rest 0 (take name_end s.now) name) result }
{
    let t = type_place(s, name, name_end);
    if t < 15 { Some(t) } else { None }
}

// The type of the first element from `inside` on that is named as one, or `t`.
fn first_type(t: usize, s: &[u8], inside: usize) -> usize
    ensures { (type_at result ≡ first_type (type_at t) (nodes_at s.now inside)) × (t ≤ 14 → result ≤ 14) }
{
    let mut c = inside;
    'nodes: loop {
        let n = node_head(s, c);
        match n.kind {
            NodeKind::Absent => {
                return t;
            }
            NodeKind::Element => {
                if let Some(u) = element_type(s, n.name, n.name_end) {
                    return u;
                }
                c = node_end(s, c, n.opens, n.next).next;
            }
            NodeKind::Literal | NodeKind::Referred => {
                c = n.next;
            }
        }
    }
}

// The type of the values of the property of the row whose content begins at `inside`.
pub fn type_of_nodes(row: Row, s: &[u8], inside: usize) -> usize
    ensures { (w : List ℕ) →
        row ≡ row_at (place_of w property_names) →
        (type_at result ≡ type_of_nodes w (nodes_at s.now inside)) × (result ≤ 14) }
{
    let p = row.number;
    if p == property::GEO {
        return row.default;
    }
    if p == property::REQUEST_STATUS {
        return row.default;
    }
    first_type(row.default, s, inside)
}
