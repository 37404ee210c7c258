// A property's element, and the children of `properties`. See crate xcal, specs/PropertyNodes.antt.
ghost use Rattle.std.specs.Prelude.{◌≡◌, List, ℕ, ◌≤◌, length, take};
ghost use Rattle.octets.specs.Class.{upper};
ghost use Rattle.source.specs.Source.{rest};
ghost use Rattle.names.specs.Table.{place_of};
ghost use Rattle.schema.specs.Properties.{property_names};
ghost use Rattle.schema.specs.Coded.{row_at};
ghost use Rattle.xcal.specs.PropertyNodes.{bad_name, parameters_in};
ghost use Rattle.xml.specs.NodesAt.{nodes_at};
ghost use Rattle.read_xml.specs.Children.{name_of};
ghost use Rattle.read_xml.specs.Properties.{LacksAt, OffAt, PropertyAt, ListedAt};

use crate::children::{child_slot, children_verdict};
use crate::counting::word_of;
use edition::Edition;
use markup::element;
use names::is_word;
use octets::is_space;
use read_text_line::is_carried_name;
use read_xml_nodes::{Node, NodeKind, has_capital, next_node};
use read_xml_parameters::has_encoding;
use read_xml_value::type_of_nodes;
use refusals::{Fault, Refusal};
use schema::{Context, Row, may_stand, property, row_of, value_type};
use source::Plain;
use tallies::{Kept, count, none_counted};

// Where the content begins of the `parameters` of the property of the number `p` that stands before its value; the end of the bytes where it has none.
fn parameters_at(p: usize, s: &[u8], inside: usize) -> usize
    ensures { (w : List ℕ) →
        p ≡ place_of w property_names →
        nodes_at s.now result ≡ parameters_in w (nodes_at s.now inside) }
{
    let mut at = inside;
    'nodes: loop {
        let n = next_node(s, at);
        match n.kind {
            NodeKind::Absent => {
                return s.len();
            }
            NodeKind::Element => {
                if let Some(slot) = child_slot(p, s, n.name, n.name_end) {
                    return if slot == 0 { n.inside } else { s.len() };
                }
                at = n.next;
            }
            NodeKind::Literal | NodeKind::Referred => {
                at = n.next;
            }
        }
    }
}

// Its value has the type BINARY, and it has no ENCODING.
fn lacks_encoding(p: usize, t: usize, s: &[u8], inside: usize) -> bool
    ensures { LacksAt p t (nodes_at s.now inside) result }
{
    if t == value_type::BINARY {
        !has_encoding(s, parameters_at(p, s, inside))
    } else {
        false
    }
}

// A name that no property element has.
fn bad_name(s: &[u8], name: usize, name_end: usize) -> bool
    requires { name_end ≤ length s.now }
    ensures { result ≡ bad_name (rest 0 (take name_end s.now) name) }
{
    if has_capital(s, name, name_end) {
        return true;
    }
    if is_carried_name::<Plain>(&s[..name_end], name) {
        if is_word::<Plain>(&s[..name_end], name, &element::BEGIN) {
            return true;
        }
        return is_word::<Plain>(&s[..name_end], name, &element::END);
    }
    true
}

// The property of the row is known, and may not stand in the component of the number `k`.
fn is_misplaced(k: usize, row: Row) -> bool
    ensures { OffAt k row result }
{
    row.number < property::KNOWN && !may_stand(k, row)
}

// The row of the property whose element is `n`.
fn property_at(s: &[u8], n: Node) -> Row
    requires { n.name_end ≤ length s.now }
    ensures { result ≡ row_at (place_of (upper (name_of s.now n)) property_names) }
{
    row_of::<Plain>(&s[..n.name_end], n.name)
}

// The property of the row in the component of the number `k`: its element is `n`, at `at`.
fn property_verdict(
    edition: Edition,
    k: usize,
    row: Row,
    s: &[u8],
    at: usize,
    n: Node,
) -> Result<(), Fault>
    requires { (length s.now ≤ 65535) × (n.name_end ≤ length s.now) }
    ensures { row ≡ row_at (place_of (upper (name_of s.now n)) property_names) →
        PropertyAt edition k s.now at n result }
{
    if bad_name(s, n.name, n.name_end) {
        return Err(Refusal::Name.at(at));
    }
    if is_misplaced(k, row) {
        return Err(Refusal::Frame.at(at));
    }
    let t = type_of_nodes(row, s, n.inside);
    if lacks_encoding(row.number, t, s, n.inside) {
        return Err(Refusal::Parameter.at(at));
    }
    let context = Context {
        component: k,
        row,
        value_type: t,
    };
    children_verdict(edition, context, s, n.inside, n.end)
}

// The children of the `properties` of a component of the number `k`: what is kept of them.
pub fn properties_verdict(
    edition: Edition,
    k: usize,
    s: &[u8],
    inside: usize,
) -> Result<Kept, Fault>
    requires { length s.now ≤ 65535 }
    ensures { ListedAt edition k s.now inside result }
{
    let mut at = inside;
    let mut kept = none_counted();
    'nodes: loop {
        let n = next_node(s, at);
        match n.kind {
            NodeKind::Absent => {
                return Ok(kept);
            }
            NodeKind::Element => {
                let row = property_at(s, n);
                property_verdict(edition, k, row, s, at, n)?;
                kept = count(kept, row.number, word_of(row.number, s, n.inside));
                at = n.next;
            }
            NodeKind::Literal => {
                if is_space(n.unit) {
                    at = n.next;
                } else {
                    return Err(Refusal::Frame.at(at));
                }
            }
            NodeKind::Referred => {
                return Err(Refusal::Frame.at(at));
            }
        }
    }
}
