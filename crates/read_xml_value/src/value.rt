// An element of a property's value. See crate xcal, specs/ValueNodes.antt.
ghost use Rattle.std.specs.Prelude.{◌≡◌, List, ℕ, ◌≤◌, eqb, length};
ghost use Rattle.octets.specs.Pick.{pick, ◌and◌};
ghost use Rattle.calendar.specs.Refusal.{refuse};
ghost use Rattle.calendar.specs.Refusal as spec;
ghost use Rattle.names.specs.Table.{place_of};
ghost use Rattle.schema.specs.Components.{component_names};
ghost use Rattle.schema.specs.Properties.{property_names};
ghost use Rattle.schema.specs.Numbers.{type_at};
ghost use Rattle.schema.specs.Coded.{row_at};
ghost use Rattle.schema.specs.Columns.{permits_type};
ghost use Rattle.schema.specs.Sets.{words_at};
ghost use Rattle.xcal.specs.Layout.{leaf};
ghost use Rattle.xcal.specs.ValueNodes.{read_word_of, value_verdict};
ghost use Rattle.xml.specs.NodesAt.{nodes_at};
ghost use Rattle.read_xml_nodes.specs.Elements.{name_at};
ghost use Rattle.refusals.specs.Fault.{judged_as};
ghost use Rattle.read_xml_value.specs.Values.{typed_at};

use crate::leaves::{leaf, leaf_value, leaf_word};
use crate::turns::parts_verdict;
use crate::types::element_type;
use read_xml_nodes::Element;
use refusals::{Fault, Refusal};
use schema::{Context, has_words, permits_type, property, value_type};

// Character data: a word of the closed set that the property has in the component, or a value of the type.
fn leaf_typed(context: Context, s: &[u8], e: Element) -> Result<(), Fault>
    requires { (length s.now ≤ 65535) × (e.inside ≤ length s.now) }
    ensures { judged_as result
        ≡ leaf (read_word_of (words_at context.component context.row.number) (type_at context.value_type))
        e.place (nodes_at s.now e.inside) }
{
    let p = context.row.number;
    if has_words(context.component, p) {
        leaf_word(context.component, p, s, e.place, e.inside)
    } else {
        leaf_value(context.value_type, s, e.place, e.inside)
    }
}

// A value of the type.
fn typed_verdict(context: Context, s: &[u8], e: Element) -> Result<(), Fault>
    requires { (length s.now ≤ 65535) × (e.inside ≤ length s.now) }
    ensures { judged_as result ≡ typed_at context e.place e.end (nodes_at s.now e.inside) }
{
    if context.value_type == value_type::PERIOD {
        parts_verdict(false, s, e.inside, e.end)
    } else if context.value_type == value_type::RECUR {
        parts_verdict(true, s, e.inside, e.end)
    } else {
        leaf_typed(context, s, e)
    }
}

// The same of an element that is named as the type `u`, where the property's first value has the type of the context.
fn typed_as(context: Context, u: usize, s: &[u8], e: Element) -> Result<(), Fault>
    requires { (length s.now ≤ 65535) × (e.inside ≤ length s.now) }
    ensures { judged_as result
        ≡ pick (permits_type context.row u and eqb u context.value_type)
        (typed_at context e.place e.end (nodes_at s.now e.inside))
        (refuse spec.VALUE e.place) }
{
    if permits_type(context.row, u) && u == context.value_type {
        typed_verdict(context, s, e)
    } else {
        Err(Refusal::Value.at(e.place))
    }
}

// An element of a property's value: the context has the type of the property's first value.
pub fn value_verdict(context: Context, s: &[u8], e: Element) -> Result<(), Fault>
    requires { (length s.now ≤ 65535) × (e.inside ≤ length s.now) }
    ensures { (c w : List ℕ) →
        context.component ≡ place_of c component_names →
        context.row ≡ row_at (place_of w property_names) →
        context.value_type ≤ 14 →
        judged_as result
        ≡ value_verdict c w (type_at context.value_type) e.place (name_at s.now e) e.end
        (nodes_at s.now e.inside) }
{
    let p = context.row.number;
    if p == property::GEO {
        return leaf_value(value_type::FLOAT, s, e.place, e.inside);
    }
    if p == property::REQUEST_STATUS {
        return leaf(Ok(()), s, e.inside);
    }
    match element_type(s, e.name, e.name_end) {
        Some(u) => typed_as(context, u, s, e),
        None => Err(Refusal::Value.at(e.place)),
    }
}
