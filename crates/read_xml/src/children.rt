// The children of a property, by numbers. See specs/Children.antt.
ghost use Rattle.std.specs.Prelude.{◌≡◌, List, [], ℕ, suc, ◌≤◌, eqb, length, take, Some};
ghost use Rattle.octets.specs.Pick.{pick, ◌and◌, ◌or◌};
ghost use Rattle.calendar.specs.Refusal.{fine, refuse};
ghost use Rattle.calendar.specs.Refusal as spec;
ghost use Rattle.source.specs.Source.{rest};
ghost use Rattle.names.specs.Table.{place_of};
ghost use Rattle.schema.specs.Numbers.{type_at, type_words};
ghost use Rattle.xcal.specs.Layout.{sequence};
ghost use Rattle.xcal.specs.ValueNodes.{geo_elements, status_elements};
ghost use Rattle.xcal.specs.PropertyNodes.{property_slots, child_verdict};
ghost use Rattle.read_xml_value.specs.Sequencing.{is_short};
ghost use Rattle.xml.specs.NodesAt.{nodes_at};
ghost use Rattle.read_xml_nodes.specs.Elements.{name_at};
ghost use Rattle.refusals.specs.Fault.{judged_as};
ghost use Rattle.read_xml.specs.Children.{child_words, number_below, slot_at, after_at, flags_at, has_two};
ghost use Rattle.read_xml.specs.Turning.{Holder, ChildAt, Turns};

use edition::Edition;
use markup::{element, table};
use names::{find_word, is_word};
use octets::is_space;
use read_xml_nodes::{Element, NodeKind, next_node, unexpected};
use read_xml_parameters::parameters_verdict;
use read_xml_value::{Turn, value_verdict};
use refusals::{Fault, Refusal};
use schema::{Context, property};
use source::Plain;

// The number of the name of an element of GEO's value, from the cursor on. It is counted from 1: 0 is `parameters`.
fn geo_word(s: &[u8], at: usize) -> usize
    ensures { result ≡ suc (place_of (rest 0 s.now at) geo_elements) }
{
    if is_word::<Plain>(s, at, &element::LATITUDE) {
        1
    } else if is_word::<Plain>(s, at, &element::LONGITUDE) {
        2
    } else {
        3
    }
}

// The same of REQUEST-STATUS's value.
fn status_word(s: &[u8], at: usize) -> usize
    ensures { result ≡ suc (place_of (rest 0 s.now at) status_elements) }
{
    if is_word::<Plain>(s, at, &element::CODE) {
        1
    } else if is_word::<Plain>(s, at, &element::DESCRIPTION) {
        2
    } else if is_word::<Plain>(s, at, &element::DATA) {
        3
    } else {
        4
    }
}

// The same of the value of another property, whose elements are named as types.
fn type_word(s: &[u8], at: usize) -> usize
    ensures { result ≡ suc (place_of (rest 0 s.now at) type_words) }
{
    let t = find_word::<Plain>(true, s, at, &table::TYPES);
    t + 1
}

// The number of a child's name, from the cursor on.
fn child_word(p: usize, s: &[u8], at: usize) -> usize
    ensures { result ≡ place_of (rest 0 s.now at) (child_words p) }
{
    if is_word::<Plain>(s, at, &element::PARAMETERS) {
        0
    } else if p == property::GEO {
        geo_word(s, at)
    } else if p == property::REQUEST_STATUS {
        status_word(s, at)
    } else {
        type_word(s, at)
    }
}

// A number below a bound.
fn number_below(i: usize, n: usize) -> Option<usize>
    ensures { result ≡ number_below i n }
{
    if i < n { Some(i) } else { None }
}

// The slot of the child of the number `i`, if it has one.
fn slot_number(p: usize, i: usize) -> Option<usize>
    ensures { result ≡ slot_at p i }
{
    if p == property::GEO {
        number_below(i, 3)
    } else if p == property::REQUEST_STATUS {
        number_below(i, 4)
    } else if i == 0 {
        Some(0)
    } else if i < 16 {
        Some(1)
    } else {
        None
    }
}

// The slot of the child whose name stands from `name` to `name_end`.
pub fn child_slot(p: usize, s: &[u8], name: usize, name_end: usize) -> Option<usize>
    requires { name_end ≤ length s.now }
    ensures { result ≡ slot_at p (place_of (rest 0 (take name_end s.now) name) (child_words p)) }
{
    let i = child_word(p, &s[..name_end], name);
    slot_number(p, i)
}

// The values of a listed property may stand several times.
#[tactic(auto, using(octets::specs::laws::Pick::branching_joined))]
fn several(listed: bool, slot: usize) -> bool
    ensures { result ≡ (eqb slot 1 and listed) }
{
    slot == 1 && listed
}

// The slot after a child of a slot, where slots before `next` have passed; `listed`, whether the property is.
fn child_after(listed: bool, slot: usize, next: usize) -> Option<usize>
    ensures { result ≡ after_at listed slot next }
{
    // There are four slots at most.
    if slot < 4 {
        if slot < next {
            None
        } else if several(listed, slot) {
            Some(slot)
        } else {
            Some(slot + 1)
        }
    } else {
        None
    }
}

// What stands in a child of a slot.
fn child_inside(
    edition: Edition,
    context: Context,
    slot: usize,
    s: &[u8],
    e: Element,
) -> Result<(), Fault>
    requires { (length s.now ≤ 65535) × (e.inside ≤ length s.now) }
    ensures { (c w : List ℕ) →
        Holder context c w →
        Some slot ≡ slot_at context.row.number (place_of (name_at s.now e) (child_words context.row.number)) →
        judged_as result
        ≡ child_verdict edition c w (type_at context.value_type) e.place (name_at s.now e) e.end
        (nodes_at s.now e.inside) }
{
    if slot == 0 {
        parameters_verdict(edition, context.row, context.value_type, s, e.inside)
    } else {
        value_verdict(context, s, e)
    }
}

// The child of a slot, where slots before `next` have passed: the slot after it.
fn child(
    edition: Edition,
    context: Context,
    slot: usize,
    next: usize,
    s: &[u8],
    e: Element,
) -> Result<usize, Fault>
    requires { (length s.now ≤ 65535) × (e.inside ≤ length s.now) }
    ensures { Some slot
        ≡ slot_at context.row.number (place_of (name_at s.now e) (child_words context.row.number)) →
        ChildAt edition context next e.place (name_at s.now e) e.end
        (nodes_at s.now e.inside) result }
{
    let Some(after) = child_after(context.row.listed, slot, next) else {
        return Err(unexpected(s, e.place, e.name, e.name_end));
    };
    child_inside(edition, context, slot, s, e)?;
    Ok(after)
}

// A slot is filled, by a child of the slot `slot`.
#[tactic(auto, using(octets::specs::laws::Pick::branching_joined))]
fn fills(slot: usize, which: usize, filled: bool) -> bool
    ensures { result ≡ (eqb slot which or filled) }
{
    slot == which || filled
}

// GEO and REQUEST-STATUS have two children that must stand.
#[tactic(auto, using(octets::specs::laws::Pick::branching_joined))]
fn has_two(p: usize) -> bool
    ensures { result ≡ has_two p }
{
    p == property::GEO || p == property::REQUEST_STATUS
}

// At the end tag at `e`, by the slots that are filled.
fn at_end(p: usize, first: bool, second: bool, e: usize) -> Result<(), Fault>
    ensures { judged_as result ≡ pick (is_short (flags_at p first second)) (refuse spec.FRAME e) fine }
{
    if first && (!has_two(p) || second) {
        Ok(())
    } else {
        Err(Refusal::Frame.at(e))
    }
}

// One node of the content: where the walk goes on, if it does. The parent's end tag is at `e`.
fn turn(
    edition: Edition,
    context: Context,
    s: &[u8],
    t: Turn,
    e: usize,
) -> Result<Option<Turn>, Fault>
    requires { length s.now ≤ 65535 }
    ensures { Turns edition context s.now e t result }
{
    let n = next_node(s, t.at);
    match n.kind {
        NodeKind::Absent => {
            at_end(context.row.number, t.first, t.second, e)?;
            Ok(None)
        }
        NodeKind::Element => {
            let Some(slot) = child_slot(context.row.number, s, n.name, n.name_end) else {
                return Err(unexpected(s, t.at, n.name, n.name_end));
            };
            let element = Element {
                place: t.at,
                name: n.name,
                name_end: n.name_end,
                inside: n.inside,
                end: n.end,
            };
            let after = child(edition, context, slot, t.slot, s, element)?;
            Ok(Some(Turn {
                at: n.next,
                slot: after,
                first: fills(slot, 1, t.first),
                second: fills(slot, 2, t.second),
            }))
        }
        NodeKind::Literal => {
            if is_space(n.unit) {
                Ok(Some(Turn { at: n.next, ..t }))
            } else {
                Err(Refusal::Frame.at(t.at))
            }
        }
        NodeKind::Referred => Err(Refusal::Frame.at(t.at)),
    }
}

// The children of the property of a context, whose values have its type. Its content begins at `inside`, its end tag is at `e`.
pub fn children_verdict(
    edition: Edition,
    context: Context,
    s: &[u8],
    inside: usize,
    e: usize,
) -> Result<(), Fault>
    requires { length s.now ≤ 65535 }
    ensures { (c w : List ℕ) →
        Holder context c w →
        judged_as result
        ≡ sequence (property_slots w) (child_verdict edition c w (type_at context.value_type))
        (nodes_at s.now inside) 0 [] e }
{
    let mut t = Turn {
        at: inside,
        slot: 0,
        first: false,
        second: false,
    };
    'children: while let Some(next) = turn(edition, context, s, t, e)? {
        t = next;
    }
    Ok(())
}
