// The children of a component, up to its `components` and behind it. See specs/Components.antt.
ghost use Rattle.std.specs.Prelude.{◌≡◌, ◌≤◌, length, take};
ghost use Rattle.octets.specs.Pick.{pick};
ghost use Rattle.octets.specs.Words.{same};
ghost use Rattle.source.specs.Source.{rest};
ghost use Rattle.calendar.specs.Refusal.{fine, refuse};
ghost use Rattle.calendar.specs.Refusal as spec;
ghost use Rattle.refusals.specs.Fault.{judged_as};
ghost use Rattle.read_xml.specs.Children.{name_of};
ghost use Rattle.read_xml.specs.Components.{part_name, complete_by, EndAt, EndsAt, has_subs, WhichAt, MetAt, HeadAt, BehindAt};

use crate::properties::properties_verdict;
use crate::{Met, Opened, Which};
use edition::Edition;
use markup::element;
use names::is_word;
use octets::is_space;
use read_xml_nodes::{Node, NodeKind, next_node, unexpected};
use refusals::{Fault, Refusal};
use schema::{complete_counts, component};
use source::Plain;
use tallies::{Kept, none_counted};

// At the end tag of the component of the number `k`, whose children are all there: its tallies are compared, and it holds a component or not.
// `method`, here and below: whether the calendar round the component has METHOD.
fn end_counts(k: usize, kept: Kept, inner: bool, method: bool, e: usize) -> Result<(), Fault>
    ensures { pick (complete_by k kept inner method) fine (refuse spec.COUNT e) ≡ judged_as result }
{
    if complete_counts(k, kept.counts, kept.action, inner, method) {
        Ok(())
    } else {
        Err(Refusal::Count.at(e))
    }
}

// At the end tag of the component of the number `k`: whether `properties` and `components` have come, and `components` holds a component.
fn end_of(
    k: usize,
    kept: Kept,
    had: bool,
    came: bool,
    inner: bool,
    method: bool,
    e: usize,
) -> Result<(), Fault>
    ensures { EndAt k kept had came inner method e result }
{
    if had && (k != component::VCALENDAR || came) {
        end_counts(k, kept, inner, method, e)
    } else {
        Err(Refusal::Frame.at(e))
    }
}

// At the end tag of its `components`, in which a component has come or not.
pub fn end_components(k: usize, any: bool, e: usize) -> Result<(), Fault>
    ensures { EndsAt k any e result }
{
    if any || k == component::VCALENDAR || k == component::VTIMEZONE {
        Ok(())
    } else {
        Err(Refusal::Frame.at(e))
    }
}

// The component may have subcomponents.
#[tactic(auto, using(octets::specs::laws::Pick::branching_joined))]
fn has_subs(k: usize) -> bool
    ensures { result ≡ has_subs k }
{
    k == component::VCALENDAR
        || k == component::VEVENT
        || k == component::VTODO
        || k == component::VTIMEZONE
        || component::KNOWN <= k
}

// The name is `properties`, or else `components`.
fn is_part(properties: bool, s: &[u8], name: usize, name_end: usize) -> bool
    requires { name_end ≤ length s.now }
    ensures { result ≡ same (rest 0 (take name_end s.now) name) (part_name properties) }
{
    if properties {
        is_word::<Plain>(&s[..name_end], name, &element::PROPERTIES)
    } else {
        is_word::<Plain>(&s[..name_end], name, &element::COMPONENTS)
    }
}

// Which child of the component of the number `k` the element `n` is, before its `components`; `properties` has come or not.
fn which_child(k: usize, had: bool, s: &[u8], n: Node) -> Which
    requires { n.name_end ≤ length s.now }
    ensures { WhichAt k had (name_of s.now n) result }
{
    if is_part(true, s, n.name, n.name_end) {
        if had { Which::Other } else { Which::Properties }
    } else if is_part(false, s, n.name, n.name_end) && has_subs(k) {
        Which::Components
    } else {
        Which::Other
    }
}

// What stands at `at` in the component of the number `k`, before its `components`; `properties` has come or not.
fn child_at(k: usize, had: bool, s: &[u8], at: usize) -> Result<Met, Fault>
    ensures { MetAt k had s.now at result }
{
    let n = next_node(s, at);
    match n.kind {
        NodeKind::Absent => Ok(Met::End),
        NodeKind::Element => match which_child(k, had, s, n) {
            Which::Properties => Ok(Met::Properties(n.inside, n.next)),
            Which::Components => Ok(Met::Components(n.inside, n.end, n.next)),
            Which::Other => Err(unexpected(s, at, n.name, n.name_end)),
        },
        NodeKind::Literal => {
            if is_space(n.unit) {
                Ok(Met::Past(n.next))
            } else {
                Err(Refusal::Frame.at(at))
            }
        }
        NodeKind::Referred => Err(Refusal::Frame.at(at)),
    }
}

// The component of the number `k`, up to its `components`; or all of it, to its end tag at `e`, where it has none.
pub fn head(
    edition: Edition,
    k: usize,
    method: bool,
    s: &[u8],
    inside: usize,
    e: usize,
) -> Result<Option<Opened>, Fault>
    requires { length s.now ≤ 65535 }
    ensures { HeadAt edition k method s.now inside e result }
{
    let mut at = inside;
    let mut had = false;
    let mut kept = none_counted();
    'children: loop {
        match child_at(k, had, s, at)? {
            Met::End => {
                end_of(k, kept, had, false, false, method, e)?;
                return Ok(None);
            }
            Met::Past(next) => {
                at = next;
            }
            Met::Properties(from, next) => {
                kept = properties_verdict(edition, k, s, from)?;
                had = true;
                at = next;
            }
            Met::Components(from, end, next) => {
                return Ok(Some(Opened {
                    inside: from,
                    end,
                    next,
                    had,
                    kept,
                }));
            }
        }
    }
}

// The component's children behind its `components`, which holds a component or not, up to its end tag at `e`.
pub fn behind(
    k: usize,
    kept: Kept,
    had: bool,
    inner: bool,
    method: bool,
    s: &[u8],
    from: usize,
    e: usize,
) -> Result<(), Fault>
    ensures { BehindAt k kept had inner method s.now from e result }
{
    let mut at = from;
    'nodes: loop {
        let n = next_node(s, at);
        match n.kind {
            NodeKind::Absent => {
                return end_of(k, kept, had, true, inner, method, e);
            }
            NodeKind::Element => {
                return Err(unexpected(s, at, n.name, n.name_end));
            }
            NodeKind::Literal => {
                if is_space(n.unit) {
                    at = n.next;
                } else {
                    return Err(Refusal::Frame.at(at));
                }
            }
            NodeKind::Referred => {
                return Err(Refusal::Frame.at(at));
            }
        }
    }
}
