// A whole component, and the children of `components`. See specs/Subcomponents.antt.
ghost use Rattle.std.specs.Prelude.{◌≡◌, ◌≤◌, length, take, Err};
ghost use Rattle.source.specs.Source.{rest};
ghost use Rattle.xcal.specs.ComponentNodes.{bad_component, no_component};
ghost use Rattle.refusals.specs.Fault.{judged_as};
ghost use Rattle.read_xml.specs.Subcomponents.{NumberedAt, SubAt, ComponentAt, method_kept, CompsAt};

use crate::Sub;
use crate::component::{behind, end_components, head};
use edition::Edition;
use octets::is_space;
use read_text_line::is_carried_name;
use read_xml_nodes::{NodeKind, has_capital, next_node};
use refusals::{Fault, Refusal};
use schema::{component_number, may_begin, method_for};
use source::Plain;
use tallies::Kept;

// No component's element has the name: it has capitals, or can't be carried.
fn bad_component(s: &[u8], name: usize, name_end: usize) -> bool
    requires { name_end ≤ length s.now }
    ensures { result ≡ bad_component (rest 0 (take name_end s.now) name) }
{
    has_capital(s, name, name_end) || !is_carried_name::<Plain>(&s[..name_end], name)
}

// The refusal of an element at `place` that is no component there.
pub fn no_component(s: &[u8], place: usize, name: usize, name_end: usize) -> Fault
    requires { name_end ≤ length s.now }
    ensures { no_component place (rest 0 (take name_end s.now) name) ≡ judged_as (Err result) }
{
    if bad_component(s, name, name_end) {
        Refusal::Name.at(place)
    } else {
        Refusal::Frame.at(place)
    }
}

// The number of the component of a name, where it may stand in the component of the number `k`. `left`, here and below: the levels that are left in that component.
fn sub_number(k: usize, left: usize, s: &[u8], name: usize, name_end: usize) -> Option<usize>
    requires { name_end ≤ length s.now }
    ensures { NumberedAt k left (rest 0 (take name_end s.now) name) result }
{
    if bad_component(s, name, name_end) {
        return None;
    }
    let n = component_number::<Plain>(&s[..name_end], name);
    if may_begin(k, n) && 0 < left {
        Some(n)
    } else {
        None
    }
}

// One node of the `components` of a component of the number `k`, at `at`.
fn sub_at(k: usize, left: usize, s: &[u8], at: usize, any: bool, e: usize) -> Result<Sub, Fault>
    ensures { SubAt k left s.now e at any result }
{
    let n = next_node(s, at);
    match n.kind {
        NodeKind::Absent => {
            end_components(k, any, e)?;
            Ok(Sub::Done)
        }
        NodeKind::Element => match sub_number(k, left, s, n.name, n.name_end) {
            Some(m) => Ok(Sub::Begins(m, n.inside, n.end, n.next)),
            None => Err(no_component(s, at, n.name, n.name_end)),
        },
        NodeKind::Literal => {
            if is_space(n.unit) {
                Ok(Sub::Past(n.next))
            } else {
                Err(Refusal::Frame.at(at))
            }
        }
        NodeKind::Referred => Err(Refusal::Frame.at(at)),
    }
}

// Whether METHOD has come of the calendar that the subcomponents of the component of the number `k` stand in; `properties` has come or not.
fn method_inside(k: usize, kept: Kept, had: bool, method: bool) -> bool
    ensures { result ≡ method_kept k kept had method }
{
    if had {
        method_for(k, kept.counts, method)
    } else {
        method
    }
}

// The component of the number `k` whose content begins at `inside`, and whose end tag is at `e`; `method`, whether the calendar round it has METHOD.
#[cycle(component_verdict_components_verdict)]
pub fn component_verdict(
    edition: Edition,
    s: &[u8],
    inside: usize,
    k: usize,
    left: usize,
    method: bool,
    e: usize,
) -> Result<(), Fault>
    requires { length s.now ≤ 65535 }
    ensures { ComponentAt edition k left method s.now inside e result }
{
    let Some(o) = head(edition, k, method, s, inside, e)? else {
        return Ok(());
    };
    let m = method_inside(k, o.kept, o.had, method);
    let inner = components_verdict(edition, s, o.inside, k, left, m, o.end)?;
    behind(k, o.kept, o.had, inner, method, s, o.next, e)
}

// The children of the `components` of a component of the number `k`, whose content begins at `inside`, and whose end tag is at `e`: whether a component is among them.
// `method`, whether their calendar has METHOD.
#[cycle(component_verdict_components_verdict)]
fn components_verdict(
    edition: Edition,
    s: &[u8],
    inside: usize,
    k: usize,
    left: usize,
    method: bool,
    e: usize,
) -> Result<bool, Fault>
    requires { length s.now ≤ 65535 }
    ensures { CompsAt edition k left method s.now inside e result }
{
    let mut at = inside;
    let mut any = false;
    'nodes: loop {
        match sub_at(k, left, s, at, any, e)? {
            Sub::Done => {
                return Ok(any);
            }
            Sub::Past(next) => {
                at = next;
            }
            Sub::Begins(n, from, end, next) => {
                component_verdict(edition, s, from, n, left - 1, method, end)?;
                any = true;
                at = next;
            }
        }
    }
}
