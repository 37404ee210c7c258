// The array of a component: its shape, up to its subcomponents, and behind them. See specs/Components.antt.
ghost use Rattle.std.specs.Prelude.{◌≡◌, ◌≤◌, ◌<◌, length};
ghost use Rattle.octets.specs.Class.{upper};
ghost use Rattle.names.specs.Table.{place_of};
ghost use Rattle.schema.specs.Components.{component_names};
ghost use Rattle.json_text.specs.Tree.{array, end_place};
ghost use Rattle.read_json.specs.TreeAt.{tokens_at, elements_at, string_at};
ghost use Rattle.read_json.specs.Heads.{value_of_head};
ghost use Rattle.read_jcal.specs.Components.{may_at, is_whole, NamedShape, ShapeAt, OpenedAt, BegunAt, BehindAt};

use crate::elements::{first_three, has_elements, place_of};
use crate::properties::properties_verdict;
use crate::{Begun, Outer, Shape, Three};
use edition::Edition;
use read_jcal_parameters::is_bad_name;
use read_json::kinds::{is_array, is_string};
use read_json::{Head, container_end};
use refusals::{Fault, Refusal};
use schema::{complete_counts, component, component_number, may_begin};
use source::JsonCharacters;

// The component of the number `n` may stand there.
fn may_begin_in(outer: Outer, n: usize) -> bool
    ensures { result ≡ may_at outer n }
{
    match outer {
        Outer::Stream => n == component::VCALENDAR,
        Outer::Component(k) => may_begin(k, n),
    }
}

// Behind the first of three elements two arrays stand, and nothing more.
fn is_whole(s: &[u8], p: Three) -> bool
    ensures { result ≡ is_whole s.now p }
{
    is_array(p.second.kind) && is_array(p.third.kind) && !has_elements(s, p.next)
}

// The number of the component whose name is the string at `place`.
fn number_at(s: &[u8], place: usize) -> usize
    requires { place < length s.now }
    ensures { result ≡ place_of (upper (string_at s.now place)) component_names }
{
    component_number::<JsonCharacters>(s, 2 * (place + 1))
}

// The component of these elements, of which the first is a name; `left`, here and below: the levels that are left.
fn named_shape(outer: Outer, left: usize, s: &[u8], p: Three) -> Result<Shape, Refusal>
    requires { p.first.place < length s.now }
    ensures { NamedShape outer left s.now p result }
{
    if !is_whole(s, p) {
        return Err(Refusal::Frame);
    }
    let component = number_at(s, p.first.place);
    if !may_begin_in(outer, component) {
        return Err(Refusal::Frame);
    }
    if left == 0 {
        return Err(Refusal::Frame);
    }
    Ok(Shape {
        component,
        properties: p.second.next,
        components: p.third.next,
    })
}

// The component whose elements stand from `inside` on.
fn shape_of(outer: Outer, left: usize, s: &[u8], inside: usize) -> Result<Shape, Refusal>
    ensures { ShapeAt outer left s.now inside result }
{
    let p = first_three(s, inside);
    if !is_string(p.first.kind) {
        return Err(Refusal::Frame);
    }
    if is_bad_name(s, p.first.place) {
        return Err(Refusal::Name);
    }
    named_shape(outer, left, s, p)
}

// The component of this shape, once its properties are read.
fn opened(edition: Edition, s: &[u8], shape: Shape) -> Result<Begun, Fault>
    ensures { OpenedAt edition s.now shape result }
{
    let kept = properties_verdict(edition, shape.component, s, shape.properties)?;
    Ok(Begun {
        component: shape.component,
        components: shape.components,
        kept,
    })
}

// The array at `place`, whose elements stand from `inside` on.
fn array_begun(
    edition: Edition,
    outer: Outer,
    left: usize,
    s: &[u8],
    place: usize,
    inside: usize,
) -> Result<Begun, Fault>
    ensures { BegunAt edition outer left s.now inside
        (array place (end_place (tokens_at s.now inside) 0) (elements_at s.now inside)) result }
{
    match shape_of(outer, left, s, inside) {
        Ok(shape) => opened(edition, s, shape),
        Err(refusal) => Err(refusal.at(place)),
    }
}

// The component that an element is, up to its subcomponents.
pub fn begun(edition: Edition, outer: Outer, left: usize, s: &[u8], h: Head) -> Result<Begun, Fault>
    ensures { BegunAt edition outer left s.now h.next (value_of_head s.now h) result }
{
    if !is_array(h.kind) {
        return Err(Refusal::Frame.at(place_of(h)));
    }
    array_begun(edition, outer, left, s, h.place, h.next)
}

// The place of the bracket that closes the array whose elements stand from `inside` on; 0, as in the definition, where there is none.
fn closing_place(s: &[u8], inside: usize) -> usize
    requires { inside ≤ length s.now }
    ensures { end_place (tokens_at s.now inside) 0 ≡ result }
{
    match container_end(s, inside) {
        Some(end) => end.place,
        None => 0,
    }
}

// At the closing bracket of a component whose elements stand from `inside` on: its tallies are compared. `method`: whether the calendar round it has METHOD.
pub fn behind(c: Begun, method: bool, s: &[u8], inside: usize) -> Result<(), Fault>
    requires { inside ≤ length s.now }
    ensures { BehindAt c method s.now inside result }
{
    let inner = has_elements(s, c.components);
    if complete_counts(c.component, c.kept.counts, c.kept.action, inner, method) {
        return Ok(());
    }
    Err(Refusal::Count.at(closing_place(s, inside)))
}
