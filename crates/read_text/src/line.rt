// What a line is in an open component, by the component's number. A line is cut at its end: it is all that stands from `at` on.
ghost use Rattle.std.specs.Prelude.{None, ◌≡◌, Bool, true, not, List, ℕ, ◌≤◌, eqb, ltb, length};
ghost use Rattle.octets.specs.Pick.{pick, ◌or◌};
ghost use Rattle.octets.specs.Class.{upper};
ghost use Rattle.octets.specs.Words.{is_empty};
ghost use Rattle.source.specs.Source.{rest};
ghost use Rattle.names.specs.Table.{place_of};
ghost use Rattle.schema.specs.Components.{component_names};
ghost use Rattle.schema.specs.Coded.{row_at};
ghost use Rattle.schema.specs.Property.{ACTION};
ghost use Rattle.schema.specs.Properties.{property_names};
ghost use Rattle.schema.specs.Completing.{action_named};
ghost use Rattle.read_text_line.specs.Cursor.{params_at};
ghost use Rattle.read_text_line.specs.Decoded.{decoded_line};
ghost use Rattle.read_text_line.specs.Line.{line_from, named, Parts};
ghost use Rattle.text.specs.Nesting.{may_hold};
ghost use Rattle.text.specs.LineKind.{open_as, begin_kind, end_kind, property_kind, kind_by, line_kind};
ghost use Rattle.read_text.specs.Places.{PlaceOf, OffsetAt};
ghost use Rattle.read_text.specs.Kinds.{KindIs};

use crate::Kind;
use crate::named::{is_component_name, is_same_name};
use crate::places::parameter_cursor;
use edition::Edition;
use names::is_word_any_case;
use read_text_line::{LineCursors, line_at, names_carried, next_param};
use read_text_property::{LineFault, property_fault};
use refusals::{Fault, Refusal};
use schema::{
    Action, Row, action_named, component, component_number, may_begin, may_stand, property, row_of,
};
use source::{Cuttable, Encoding};

// The line, whose name ends at `e`, has no parameters.
pub fn no_params<E: Encoding>(s: &[u8], e: usize) -> bool
    ensures { result ≡ is_empty (params_at E.encoding s.now e) }
{
    let Ok(Some(p)) = next_param::<E>(s, e) else {
        return true;
    };
    false
}

// The kind of a BEGIN in the component of the number `k`; `left`, here and below, the levels that are left in it.
fn begin_line<E: Encoding>(
    edition: Edition,
    k: usize,
    left: usize,
    s: &[u8],
    l: LineCursors,
) -> Result<Kind, Fault>
    ensures { (c w : List ℕ) →
        k ≡ place_of c component_names →
        KindIs (PlaceOf E.encoding s.now l) (ltb 0 left) E.encoding s.now
        (begin_kind c (ltb 0 left) (decoded_line edition (line_from w E.encoding s.now l))) result }
{
    if !is_component_name::<E>(s, l.value) {
        return Err(Refusal::Name.at(l.name));
    }
    let n = component_number::<E>(s, l.value);
    if !may_begin(k, n) {
        return Err(Refusal::Frame.at(l.name));
    }
    if left == 0 {
        return Err(Refusal::Frame.at(l.name));
    }
    if no_params::<E>(s, l.parameters) {
        return Ok(Kind::Starts(n, l.value));
    }
    let c = parameter_cursor::<E>(s, l.parameters, 0);
    Err(Refusal::Parameter.at(c))
}

// The kind of an END in the component whose name stands in `name` from `v` on.
fn end_line<E: Encoding>(
    edition: Edition,
    name: &[u8],
    v: usize,
    s: &[u8],
    l: LineCursors,
) -> Result<Kind, Fault>
    ensures { (g : Bool) (w : List ℕ) →
        KindIs (PlaceOf E.encoding s.now l) g E.encoding s.now
        (end_kind (upper (rest E.encoding name.now v))
        (decoded_line edition (line_from w E.encoding s.now l))) result }
{
    if !is_same_name::<E>(s, l.value, name, v) {
        return Err(Refusal::Frame.at(l.name));
    }
    if no_params::<E>(s, l.parameters) {
        return Ok(Kind::Stops);
    }
    let c = parameter_cursor::<E>(s, l.parameters, 0);
    Err(Refusal::Parameter.at(c))
}

// Properties stand before subcomponents, except in VTIMEZONE.
fn may_follow(k: usize, inner: bool) -> bool
    ensures { result ≡ (not inner or eqb k 5) }
{
    if inner {
        return k == component::VTIMEZONE;
    }
    true
}

// The property of the row may stand in the component.
fn may_hold(k: usize, inner: bool, row: Row) -> bool
    ensures { (c w : List ℕ) →
        k ≡ place_of c component_names →
        row ≡ row_at (place_of w property_names) →
        result ≡ may_hold w (open_as c inner) }
{
    let p = row.number;
    if p < property::KNOWN {
        let may = may_stand(k, row);
        if may {
            return may_follow(k, inner);
        }
        return false;
    }
    may_follow(k, inner)
}

// The action that the word of ACTION names; none where the property is another.
fn action_of<E: Encoding>(p: usize, s: &[u8], v: usize) -> Option<Action>
    ensures { result ≡ pick (eqb p ACTION) (action_named (upper (rest E.encoding s.now v))) None }
{
    if p == property::ACTION {
        return action_named::<E>(false, s, v);
    }
    None
}

// The kind of a line that is a property of the row.
fn row_line<E: Cuttable>(
    edition: Edition,
    k: usize,
    inner: bool,
    row: Row,
    s: &[u8],
    l: LineCursors,
) -> Result<Kind, Fault>
    ensures { (g : Bool) (c w : List ℕ) →
        k ≡ place_of c component_names →
        row ≡ row_at (place_of (upper w) property_names) →
        KindIs (PlaceOf E.encoding s.now l) g E.encoding s.now
        (property_kind c inner (decoded_line edition (line_from w E.encoding s.now l))) result }
{
    if !may_hold(k, inner, row) {
        return Err(Refusal::Frame.at(l.name));
    }
    match property_fault::<E>(edition, k, row, s, l) {
        Some(LineFault::Parameter(i)) => {
            let c = parameter_cursor::<E>(s, l.parameters, i);
            Err(Refusal::Parameter.at(c))
        }
        Some(LineFault::Encoding) => Err(Refusal::Parameter.at(l.value)),
        Some(LineFault::Value) => Err(Refusal::Value.at(l.value)),
        None => {
            let a = action_of::<E>(row.number, s, l.value);
            Ok(Kind::Holds(row.number, a))
        }
    }
}

// The kind of a line that is a property.
fn property_line<E: Cuttable>(
    edition: Edition,
    k: usize,
    inner: bool,
    s: &[u8],
    l: LineCursors,
) -> Result<Kind, Fault>
    requires { (l.name ≤ length s.now) × Parts E.encoding s.now l }
    ensures { (g : Bool) (c : List ℕ) →
        k ≡ place_of c component_names →
        KindIs (PlaceOf E.encoding s.now l) g E.encoding s.now
        (property_kind c inner (decoded_line edition (named E.encoding s.now l))) result }
{
    let e = l.parameters;
    let row = row_of::<E>(&s[..e], l.name);
    row_line::<E>(edition, k, inner, row, s, l)
}

// The kind of a content line.
fn content_line<E: Cuttable>(
    edition: Edition,
    k: usize,
    name: &[u8],
    v: usize,
    left: usize,
    inner: bool,
    s: &[u8],
    l: LineCursors,
) -> Result<Kind, Fault>
    requires { (k ≡ place_of (upper (rest E.encoding name.now v)) component_names) × (l.name ≤ length s.now) × Parts E.encoding s.now l }
    ensures { KindIs (PlaceOf E.encoding s.now l) (ltb 0 left) E.encoding s.now
        (kind_by (upper (rest E.encoding name.now v)) (ltb 0 left) inner
        (decoded_line edition (named E.encoding s.now l))) result }
{
    let at = l.name;
    let e = l.parameters;
    if !names_carried::<E>(s, at, e) {
        return Err(Refusal::Name.at(l.name));
    }
    let begin = is_word_any_case::<E>(&s[..e], at, b"BEGIN");
    if begin {
        return begin_line::<E>(edition, k, left, s, l);
    }
    let end = is_word_any_case::<E>(&s[..e], at, b"END");
    if end {
        return end_line::<E>(edition, name, v, s, l);
    }
    property_line::<E>(edition, k, inner, s, l)
}

// The kind of a line in the component of the number `k`, whose name stands in `name` from `v` on, and in which a subcomponent has come or not.
pub fn line_kind<E: Cuttable>(
    edition: Edition,
    k: usize,
    name: &[u8],
    v: usize,
    left: usize,
    inner: bool,
    s: &[u8],
    at: usize,
) -> Result<Kind, Fault>
    requires { (k ≡ place_of (upper (rest E.encoding name.now v)) component_names) × (at ≤ length s.now) }
    ensures { KindIs (OffsetAt E.encoding s.now at) (ltb 0 left) E.encoding s.now
        (line_kind edition (upper (rest E.encoding name.now v)) (ltb 0 left) inner
        (rest E.encoding s.now at)) result }
{
    let Some(l) = line_at::<E>(s, at) else {
        return Err(Refusal::Line.at(at));
    };
    content_line::<E>(edition, k, name, v, left, inner, s, l)
}
