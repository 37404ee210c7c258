// The array of a property. See specs/Properties.antt.
ghost use Rattle.std.specs.Prelude.{◌≡◌, ◌<◌, length};
ghost use Rattle.octets.specs.Class.{upper};
ghost use Rattle.names.specs.Table.{place_of};
ghost use Rattle.schema.specs.Properties.{property_names};
ghost use Rattle.schema.specs.Coded.{row_at};
ghost use Rattle.json_text.specs.Tree.{element_list};
ghost use Rattle.read_json.specs.TreeAt.{elements_at, string_at};
ghost use Rattle.read_jcal.specs.Arrays.{Inside, ThreeIn};
ghost use Rattle.read_jcal.specs.Properties.{StandsAt, ValuesAt, KnownAt, NamedAt, ShapedAt, PropertyAt};

use crate::bad_names::has_bad_names;
use crate::counting::action_of;
use crate::elements::{first_three, is_amount};
use crate::types::type_of;
use crate::{Stated, Three};
use edition::Edition;
use read_jcal_parameters::parameters_good;
use read_jcal_value::values_read;
use read_json::kinds::{is_object, is_string};
use refusals::Refusal;
use schema::{Context, Row, may_stand, property, row_of};
use source::JsonCharacters;

// A known property stands where the schema lists it.
fn stands(k: usize, row: Row) -> bool
    ensures { StandsAt k row result }
{
    if row.number < property::KNOWN {
        may_stand(k, row)
    } else {
        true
    }
}

// The row of the property whose name is the string at `place`.
fn row_at(s: &[u8], place: usize) -> Row
    requires { place < length s.now }
    ensures { result ≡ row_at (place_of (upper (string_at s.now place)) property_names) }
{
    row_of::<JsonCharacters>(s, 2 * (place + 1))
}

// The values of a property from `from` on, of which each is to be read.
fn values_fault(context: Context, s: &[u8], from: usize) -> Result<Stated, Refusal>
    ensures { ValuesAt context (element_list (elements_at s.now from)) result }
{
    if !values_read(context, s, from) {
        return Err(Refusal::Value);
    }
    let number = context.row.number;
    let action = action_of(number, s, from);
    Ok(Stated { number, action })
}

// A property of this row and this type: its parameters stand from `inside` on, its values from `from` on.
fn known_fault(
    edition: Edition,
    context: Context,
    s: &[u8],
    inside: usize,
    from: usize,
) -> Result<Stated, Refusal>
    ensures { KnownAt edition context s.now inside from result }
{
    if !is_amount(context.row.listed, s, from) {
        return Err(Refusal::Frame);
    }
    if !stands(context.component, context.row) {
        return Err(Refusal::Frame);
    }
    if !parameters_good(edition, context.row, context.value_type, s, inside) {
        return Err(Refusal::Parameter);
    }
    values_fault(context, s, from)
}

// The same, where its first element is a string and its second an object: its type is named, or not.
fn named_fault(edition: Edition, k: usize, s: &[u8], p: Three) -> Result<Stated, Refusal>
    requires { (p.first.place < length s.now) × Inside s.now p.third }
    ensures { NamedAt edition k s.now p result }
{
    let Some(value_type) = type_of(s, p.third) else {
        return Err(Refusal::Frame);
    };
    let context = Context {
        component: k,
        row: row_at(s, p.first.place),
        value_type,
    };
    known_fault(edition, context, s, p.second.next, p.next)
}

// The same of any three elements.
fn shape_fault(edition: Edition, k: usize, s: &[u8], p: Three) -> Result<Stated, Refusal>
    requires { ThreeIn s.now p }
    ensures { ShapedAt edition k s.now p result }
{
    if !is_string(p.first.kind) {
        return Err(Refusal::Frame);
    }
    if !is_object(p.second.kind) {
        return Err(Refusal::Frame);
    }
    named_fault(edition, k, s, p)
}

// The property in the component of the number `k` whose elements stand from `inside` on, or its lowest fault.
pub fn property_fault(
    edition: Edition,
    k: usize,
    s: &[u8],
    inside: usize,
) -> Result<Stated, Refusal>
    ensures { PropertyAt edition k (element_list (elements_at s.now inside)) result }
{
    let p = first_three(s, inside);
    if has_bad_names(s, p) {
        return Err(Refusal::Name);
    }
    shape_fault(edition, k, s, p)
}
