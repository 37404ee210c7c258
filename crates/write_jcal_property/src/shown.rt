// The type of a property and its values in text, written as jCal. See specs/Shown.antt.
ghost use Rattle.std.specs.Prelude.{◌≡◌, true, List, [], ℕ, ◌≤◌};
ghost use Rattle.octets.specs.Reading.{read_or};
ghost use Rattle.names.specs.Table.{place_of};
ghost use Rattle.sink.specs.Sink.{Put};
ghost use Rattle.source.specs.Source.{rest};
ghost use Rattle.schema.specs.Components.{component_names};
ghost use Rattle.schema.specs.Properties.{property_names};
ghost use Rattle.schema.specs.Numbers.{type_at, component_name};
ghost use Rattle.schema.specs.Coded.{row_at};
ghost use Rattle.text.specs.Values.{read_values};
ghost use Rattle.write_jcal_property.specs.Shown.{single_json, shown_json, typed_shown, typed_json};

use crate::geo::put_geo;
use crate::list::{put_list, put_status};
use read_text_property::read_values;
use schema::{Context, component, has_words, property, value_type};
use sink::put;
use source::Cuttable;
use write_jcal_value::{put_type_label, put_value_json};
use write_json::put_capitals_quoted;

// One value: a word of a closed set in capitals, or a value of the type.
fn put_single<E: Cuttable>(out: &mut [u8], o: usize, c: Context, s: &[u8], at: usize) -> usize
    ensures { Put out.old out.new o result
        (single_json c.component c.row c.value_type (rest E.encoding s.now at)) }
{
    let chosen = has_words(c.component, c.row.number);
    if chosen {
        return put_capitals_quoted::<E>(out, o, s, at);
    }
    put_value_json::<E>(out, o, c.value_type, s, at)
}

// The values, where they can be read.
fn put_shown<E: Cuttable>(out: &mut [u8], o: usize, c: Context, s: &[u8], at: usize) -> usize
    ensures { Put out.old out.new o result
        (shown_json c.component c.row c.value_type (rest E.encoding s.now at)) }
{
    let p = c.row.number;
    if p == property::GEO {
        return put_geo::<E>(out, o, s, at);
    }
    if p == property::REQUEST_STATUS {
        return put_status::<E>(out, o, s, at);
    }
    if c.row.listed {
        return put_list::<E>(out, o, c.value_type, s, at);
    }
    put_single::<E>(out, o, c, s, at)
}

// The type and the values.
fn put_typed<E: Cuttable>(out: &mut [u8], o: usize, c: Context, s: &[u8], at: usize) -> usize
    ensures { Put out.old out.new o result
        (typed_shown c.component c.row c.value_type (rest E.encoding s.now at)) }
{
    let a = put_type_label(out, o, c.value_type);
    let b = put(out, a, b',');
    put_shown::<E>(out, b, c, s, at)
}

// A component's number, KNOWN for all that are not recognised.
fn component_place(k: usize) -> usize
    ensures { result ≡ place_of (component_name k) component_names }
{
    if k < component::KNOWN {
        return k;
    }
    component::KNOWN
}

// A type's number, UNKNOWN for all that are none of the fourteen.
fn type_place(t: usize) -> usize
    ensures { (type_at result ≡ type_at t) × (result ≤ 14) }
{
    if t < value_type::KNOWN {
        return t;
    }
    value_type::UNKNOWN
}

// The type and the values that stand from the cursor on; where they are none of the property, `unknown` and no value.
pub fn put_values<E: Cuttable>(out: &mut [u8], o: usize, c: Context, s: &[u8], at: usize) -> usize
    ensures { (w : List ℕ) →
        c.row ≡ row_at (place_of w property_names) →
        Put out.old out.new o result (typed_json
        (read_or [] (read_values (component_name c.component) w (type_at c.value_type)
        (rest E.encoding s.now at)))) }
{
    let d = Context {
        component: component_place(c.component),
        row: c.row,
        value_type: type_place(c.value_type),
    };
    match read_values::<E>(d, s, at) {
        Some(_) => put_typed::<E>(out, o, d, s, at),
        None => put_type_label(out, o, value_type::UNKNOWN),
    }
}
