// A content line written as the array of its property. See specs/Property.antt.
ghost use Rattle.std.specs.Prelude.{◌≡◌, true, ◌≤◌, length};
ghost use Rattle.sink.specs.Sink.{Put};
ghost use Rattle.write_jcal_property.specs.Property.{name_json, stated_json, content_json, parts_json};

use crate::shown::put_values;
use edition::Edition;
use read_text_line::LineCursors;
use read_text_parameters::stated_type;
use schema::{Context, row_of, value_type};
use sink::put;
use source::{Cuttable, Encoding};
use write_jcal_parameters::put_parameters;
use write_json::put_small_quoted;

// The type that a line states, and its values.
fn put_stated<E: Cuttable>(
    out: &mut [u8],
    o: usize,
    edition: Edition,
    k: usize,
    s: &[u8],
    l: LineCursors,
) -> usize
    requires { l.parameters ≤ length s.now }
    ensures { Put out.old out.new o result (stated_json edition k E.encoding s.now l) }
{
    let e = l.parameters;
    let row = row_of::<E>(&s[..e], l.name);
    let stated = stated_type::<E>(edition, row.default, s, e).unwrap_or(value_type::TEXT);
    let context = Context {
        component: k,
        row,
        value_type: stated,
    };
    put_values::<E>(out, o, context, s, l.value)
}

// The parameters, the type and the values.
fn put_content<E: Cuttable>(
    out: &mut [u8],
    o: usize,
    edition: Edition,
    k: usize,
    s: &[u8],
    l: LineCursors,
) -> usize
    requires { l.parameters ≤ length s.now }
    ensures { Put out.old out.new o result (content_json edition k E.encoding s.now l) }
{
    let a = put_parameters::<E>(out, o, edition, s, l.parameters);
    let b = put(out, a, b',');
    put_stated::<E>(out, b, edition, k, s, l)
}

// The bracket that opens the array, the name and a comma.
fn put_name<E: Encoding>(out: &mut [u8], o: usize, s: &[u8], l: LineCursors) -> usize
    requires { l.parameters ≤ length s.now }
    ensures { Put out.old out.new o result (name_json E.encoding s.now l) }
{
    let e = l.parameters;
    let a = put(out, o, b'[');
    let b = put_small_quoted::<E>(out, a, &s[..e], l.name);
    put(out, b, b',')
}

// The property of the component `k` that a content line states in an edition.
pub fn put_property<E: Cuttable>(
    out: &mut [u8],
    o: usize,
    edition: Edition,
    k: usize,
    s: &[u8],
    l: LineCursors,
) -> usize
    requires { l.parameters ≤ length s.now }
    ensures { Put out.old out.new o result (parts_json edition k E.encoding s.now l) }
{
    let a = put_name::<E>(out, o, s, l);
    let b = put_content::<E>(out, a, edition, k, s, l);
    put(out, b, b']')
}
