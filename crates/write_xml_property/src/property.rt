// A content line written as the element of its property. See specs/Property.antt.
ghost use Rattle.std.specs.Prelude.{◌≡◌, true, ◌≤◌, length};
ghost use Rattle.sink.specs.Sink.{Put};
ghost use Rattle.write_xml_property.specs.Property.{stated_xml, content_xml, parts_xml};

use crate::shown::put_values;
use edition::Edition;
use read_text_line::LineCursors;
use read_text_parameters::stated_type;
use schema::{Context, row_of, value_type};
use source::Cuttable;
use tags::{put_small_end, put_small_start};
use write_xml_parameters::put_parameters;

// The values of a line, of the type that it states.
fn put_stated<E: Cuttable>(
    out: &mut [u8],
    o: usize,
    edition: Edition,
    k: usize,
    s: &[u8],
    l: LineCursors,
) -> usize
    requires { l.parameters ≤ length s.now }
    ensures { Put out.old out.new o result (stated_xml edition k E.encoding s.now l) }
{
    let e = l.parameters;
    let row = row_of::<E>(&s[..e], l.name);
    let stated = stated_type::<E>(edition, row.default, s, e).unwrap_or(value_type::TEXT);
    let context = Context {
        component: k,
        row,
        value_type: stated,
    };
    put_values::<E>(out, o, context, s, l.value)
}

// The parameters and the values.
fn put_content<E: Cuttable>(
    out: &mut [u8],
    o: usize,
    edition: Edition,
    k: usize,
    s: &[u8],
    l: LineCursors,
) -> usize
    requires { l.parameters ≤ length s.now }
    ensures { Put out.old out.new o result (content_xml edition k E.encoding s.now l) }
{
    let a = put_parameters::<E>(out, o, edition, s, l.parameters);
    put_stated::<E>(out, a, edition, k, s, l)
}

// The property of the component `k` that a content line states in an edition.
pub fn put_property<E: Cuttable>(
    out: &mut [u8],
    o: usize,
    edition: Edition,
    k: usize,
    s: &[u8],
    l: LineCursors,
) -> usize
    requires { l.parameters ≤ length s.now }
    ensures { Put out.old out.new o result (parts_xml edition k E.encoding s.now l) }
{
    let at = l.name;
    let e = l.parameters;
    let a = put_small_start::<E>(out, o, &s[..e], at);
    let b = put_content::<E>(out, a, edition, k, s, l);
    put_small_end::<E>(out, b, &s[..e], at)
}
