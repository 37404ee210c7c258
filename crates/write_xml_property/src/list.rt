// A list of values in text, written as an element for each. See specs/Pieces.antt.
ghost use Rattle.std.specs.Prelude.{◌≡◌, true, ◌≤◌, length, take};
ghost use Rattle.octets.specs.Words.{cut_at};
ghost use Rattle.octets.specs.Reading.{or_nothing};
ghost use Rattle.calendar.specs.Calendar.{ical};
ghost use Rattle.sink.specs.Sink.{Put};
ghost use Rattle.source.specs.Source.{rest, Within};
ghost use Rattle.schema.specs.Numbers.{type_at};
ghost use Rattle.values.specs.ReadValue.{read_value};
ghost use Rattle.xcal.specs.WriteXml.{value_xml};
ghost use Rattle.write_xml_property.specs.Pieces.{pieces_xml, listed_xml};

use octets::unit::{COMMA, END};
use recur::rule::byte_end;
use schema::value_type;
use source::{Cuttable, unit};
use texts::put_texts_xml;
use write_xml_value::put_value_element;

// The value of the type `t` from the cursor `at` to the cursor `e`.
fn put_piece<E: Cuttable>(
    out: &mut [u8],
    o: usize,
    t: usize,
    s: &[u8],
    at: usize,
    e: usize,
) -> usize
    requires { e ≤ length s.now }
    ensures { Put out.old out.new o result
        (or_nothing value_xml (read_value ical (type_at t) (rest E.encoding (take e s.now) at))) }
{
    put_value_element::<E>(out, o, t, &s[..e], at)
}

// Each of the values between commas.
fn put_pieces<E: Cuttable>(out: &mut [u8], at: usize, t: usize, s: &[u8], from: usize) -> usize
    requires { Within E.encoding s.now from }
    ensures { Put out.old out.new at result
        (pieces_xml (type_at t) (cut_at 44 (rest E.encoding s.now from))) }
{
    let mut o = at;
    let mut c = from;
    loop {
        let e = byte_end::<E>(COMMA, s, c);
        o = put_piece::<E>(out, o, t, s, c, e);
        let n = unit::<E>(s, e);
        let u = n.u;
        if u == END {
            return o;
        }
        c = n.next;
    }
}

// A list of values of the type `t`; where it is one of TEXT and against the grammar, nothing.
pub fn put_list<E: Cuttable>(out: &mut [u8], o: usize, t: usize, s: &[u8], at: usize) -> usize
    ensures { Put out.old out.new o result (listed_xml t (rest E.encoding s.now at)) }
{
    if t == value_type::TEXT {
        return put_texts_xml::<E>(out, o, s, at);
    }
    if s.len() < at {
        return put_pieces::<E>(out, o, t, s, s.len());
    }
    put_pieces::<E>(out, o, t, s, at)
}
