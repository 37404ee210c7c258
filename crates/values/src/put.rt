// A value of iCalendar text, written as the character data of its XML element. See specs/PutValue.antt.
ghost use Rattle.octets.specs.Reading.{or_nothing};
ghost use Rattle.calendar.specs.Calendar.{ical, BOOLEAN};
ghost use Rattle.sink.specs.Sink.{Put};
ghost use Rattle.source.specs.Source.{rest};
ghost use Rattle.schema.specs.Numbers.{type_at};
ghost use Rattle.xml.specs.Escape.{escaped};
ghost use Rattle.values.specs.ReadValue.{read_value};
ghost use Rattle.values.specs.WriteValue.{value_characters};
ghost use Rattle.values.specs.ValueAt.{from_time, from_integer, from_date, from_binary};
ghost use Rattle.values.specs.PutValue.{xml_of};

use numbers::boolean::{put_boolean, read_boolean};
use numbers::float::put_float;
use numbers::integer::put_integer;
use schema::value_type;
use source::Encoding;
use texts::{put_binary, put_text_xml, put_unknown_xml, put_uri_xml};
use times::date::put_date;
use times::date_time::put_date_time;
use times::duration::put_duration;
use times::offset::put_utc_offset;
use times::time::put_time;

fn put_boolean_xml<E: Encoding>(out: &mut [u8], o: usize, s: &[u8], at: usize) -> usize
    ensures { Put out.old out.new o result
        (xml_of (read_value ical BOOLEAN (rest E.encoding s.now at))) }
{
    match read_boolean::<E>(false, s, at) {
        Some(b) => put_boolean(out, o, true, b),
        None => o,
    }
}

// A value of TIME, or of a type after it.
fn put_from_time<E: Encoding>(out: &mut [u8], o: usize, t: usize, s: &[u8], at: usize) -> usize
    ensures { Put out.old out.new o result
        (xml_of (read_value ical (from_time t) (rest E.encoding s.now at))) }
{
    if t == value_type::TIME {
        return put_time::<E>(out, o, false, true, s, at);
    }
    if t == value_type::URI {
        return put_uri_xml::<E>(out, o, s, at);
    }
    if t == value_type::UTC_OFFSET {
        return put_utc_offset::<E>(out, o, false, true, s, at);
    }
    put_unknown_xml::<E>(out, o, s, at)
}

// A value of INTEGER, or of a type after it. PERIOD and RECUR are made of elements, and have no character data.
fn put_from_integer<E: Encoding>(out: &mut [u8], o: usize, t: usize, s: &[u8], at: usize) -> usize
    ensures { Put out.old out.new o result
        (xml_of (read_value ical (from_integer t) (rest E.encoding s.now at))) }
{
    if t == value_type::INTEGER {
        return put_integer::<E>(out, o, s, at);
    }
    if t == value_type::PERIOD {
        return o;
    }
    if t == value_type::RECUR {
        return o;
    }
    if t == value_type::TEXT {
        return put_text_xml::<E>(out, o, s, at);
    }
    put_from_time::<E>(out, o, t, s, at)
}

// A value of DATE, or of a type after it.
fn put_from_date<E: Encoding>(out: &mut [u8], o: usize, t: usize, s: &[u8], at: usize) -> usize
    ensures { Put out.old out.new o result
        (xml_of (read_value ical (from_date t) (rest E.encoding s.now at))) }
{
    if t == value_type::DATE {
        return put_date::<E>(out, o, false, true, s, at);
    }
    if t == value_type::DATE_TIME {
        return put_date_time::<E>(out, o, false, true, s, at);
    }
    if t == value_type::DURATION {
        return put_duration::<E>(out, o, false, true, s, at);
    }
    if t == value_type::FLOAT {
        return put_float::<E>(out, o, s, at);
    }
    put_from_integer::<E>(out, o, t, s, at)
}

// A value of BINARY, or of a type after it.
fn put_from_binary<E: Encoding>(out: &mut [u8], o: usize, t: usize, s: &[u8], at: usize) -> usize
    ensures { Put out.old out.new o result
        (xml_of (read_value ical (from_binary t) (rest E.encoding s.now at))) }
{
    if t == value_type::BINARY {
        return put_binary::<E>(out, o, false, s, at);
    }
    if t == value_type::BOOLEAN {
        return put_boolean_xml::<E>(out, o, s, at);
    }
    if t == value_type::CAL_ADDRESS {
        return put_uri_xml::<E>(out, o, s, at);
    }
    put_from_date::<E>(out, o, t, s, at)
}

// The value of the type at the place `t`, from the cursor to the end; nothing where it is none.
pub fn put_value_xml<E: Encoding>(out: &mut [u8], o: usize, t: usize, s: &[u8], at: usize) -> usize
    ensures { Put out.old out.new o result
        (or_nothing (λ v. escaped (value_characters v)) (read_value ical (type_at t) (rest E.encoding s.now at))) }
{
    put_from_binary::<E>(out, o, t, s, at)
}
