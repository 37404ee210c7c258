// A value that is character data in XML, written as iCalendar text. See specs/Leaves.antt.
ghost use Rattle.calendar.specs.Calendar.{xcal, BOOLEAN};
ghost use Rattle.sink.specs.Sink.{Put};
ghost use Rattle.source.specs.Source.{rest};
ghost use Rattle.schema.specs.Numbers.{type_at};
ghost use Rattle.values.specs.ReadValue.{read_value};
ghost use Rattle.values.specs.ValueAt.{from_time, from_integer, from_date, from_binary};
ghost use Rattle.write_text_pieces.specs.Leaves.{value_text};

use numbers::boolean::{put_boolean, read_boolean};
use numbers::float::put_float;
use numbers::integer::put_integer;
use schema::value_type;
use source::Encoding;
use texts::{put_binary, put_text_escaped, put_unknown, put_uri};
use times::date::put_date;
use times::date_time::put_date_time;
use times::duration::put_duration;
use times::offset::put_utc_offset;
use times::time::put_time;

fn put_boolean_text<E: Encoding>(out: &mut [u8], o: usize, s: &[u8], at: usize) -> usize
    ensures { Put out.old out.new o result
        (value_text (read_value xcal BOOLEAN (rest E.encoding s.now at))) }
{
    match read_boolean::<E>(true, s, at) {
        Some(b) => put_boolean(out, o, false, b),
        None => o,
    }
}

// A value of TIME, or of a type after it.
fn put_from_time<E: Encoding>(out: &mut [u8], o: usize, t: usize, s: &[u8], at: usize) -> usize
    ensures { Put out.old out.new o result
        (value_text (read_value xcal (from_time t) (rest E.encoding s.now at))) }
{
    if t == value_type::TIME {
        return put_time::<E>(out, o, true, false, s, at);
    }
    if t == value_type::URI {
        return put_uri::<E>(out, o, s, at);
    }
    if t == value_type::UTC_OFFSET {
        return put_utc_offset::<E>(out, o, true, false, s, at);
    }
    put_unknown::<E>(out, o, s, at)
}

// A value of INTEGER, or of a type after it. PERIOD and RECUR are made of elements, and have no character data.
fn put_from_integer<E: Encoding>(out: &mut [u8], o: usize, t: usize, s: &[u8], at: usize) -> usize
    ensures { Put out.old out.new o result
        (value_text (read_value xcal (from_integer t) (rest E.encoding s.now at))) }
{
    if t == value_type::INTEGER {
        return put_integer::<E>(out, o, s, at);
    }
    if t == value_type::PERIOD {
        return o;
    }
    if t == value_type::RECUR {
        return o;
    }
    if t == value_type::TEXT {
        return put_text_escaped::<E>(out, o, s, at);
    }
    put_from_time::<E>(out, o, t, s, at)
}

// A value of DATE, or of a type after it.
fn put_from_date<E: Encoding>(out: &mut [u8], o: usize, t: usize, s: &[u8], at: usize) -> usize
    ensures { Put out.old out.new o result
        (value_text (read_value xcal (from_date t) (rest E.encoding s.now at))) }
{
    if t == value_type::DATE {
        return put_date::<E>(out, o, true, false, s, at);
    }
    if t == value_type::DATE_TIME {
        return put_date_time::<E>(out, o, true, false, s, at);
    }
    if t == value_type::DURATION {
        return put_duration::<E>(out, o, true, false, s, at);
    }
    if t == value_type::FLOAT {
        return put_float::<E>(out, o, s, at);
    }
    put_from_integer::<E>(out, o, t, s, at)
}

// A value of BINARY, or of a type after it.
fn put_from_binary<E: Encoding>(out: &mut [u8], o: usize, t: usize, s: &[u8], at: usize) -> usize
    ensures { Put out.old out.new o result
        (value_text (read_value xcal (from_binary t) (rest E.encoding s.now at))) }
{
    if t == value_type::BINARY {
        return put_binary::<E>(out, o, true, s, at);
    }
    if t == value_type::BOOLEAN {
        return put_boolean_text::<E>(out, o, s, at);
    }
    if t == value_type::CAL_ADDRESS {
        return put_uri::<E>(out, o, s, at);
    }
    put_from_date::<E>(out, o, t, s, at)
}

// The value of the type of the number `t`, from the cursor to the end; nothing where it is none.
pub fn put_leaf<E: Encoding>(out: &mut [u8], o: usize, t: usize, s: &[u8], at: usize) -> usize
    ensures { Put out.old out.new o result
        (value_text (read_value xcal (type_at t) (rest E.encoding s.now at))) }
{
    put_from_binary::<E>(out, o, t, s, at)
}
