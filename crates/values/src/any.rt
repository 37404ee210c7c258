// A value of a type by the type's number. See specs/ValueAt.antt.
ghost use Rattle.std.specs.Prelude.{◌≡◌};
ghost use Rattle.source.specs.Source.{rest};
ghost use Rattle.schema.specs.Numbers.{type_at};
ghost use Rattle.values.specs.ValueAt.{from_time, from_integer, from_date, from_binary, value_read, is_read_at};

use crate::number::{is_boolean, is_float, is_integer};
use crate::text::{is_binary, is_cal_address, is_recur, is_text, is_unknown, is_uri};
use crate::time::{is_date, is_date_time, is_duration, is_period, is_time, is_utc_offset};
use schema::value_type;
use source::Encoding;

// A value of TIME, or of a type after it.
fn is_from_time<E: Encoding>(xcal: bool, t: usize, s: &[u8], at: usize) -> bool
    ensures { result ≡ is_read_at xcal E.encoding (from_time t) (rest E.encoding s.now at) }
{
    if t == value_type::TIME {
        return is_time::<E>(xcal, s, at);
    }
    if t == value_type::URI {
        return is_uri::<E>(xcal, s, at);
    }
    if t == value_type::UTC_OFFSET {
        return is_utc_offset::<E>(xcal, s, at);
    }
    is_unknown::<E>(xcal, s, at)
}

// A value of INTEGER, or of a type after it.
fn is_from_integer<E: Encoding>(xcal: bool, t: usize, s: &[u8], at: usize) -> bool
    ensures { result ≡ is_read_at xcal E.encoding (from_integer t) (rest E.encoding s.now at) }
{
    if t == value_type::INTEGER {
        return is_integer::<E>(xcal, s, at);
    }
    if t == value_type::PERIOD {
        return is_period::<E>(xcal, s, at);
    }
    if t == value_type::RECUR {
        return is_recur::<E>(xcal, s, at);
    }
    if t == value_type::TEXT {
        return is_text::<E>(xcal, s, at);
    }
    is_from_time::<E>(xcal, t, s, at)
}

// A value of DATE, or of a type after it.
fn is_from_date<E: Encoding>(xcal: bool, t: usize, s: &[u8], at: usize) -> bool
    ensures { result ≡ is_read_at xcal E.encoding (from_date t) (rest E.encoding s.now at) }
{
    if t == value_type::DATE {
        return is_date::<E>(xcal, s, at);
    }
    if t == value_type::DATE_TIME {
        return is_date_time::<E>(xcal, s, at);
    }
    if t == value_type::DURATION {
        return is_duration::<E>(xcal, s, at);
    }
    if t == value_type::FLOAT {
        return is_float::<E>(xcal, s, at);
    }
    is_from_integer::<E>(xcal, t, s, at)
}

// A value of BINARY, or of a type after it.
fn is_from_binary<E: Encoding>(xcal: bool, t: usize, s: &[u8], at: usize) -> bool
    ensures { result ≡ is_read_at xcal E.encoding (from_binary t) (rest E.encoding s.now at) }
{
    if t == value_type::BINARY {
        return is_binary::<E>(xcal, s, at);
    }
    if t == value_type::BOOLEAN {
        return is_boolean::<E>(xcal, s, at);
    }
    if t == value_type::CAL_ADDRESS {
        return is_cal_address::<E>(xcal, s, at);
    }
    is_from_date::<E>(xcal, t, s, at)
}

// The number `t` of the type, where there is a value of it from the cursor to the end; RECUR of text only in an encoding that can be cut.
pub fn read_value<E: Encoding>(xcal: bool, t: usize, s: &[u8], at: usize) -> Option<usize>
    ensures { result ≡ value_read t (is_read_at xcal E.encoding (type_at t) (rest E.encoding s.now at)) }
{
    if is_from_binary::<E>(xcal, t, s, at) {
        return Some(t);
    }
    None
}
