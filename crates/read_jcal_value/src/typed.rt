// A value of a type, by the type's number. See specs/Typed.antt.
ghost use Rattle.std.specs.Prelude.{◌≡◌};
ghost use Rattle.octets.specs.Reading.{and_then, is_read};
ghost use Rattle.calendar.specs.Calendar.{ical, xcal, BINARY, BOOLEAN, FLOAT};
ghost use Rattle.schema.specs.Numbers.{type_at};
ghost use Rattle.values.specs.ReadValue.{read_value};
ghost use Rattle.jcal.specs.Values.{read_period, read_recur};
ghost use Rattle.read_jcal_value.specs.Elements.{Stands, string_of, number_of, literal_of, array_of, object_of};
ghost use Rattle.read_jcal_value.specs.Typed.{read_integer, typed_in};

use crate::leaves::{is_binary, is_integer, is_string_of, is_word_of};
use crate::period::is_period;
use crate::rule::is_rule;
use read_json::Head;
use read_json::kinds::{is_array, is_literal, is_number, is_object, is_string};
use schema::value_type;

fn binary_read(s: &[u8], h: Head) -> bool
    requires { Stands s.now h }
    ensures { result ≡ is_read (and_then (string_of s.now h) (read_value ical BINARY)) }
{
    is_string(h.kind) && is_binary(s, h.place)
}

fn boolean_read(s: &[u8], h: Head) -> bool
    requires { Stands s.now h }
    ensures { result ≡ is_read (and_then (literal_of s.now h) (read_value xcal BOOLEAN)) }
{
    is_literal(h.kind) && is_word_of(value_type::BOOLEAN, s, h.place, h.next)
}

fn float_read(s: &[u8], h: Head) -> bool
    requires { Stands s.now h }
    ensures { result ≡ is_read (and_then (number_of s.now h) (read_value xcal FLOAT)) }
{
    is_number(h.kind) && is_word_of(value_type::FLOAT, s, h.place, h.next)
}

fn integer_read(s: &[u8], h: Head) -> bool
    requires { Stands s.now h }
    ensures { result ≡ is_read (and_then (number_of s.now h) read_integer) }
{
    is_number(h.kind) && is_integer(s, h.place, h.next)
}

fn period_read(s: &[u8], h: Head) -> bool
    ensures { result ≡ is_read (and_then (array_of s.now h) read_period) }
{
    is_array(h.kind) && is_period(s, h.next)
}

fn rule_read(s: &[u8], h: Head) -> bool
    ensures { result ≡ is_read (and_then (object_of s.now h) read_recur) }
{
    is_object(h.kind) && is_rule(s, h.next)
}

// Any other type.
fn string_read(t: usize, s: &[u8], h: Head) -> bool
    requires { Stands s.now h }
    ensures { result ≡ is_read (and_then (string_of s.now h) (read_value xcal (type_at t))) }
{
    is_string(h.kind) && is_string_of(t, s, h.place)
}

// The element is a value of the type of the number `t`.
pub fn typed_read(t: usize, s: &[u8], h: Head) -> bool
    requires { Stands s.now h }
    ensures { result ≡ typed_in t s.now h }
{
    if t == value_type::BINARY {
        return binary_read(s, h);
    }
    if t == value_type::BOOLEAN {
        return boolean_read(s, h);
    }
    if t == value_type::FLOAT {
        return float_read(s, h);
    }
    if t == value_type::INTEGER {
        return integer_read(s, h);
    }
    if t == value_type::PERIOD {
        return period_read(s, h);
    }
    if t == value_type::RECUR {
        return rule_read(s, h);
    }
    string_read(t, s, h)
}
