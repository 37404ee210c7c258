// A value out of a string, or out of the bytes of a number or a literal. See crate jcal, specs/Values.antt.
ghost use Rattle.std.specs.Prelude.{◌≡◌, ◌≤◌, ◌<◌, length};
ghost use Rattle.octets.specs.Reading.{is_read};
ghost use Rattle.calendar.specs.Calendar.{ical, xcal, BINARY};
ghost use Rattle.schema.specs.Numbers.{type_at};
ghost use Rattle.values.specs.ReadValue.{read_value};
ghost use Rattle.read_json.specs.TreeAt.{string_at, word_at};
ghost use Rattle.read_jcal_value.specs.Typed.{read_integer};

use crate::number::read_number;
use schema::value_type;
use source::{JsonCharacters, Plain};
use values::read_value;

// The string at `p` spells a value of the type of the number `t` as its XML element does.
pub fn is_string_of(t: usize, s: &[u8], p: usize) -> bool
    requires { p < length s.now }
    ensures { result ≡ is_read (read_value xcal (type_at t) (string_at s.now p)) }
{
    read_value::<JsonCharacters>(true, t, s, 2 * (p + 1)).is_some()
}

// The string at `p` is a BINARY; white space in it is not dropped.
pub fn is_binary(s: &[u8], p: usize) -> bool
    requires { p < length s.now }
    ensures { result ≡ is_read (read_value ical BINARY (string_at s.now p)) }
{
    read_value::<JsonCharacters>(false, value_type::BINARY, s, 2 * (p + 1)).is_some()
}

// The bytes from `p` to `n` are a value of the type of the number `t`.
pub fn is_word_of(t: usize, s: &[u8], p: usize, n: usize) -> bool
    requires { n ≤ length s.now }
    ensures { result ≡ is_read (read_value xcal (type_at t) (word_at s.now p n)) }
{
    read_value::<Plain>(true, t, &s[..n], p).is_some()
}

// The number from `p` to `n` is an INTEGER.
pub fn is_integer(s: &[u8], p: usize, n: usize) -> bool
    requires { (p ≤ n) × (n ≤ length s.now) }
    ensures { result ≡ is_read (read_integer (word_at s.now p n)) }
{
    read_number(&s[..n], p).is_some()
}
