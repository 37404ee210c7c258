// BOOLEAN, FLOAT, INTEGER: whether there is a value from the cursor to the end.
ghost use Rattle.std.specs.Prelude.{◌≡◌};
ghost use Rattle.octets.specs.Reading.{is_read};
ghost use Rattle.calendar.specs.Calendar.{format_of, BOOLEAN, FLOAT, INTEGER};
ghost use Rattle.source.specs.Source.{rest};
ghost use Rattle.values.specs.ReadValue.{read_value};

use numbers::boolean::read_boolean;
use numbers::float::read_float;
use numbers::integer::read_integer;
use source::Encoding;

pub fn is_boolean<E: Encoding>(xcal: bool, s: &[u8], at: usize) -> bool
    ensures { result ≡ is_read (read_value (format_of xcal) BOOLEAN (rest E.encoding s.now at)) }
{
    read_boolean::<E>(xcal, s, at).is_some()
}

pub fn is_float<E: Encoding>(xcal: bool, s: &[u8], at: usize) -> bool
    ensures { result ≡ is_read (read_value (format_of xcal) FLOAT (rest E.encoding s.now at)) }
{
    read_float::<E>(s, at).is_some()
}

pub fn is_integer<E: Encoding>(xcal: bool, s: &[u8], at: usize) -> bool
    ensures { result ≡ is_read (read_value (format_of xcal) INTEGER (rest E.encoding s.now at)) }
{
    read_integer::<E>(s, at).is_some()
}
