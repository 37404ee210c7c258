// The characters of a value of any type, as they stand in a JSON string. See specs/laws/Characters.antt.
ghost use Rattle.octets.specs.Reading.{or_nothing};
ghost use Rattle.calendar.specs.Calendar.{ical};
ghost use Rattle.sink.specs.Sink.{Put};
ghost use Rattle.source.specs.Source.{rest};
ghost use Rattle.schema.specs.Numbers.{type_at};
ghost use Rattle.texts.specs.Unknown.{read_unknown};
ghost use Rattle.values.specs.ReadValue.{read_value};
ghost use Rattle.values.specs.WriteValue.{value_characters};
ghost use Rattle.json_text.specs.Write.{escaped};

use crate::text::put_text_characters;
use schema::value_type;
use source::Encoding;
use texts::{put_uri, read_unknown};
use values::put_value_xml;
use write_json::put_escaped;

// A value of no known type; nothing where it is none.
fn put_unknown_characters<E: Encoding>(out: &mut [u8], o: usize, s: &[u8], at: usize) -> usize
    ensures { Put out.old out.new o result
        (or_nothing escaped (read_unknown (rest E.encoding s.now at))) }
{
    if read_unknown::<E>(s, at) {
        return put_escaped::<E>(out, o, s, at);
    }
    o
}

// The value of the type at the place `t`, from the cursor to the end; nothing where it is none. Only TEXT and `unknown` have characters that are escaped.
pub fn put_characters<E: Encoding>(out: &mut [u8], o: usize, t: usize, s: &[u8], at: usize) -> usize
    ensures { Put out.old out.new o result
        (or_nothing (λ v. escaped (value_characters v)) (read_value ical (type_at t) (rest E.encoding s.now at))) }
{
    if t == value_type::CAL_ADDRESS {
        return put_uri::<E>(out, o, s, at);
    }
    if t == value_type::TEXT {
        return put_text_characters::<E>(out, o, s, at);
    }
    if t == value_type::URI {
        return put_uri::<E>(out, o, s, at);
    }
    if value_type::KNOWN <= t {
        return put_unknown_characters::<E>(out, o, s, at);
    }
    put_value_xml::<E>(out, o, t, s, at)
}
