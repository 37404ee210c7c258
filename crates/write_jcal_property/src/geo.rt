// GEO in text, written as an array of two numbers. See specs/Geo.antt.
ghost use Rattle.octets.specs.Ascii.{ascii};
ghost use Rattle.octets.specs.Append.{◌⊕◌};
ghost use Rattle.octets.specs.Reading.{or_nothing};
ghost use Rattle.sink.specs.Sink.{Put};
ghost use Rattle.source.specs.Source.{rest};
ghost use Rattle.numbers.specs.Float.{read_float, write_float};
ghost use Rattle.numbers.specs.Until.{until};
ghost use Rattle.numbers.specs.Geo.{read_geo};
ghost use Rattle.jcal.specs.WriteJcal.{value_json};
ghost use Rattle.write_jcal_property.specs.Geo.{coordinates_json};

use numbers::float::{put_float, put_float_to};
use numbers::geo::read_geo;
use octets::unit::SEMICOLON;
use sink::put;
use source::Encoding;

// The bracket that opens the array, and the number up to the semicolon.
fn put_latitude<E: Encoding>(out: &mut [u8], o: usize, s: &[u8], at: usize) -> usize
    ensures { Put out.old out.new o result
        (ascii "[" ⊕ or_nothing write_float (read_float (until 59 E.encoding s.now at))) }
{
    let a = put(out, o, b'[');
    put_float_to::<E>(out, a, SEMICOLON, s, at)
}

// A comma, the number from the cursor on, and the bracket that closes the array.
fn put_longitude<E: Encoding>(out: &mut [u8], o: usize, s: &[u8], at: usize) -> usize
    ensures { Put out.old out.new o result
        (ascii "," ⊕ or_nothing write_float (read_float (rest E.encoding s.now at)) ⊕ ascii "]") }
{
    let a = put(out, o, b',');
    let b = put_float::<E>(out, a, s, at);
    put(out, b, b']')
}

// The number up to the semicolon, and the one from the cursor `g` on.
fn put_coordinates<E: Encoding>(out: &mut [u8], o: usize, s: &[u8], at: usize, g: usize) -> usize
    ensures { Put out.old out.new o result (coordinates_json E.encoding s.now at g) }
{
    let a = put_latitude::<E>(out, o, s, at);
    put_longitude::<E>(out, a, s, g)
}

// Nothing where it is none.
pub fn put_geo<E: Encoding>(out: &mut [u8], o: usize, s: &[u8], at: usize) -> usize
    ensures { Put out.old out.new o result (or_nothing value_json (read_geo (rest E.encoding s.now at))) }
{
    let Some(longitude) = read_geo::<E>(s, at) else {
        return o;
    };
    put_coordinates::<E>(out, o, s, at, longitude)
}
