// GEO in text, written as its elements. See specs/Geo.antt.
ghost use Rattle.octets.specs.Ascii.{ascii};
ghost use Rattle.octets.specs.Reading.{or_nothing};
ghost use Rattle.sink.specs.Sink.{Put};
ghost use Rattle.source.specs.Source.{rest};
ghost use Rattle.numbers.specs.Float.{read_float, write_float};
ghost use Rattle.numbers.specs.Until.{until};
ghost use Rattle.numbers.specs.Geo.{read_geo};
ghost use Rattle.xml.specs.Escape.{element_of};
ghost use Rattle.xcal.specs.WriteXml.{value_xml};
ghost use Rattle.write_xml_property.specs.Geo.{coordinates_xml};

use markup::element;
use numbers::float::{put_float, put_float_to};
use numbers::geo::read_geo;
use octets::unit::SEMICOLON;
use source::Encoding;
use tags::{put_end_tag, put_start_tag};

// The number up to the semicolon.
fn put_latitude<E: Encoding>(out: &mut [u8], o: usize, s: &[u8], at: usize) -> usize
    ensures { Put out.old out.new o result
        (element_of (ascii "latitude") (or_nothing write_float (read_float (until 59 E.encoding s.now at)))) }
{
    let a = put_start_tag(out, o, &element::LATITUDE);
    let b = put_float_to::<E>(out, a, SEMICOLON, s, at);
    put_end_tag(out, b, &element::LATITUDE)
}

fn put_longitude<E: Encoding>(out: &mut [u8], o: usize, s: &[u8], at: usize) -> usize
    ensures { Put out.old out.new o result
        (element_of (ascii "longitude") (or_nothing write_float (read_float (rest E.encoding s.now at)))) }
{
    let a = put_start_tag(out, o, &element::LONGITUDE);
    let b = put_float::<E>(out, a, s, at);
    put_end_tag(out, b, &element::LONGITUDE)
}

fn put_coordinates<E: Encoding>(out: &mut [u8], o: usize, s: &[u8], at: usize, g: usize) -> usize
    ensures { Put out.old out.new o result (coordinates_xml E.encoding s.now at g) }
{
    let a = put_latitude::<E>(out, o, s, at);
    put_longitude::<E>(out, a, s, g)
}

// Nothing where it is none.
pub fn put_geo<E: Encoding>(out: &mut [u8], o: usize, s: &[u8], at: usize) -> usize
    ensures { Put out.old out.new o result (or_nothing value_xml (read_geo (rest E.encoding s.now at))) }
{
    let Some(longitude) = read_geo::<E>(s, at) else {
        return o;
    };
    put_coordinates::<E>(out, o, s, at, longitude)
}
