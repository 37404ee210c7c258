// A text as it stands, and a word in capitals, each as an element `text`; what has no known type as an element `unknown`. See specs/laws/Words.antt.
ghost use Rattle.octets.specs.Class.{upper};
ghost use Rattle.calendar.specs.Calendar.{text, unknown};
ghost use Rattle.sink.specs.Sink.{Put};
ghost use Rattle.source.specs.Source.{rest};
ghost use Rattle.xml.specs.Escape.{escaped};
ghost use Rattle.xcal.specs.WriteXml.{value_xml};

use crate::tag::{put_type_end, put_type_start};
use markup::element;
use octets::unit::END;
use octets::upper_unit;
use schema::value_type;
use source::{Encoding, unit};
use tags::{put_end_tag, put_escaped, put_escaped_byte, put_start_tag};

// What stands from the cursor `at` to the end.
pub fn put_raw_element<E: Encoding>(out: &mut [u8], o: usize, s: &[u8], at: usize) -> usize
    ensures { Put out.old out.new o result (value_xml (text (rest E.encoding s.now at))) }
{
    let p = put_start_tag(out, o, &element::TEXT);
    let q = put_escaped::<E>(out, p, s, at);
    put_end_tag(out, q, &element::TEXT)
}

// The same, of no known type.
pub fn put_unknown_element<E: Encoding>(out: &mut [u8], o: usize, s: &[u8], at: usize) -> usize
    ensures { Put out.old out.new o result (value_xml (unknown (rest E.encoding s.now at))) }
{
    let p = put_type_start(out, o, value_type::UNKNOWN);
    let q = put_escaped::<E>(out, p, s, at);
    put_type_end(out, q, value_type::UNKNOWN)
}

fn put_capitals<E: Encoding>(out: &mut [u8], o: usize, s: &[u8], at: usize) -> usize
    ensures { Put out.old out.new o result (escaped (upper (rest E.encoding s.now at))) }
{
    let mut p = o;
    let mut c = at;
    loop {
        let t = unit::<E>(s, c);
        let u = t.u;
        if u == END {
            return p;
        }
        let v = upper_unit(u);
        p = put_escaped_byte(out, p, v as u8);
        c = t.next;
    }
}

// The same in capitals.
pub fn put_word_element<E: Encoding>(out: &mut [u8], o: usize, s: &[u8], at: usize) -> usize
    ensures { Put out.old out.new o result (value_xml (text (upper (rest E.encoding s.now at)))) }
{
    let p = put_start_tag(out, o, &element::TEXT);
    let q = put_capitals::<E>(out, p, s, at);
    put_end_tag(out, q, &element::TEXT)
}
