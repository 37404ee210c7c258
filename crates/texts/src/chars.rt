// Values that are kept by their characters, written: URI, unknown, BINARY. See specs/Chars.antt.
ghost use Rattle.std.specs.Prelude.{◌≡◌};
ghost use Rattle.octets.specs.Reading.{or_nothing};
ghost use Rattle.calendar.specs.Calendar.{format_of};
ghost use Rattle.sink.specs.Sink.{Put};
ghost use Rattle.source.specs.Source.{rest};
ghost use Rattle.xml.specs.Escape.{escaped};
ghost use Rattle.texts.specs.Uri.{read_uri};
ghost use Rattle.texts.specs.Unknown.{read_unknown};
ghost use Rattle.texts.specs.Binary.{binary_chars, read_binary};
ghost use Rattle.texts.specs.Chars.{as_is, as_is_byte};

use crate::binary::{is_passed, read_binary};
use crate::unknown::read_unknown;
use crate::uri::read_uri;
use octets::unit::END;
use sink::put;
use source::{Encoding, unit};
use tags::put_escaped;

fn put_byte(out: &mut [u8], at: usize, b: u8) -> usize
    ensures { Put out.old out.new at result (as_is_byte b) }
{
    put(out, at, b)
}

fn put_chars<E: Encoding>(out: &mut [u8], at: usize, s: &[u8], from: usize) -> usize
    ensures { Put out.old out.new at result (as_is (rest E.encoding s.now from)) }
{
    let mut o = at;
    let mut c = from;
    loop {
        let t = unit::<E>(s, c);
        if t.u == END {
            return o;
        }
        o = put_byte(out, o, t.u as u8);
        c = t.next;
    }
}

// A URI as iCalendar text has it; nothing where it is none.
pub fn put_uri<E: Encoding>(out: &mut [u8], at: usize, s: &[u8], from: usize) -> usize
    ensures { Put out.old out.new at result (or_nothing as_is (read_uri (rest E.encoding s.now from))) }
{
    if read_uri::<E>(s, from) {
        return put_chars::<E>(out, at, s, from);
    }
    at
}

// The same as character data of XML.
pub fn put_uri_xml<E: Encoding>(out: &mut [u8], at: usize, s: &[u8], from: usize) -> usize
    ensures { Put out.old out.new at result
        (or_nothing escaped (read_uri (rest E.encoding s.now from))) }
{
    if read_uri::<E>(s, from) {
        return put_escaped::<E>(out, at, s, from);
    }
    at
}

// A value of no known type as iCalendar text has it; nothing where it is none.
pub fn put_unknown<E: Encoding>(out: &mut [u8], at: usize, s: &[u8], from: usize) -> usize
    ensures { Put out.old out.new at result
        (or_nothing as_is (read_unknown (rest E.encoding s.now from))) }
{
    if read_unknown::<E>(s, from) {
        return put_chars::<E>(out, at, s, from);
    }
    at
}

// The same as character data of XML.
pub fn put_unknown_xml<E: Encoding>(out: &mut [u8], at: usize, s: &[u8], from: usize) -> usize
    ensures { Put out.old out.new at result
        (or_nothing escaped (read_unknown (rest E.encoding s.now from))) }
{
    if read_unknown::<E>(s, from) {
        return put_escaped::<E>(out, at, s, from);
    }
    at
}

fn put_base64<E: Encoding>(out: &mut [u8], at: usize, xcal: bool, s: &[u8], from: usize) -> usize
    ensures { Put out.old out.new at result
        (binary_chars (format_of xcal) (rest E.encoding s.now from)) }
{
    let mut o = at;
    let mut c = from;
    loop {
        let t = unit::<E>(s, c);
        if t.u == END {
            return o;
        }
        if is_passed(xcal, t.u) {
            c = t.next;
        } else {
            o = put(out, o, t.u as u8);
            c = t.next;
        }
    }
}

// BINARY, in iCalendar text and in XML alike, without the white space of XML; nothing where it is none.
pub fn put_binary<E: Encoding>(
    out: &mut [u8],
    at: usize,
    xcal: bool,
    s: &[u8],
    from: usize,
) -> usize
    ensures { Put out.old out.new at result
        (or_nothing as_is (read_binary (format_of xcal) (rest E.encoding s.now from))) }
{
    if read_binary::<E>(xcal, s, from) {
        return put_base64::<E>(out, at, xcal, s, from);
    }
    at
}
