// TEXT written: unescaped, as XML's character data; and escaped, as iCalendar text. See specs/laws/Written.antt.
#![tactic(auto, unfolding(octets::specs::Computing::octets_compute))]

ghost use Rattle.std.specs.Prelude.{◌≡◌, false};
ghost use Rattle.octets.specs.Reading.{or_nothing};
ghost use Rattle.sink.specs.Sink.{Put};
ghost use Rattle.source.specs.Source.{rest};
ghost use Rattle.xml.specs.Escape.{escaped};
ghost use Rattle.texts.specs.Text.{read_text, escape_text, write_text};
ghost use Rattle.texts.specs.Unescaped.{meant, unescaped};

use crate::text::{is_escaped, is_opening, read_one_text};
use octets::unit::END;
use sink::put;
use source::{Encoding, unit};
use tags::put_escaped_byte;

// The character that a byte stands for.
fn meant_by(after: bool, b: u8) -> u8
    ensures { result ≡ meant after b }
{
    match (after, b) {
        (true, b'n' | b'N') => b'\n',
        _ => b,
    }
}

fn put_unescaped<E: Encoding>(out: &mut [u8], at: usize, s: &[u8], from: usize) -> usize
    ensures { Put out.old out.new at result (escaped (unescaped false (rest E.encoding s.now from))) }
{
    let mut o = at;
    let mut after = false;
    let mut c = from;
    loop {
        let t = unit::<E>(s, c);
        if t.u == END {
            return o;
        }
        if is_opening(after, t.u) {
            after = true;
            c = t.next;
        } else {
            let b = meant_by(after, t.u as u8);
            o = put_escaped_byte(out, o, b);
            after = false;
            c = t.next;
        }
    }
}

// A TEXT of iCalendar text as XML's character data; nothing where it is none.
pub fn put_text_xml<E: Encoding>(out: &mut [u8], at: usize, s: &[u8], from: usize) -> usize
    ensures { Put out.old out.new at result
        (or_nothing escaped (read_text (rest E.encoding s.now from))) }
{
    if read_one_text::<E>(s, from) {
        return put_unescaped::<E>(out, at, s, from);
    }
    at
}

fn put_text_byte(out: &mut [u8], at: usize, b: u8) -> usize
    ensures { Put out.old out.new at result (escape_text b) }
{
    if b == b'\n' {
        let o = put(out, at, b'\\');
        return put(out, o, b'n');
    }
    if is_escaped(b as usize) {
        let o = put(out, at, b'\\');
        return put(out, o, b);
    }
    put(out, at, b)
}

// The characters from the cursor `from` to the end of the source as a TEXT of iCalendar text.
pub fn put_text_escaped<E: Encoding>(out: &mut [u8], at: usize, s: &[u8], from: usize) -> usize
    ensures { Put out.old out.new at result (write_text (rest E.encoding s.now from)) }
{
    let mut o = at;
    let mut c = from;
    loop {
        let t = unit::<E>(s, c);
        if t.u == END {
            return o;
        }
        o = put_text_byte(out, o, t.u as u8);
        c = t.next;
    }
}
