// Writing XML: character data with its entities, and tags. The definitions are in crate xml, specs/Escape.antt.
#![tactic(auto)]

ghost use Rattle.std.specs.Prelude.{◌≡◌};
ghost use Rattle.octets.specs.Class.{lower};
ghost use Rattle.sink.specs.Sink.{Put};
ghost use Rattle.source.specs.Source.{rest};
ghost use Rattle.xml.specs.Escape.{escaped_byte, escaped, start_tag, end_tag};

use names::put_lower;
use octets::unit::END;
use sink::{put, put_all};
use source::{Encoding, unit};

// A character's byte, or its entity.
pub fn put_escaped_byte(out: &mut [u8], at: usize, b: u8) -> usize
    ensures { Put out.old out.new at result (escaped_byte b) }
{
    match b {
        b'&' => put_all(out, at, b"&amp;"),
        b'<' => put_all(out, at, b"&lt;"),
        b'>' => put_all(out, at, b"&gt;"),
        _ => put(out, at, b),
    }
}

// The characters from the cursor `from` to the end of the source.
pub fn put_escaped<E: Encoding>(out: &mut [u8], at: usize, s: &[u8], from: usize) -> usize
    ensures { Put out.old out.new at result (escaped (rest E.encoding s.now from)) }
{
    let mut o = at;
    let mut c = from;
    loop {
        let t = unit::<E>(s, c);
        if t.u == END {
            return o;
        }
        o = put_escaped_byte(out, o, t.u as u8);
        c = t.next;
    }
}

pub fn put_start_tag(out: &mut [u8], at: usize, name: &[u8]) -> usize
    ensures { Put out.old out.new at result (start_tag name.now) }
{
    let o = put_all(out, at, b"<");
    let e = put_all(out, o, name);
    put_all(out, e, b">")
}

pub fn put_end_tag(out: &mut [u8], at: usize, name: &[u8]) -> usize
    ensures { Put out.old out.new at result (end_tag name.now) }
{
    let o = put_all(out, at, b"</");
    let e = put_all(out, o, name);
    put_all(out, e, b">")
}

// The start tag of the name that stands from the cursor on, in small letters.
pub fn put_small_start<E: Encoding>(out: &mut [u8], o: usize, s: &[u8], at: usize) -> usize
    ensures { Put out.old out.new o result (start_tag (lower (rest E.encoding s.now at))) }
{
    let a = put_all(out, o, b"<");
    let b = put_lower::<E>(out, a, s, at);
    put_all(out, b, b">")
}

// Its end tag.
pub fn put_small_end<E: Encoding>(out: &mut [u8], o: usize, s: &[u8], at: usize) -> usize
    ensures { Put out.old out.new o result (end_tag (lower (rest E.encoding s.now at))) }
{
    let a = put_all(out, o, b"</");
    let b = put_lower::<E>(out, a, s, at);
    put_all(out, b, b">")
}
