// Writing JSON: strings with their escapes, and the separator of values. The definitions are in crate json_text, specs/Write.antt.
#![tactic(auto)]

ghost use Rattle.std.specs.Prelude.{◌≡◌};
ghost use Rattle.octets.specs.Class.{upper, lower};
ghost use Rattle.sink.specs.Sink.{Put};
ghost use Rattle.source.specs.Source.{rest};
ghost use Rattle.json_text.specs.Write.{escaped_byte, escaped, quoted};
ghost use Rattle.write_json.specs.Separated.{separator};

use octets::unit::END;
use octets::{lower_unit, upper_unit};
use sink::{put, put_all};
use source::{Encoding, unit};

// A character's byte, or its escape.
pub fn put_escaped_byte(out: &mut [u8], at: usize, b: u8) -> usize
    ensures { Put out.old out.new at result (escaped_byte b) }
{
    if b == b'"' {
        return put_all(out, at, b"\\\"");
    }
    if b == b'\\' {
        return put_all(out, at, b"\\\\");
    }
    if b == b'\n' {
        return put_all(out, at, b"\\n");
    }
    if b == b'\t' {
        return put_all(out, at, b"\\t");
    }
    put(out, at, b)
}

// The characters from the cursor `from` to the end of the source.
pub fn put_escaped<E: Encoding>(out: &mut [u8], at: usize, s: &[u8], from: usize) -> usize
    ensures { Put out.old out.new at result (escaped (rest E.encoding s.now from)) }
{
    let mut o = at;
    let mut c = from;
    loop {
        let t = unit::<E>(s, c);
        let u = t.u;
        if u == END {
            return o;
        }
        o = put_escaped_byte(out, o, u as u8);
        c = t.next;
    }
}

// The same in small letters.
fn put_escaped_small<E: Encoding>(out: &mut [u8], at: usize, s: &[u8], from: usize) -> usize
    ensures { Put out.old out.new at result (escaped (lower (rest E.encoding s.now from))) }
{
    let mut o = at;
    let mut c = from;
    loop {
        let t = unit::<E>(s, c);
        let u = t.u;
        if u == END {
            return o;
        }
        let v = lower_unit(u);
        o = put_escaped_byte(out, o, v as u8);
        c = t.next;
    }
}

// The same in capitals.
fn put_escaped_capitals<E: Encoding>(out: &mut [u8], at: usize, s: &[u8], from: usize) -> usize
    ensures { Put out.old out.new at result (escaped (upper (rest E.encoding s.now from))) }
{
    let mut o = at;
    let mut c = from;
    loop {
        let t = unit::<E>(s, c);
        let u = t.u;
        if u == END {
            return o;
        }
        let v = upper_unit(u);
        o = put_escaped_byte(out, o, v as u8);
        c = t.next;
    }
}

// What stands from the cursor on, as a string.
pub fn put_quoted<E: Encoding>(out: &mut [u8], at: usize, s: &[u8], from: usize) -> usize
    ensures { Put out.old out.new at result (quoted (rest E.encoding s.now from)) }
{
    let a = put(out, at, b'"');
    let b = put_escaped::<E>(out, a, s, from);
    put(out, b, b'"')
}

// The same in small letters, as names stand.
pub fn put_small_quoted<E: Encoding>(out: &mut [u8], at: usize, s: &[u8], from: usize) -> usize
    ensures { Put out.old out.new at result (quoted (lower (rest E.encoding s.now from))) }
{
    let a = put(out, at, b'"');
    let b = put_escaped_small::<E>(out, a, s, from);
    put(out, b, b'"')
}

// The same in capitals, as words of closed sets stand.
pub fn put_capitals_quoted<E: Encoding>(out: &mut [u8], at: usize, s: &[u8], from: usize) -> usize
    ensures { Put out.old out.new at result (quoted (upper (rest E.encoding s.now from))) }
{
    let a = put(out, at, b'"');
    let b = put_escaped_capitals::<E>(out, a, s, from);
    put(out, b, b'"')
}

// A comma, but before the first value of an array or object.
pub fn put_separator(out: &mut [u8], at: usize, started: bool) -> usize
    ensures { Put out.old out.new at result (separator started) }
{
    if started {
        return put(out, at, b',');
    }
    at
}
