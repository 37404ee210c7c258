// Texts between bare separators as strings with commas between them: one TEXT, a list of them, a REQUEST-STATUS. See specs/Texts.antt.
ghost use Rattle.std.specs.Prelude.{◌≡◌, false};
ghost use Rattle.octets.specs.Ascii.{ascii};
ghost use Rattle.octets.specs.Append.{◌⊕◌};
ghost use Rattle.octets.specs.Reading.{or_nothing};
ghost use Rattle.sink.specs.Sink.{Put};
ghost use Rattle.source.specs.Source.{rest};
ghost use Rattle.texts.specs.Text.{opens, split_text, read_text};
ghost use Rattle.json_text.specs.Write.{escaped};
ghost use Rattle.write_jcal_value.specs.Texts.{meant_json, bare_json, byte_json, strings_from, strings_of};

use octets::unit::{BACKSLASH, END};
use sink::{put, put_all};
use source::{Encoding, unit};
use texts::{read_one_text, read_text};
use write_json::put_escaped_byte;

// The byte after a backslash.
fn put_meant(out: &mut [u8], at: usize, b: u8) -> usize
    ensures { Put out.old out.new at result (meant_json b) }
{
    if b == b'n' {
        return put_all(out, at, b"\\n");
    }
    if b == b'N' {
        return put_all(out, at, b"\\n");
    }
    put_escaped_byte(out, at, b)
}

// Any other byte: a bare separator ends a string and begins the next.
fn put_bare(out: &mut [u8], at: usize, b: u8) -> usize
    ensures { Put out.old out.new at result (bare_json b) }
{
    if b == b'\\' {
        return at;
    }
    if b == b',' {
        return put_all(out, at, b"\",\"");
    }
    if b == b';' {
        return put_all(out, at, b"\",\"");
    }
    put_escaped_byte(out, at, b)
}

fn put_byte(out: &mut [u8], at: usize, after: bool, b: u8) -> usize
    ensures { Put out.old out.new at result (byte_json after b) }
{
    if after {
        return put_meant(out, at, b);
    }
    put_bare(out, at, b)
}

// Whether a backslash stands open after a byte.
fn is_opening(after: bool, u: usize) -> bool
    ensures { result ≡ opens after u }
{
    if after {
        return false;
    }
    u == BACKSLASH
}

// All texts, without the quotation marks before the first and behind the last.
fn put_strings<E: Encoding>(out: &mut [u8], at: usize, s: &[u8], from: usize) -> usize
    ensures { Put out.old out.new at result (strings_from false (rest E.encoding s.now from)) }
{
    let mut o = at;
    let mut after = false;
    let mut c = from;
    loop {
        let t = unit::<E>(s, c);
        let u = t.u;
        if u == END {
            return o;
        }
        o = put_byte(out, o, after, u as u8);
        after = is_opening(after, u);
        c = t.next;
    }
}

fn put_strings_quoted<E: Encoding>(out: &mut [u8], at: usize, s: &[u8], from: usize) -> usize
    ensures { Put out.old out.new at result
        (ascii "\"" ⊕ strings_from false (rest E.encoding s.now from) ⊕ ascii "\"") }
{
    let a = put(out, at, b'"');
    let b = put_strings::<E>(out, a, s, from);
    put(out, b, b'"')
}

// The texts between bare separators `sep`: COMMA, SEMICOLON, or 0 for none. Nothing where they are against the grammar.
pub fn put_texts<E: Encoding>(out: &mut [u8], at: usize, sep: usize, s: &[u8], from: usize) -> usize
    ensures { Put out.old out.new at result
        (or_nothing strings_of (split_text sep (rest E.encoding s.now from))) }
{
    if read_text::<E>(sep, s, from) {
        return put_strings_quoted::<E>(out, at, s, from);
    }
    at
}

// The characters of a single TEXT; nothing where it is none.
pub fn put_text_characters<E: Encoding>(out: &mut [u8], at: usize, s: &[u8], from: usize) -> usize
    ensures { Put out.old out.new at result
        (or_nothing escaped (read_text (rest E.encoding s.now from))) }
{
    if read_one_text::<E>(s, from) {
        return put_strings::<E>(out, at, s, from);
    }
    at
}
