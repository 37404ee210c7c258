// BOOLEAN: read from the cursor to the end, and written.
ghost use Rattle.std.specs.Prelude.{◌≡◌};
ghost use Rattle.calendar.specs.Calendar.{format_of, ical, xcal as xml_format};
ghost use Rattle.source.specs.Source.{rest};
ghost use Rattle.sink.specs.Sink.{Put};
ghost use Rattle.numbers.specs.Boolean.{read_boolean, write_boolean};

use names::{is_word, is_word_any_case};
use sink::put_all;
use source::Encoding;

// In text: TRUE or FALSE, in any letter case.
fn read_text<E: Encoding>(s: &[u8], at: usize) -> Option<bool>
    ensures { read_boolean ical (rest E.encoding s.now at) ≡ result }
{
    if is_word_any_case::<E>(s, at, b"TRUE") {
        return Some(true);
    }
    if is_word_any_case::<E>(s, at, b"FALSE") {
        return Some(false);
    }
    None
}

// In XML: true, 1, false, 0.
fn read_xml<E: Encoding>(s: &[u8], at: usize) -> Option<bool>
    ensures { read_boolean xml_format (rest E.encoding s.now at) ≡ result }
{
    if is_word::<E>(s, at, b"true") || is_word::<E>(s, at, b"1") {
        return Some(true);
    }
    if is_word::<E>(s, at, b"false") || is_word::<E>(s, at, b"0") {
        return Some(false);
    }
    None
}

pub fn read_boolean<E: Encoding>(xcal: bool, s: &[u8], at: usize) -> Option<bool>
    ensures { read_boolean (format_of xcal) (rest E.encoding s.now at) ≡ result }
{
    if xcal {
        read_xml::<E>(s, at)
    } else {
        read_text::<E>(s, at)
    }
}

pub fn put_boolean(out: &mut [u8], o: usize, xcal: bool, b: bool) -> usize
    ensures { Put out.old out.new o result (write_boolean (format_of xcal) b) }
{
    match (xcal, b) {
        (true, true) => put_all(out, o, b"true"),
        (true, false) => put_all(out, o, b"false"),
        (false, true) => put_all(out, o, b"TRUE"),
        (false, false) => put_all(out, o, b"FALSE"),
    }
}
