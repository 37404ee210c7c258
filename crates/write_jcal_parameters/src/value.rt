// The values of a parameter as strings. See specs/Shown.antt.
ghost use Rattle.std.specs.Prelude.{◌≡◌, true, not, map, take};
ghost use Rattle.octets.specs.Ascii.{ascii};
ghost use Rattle.octets.specs.Append.{◌⊕◌};
ghost use Rattle.octets.specs.Words.{is_empty, each_after};
ghost use Rattle.octets.specs.Reading.{or_nothing};
ghost use Rattle.calendar.specs.Calendar.{ical, BOOLEAN};
ghost use Rattle.sink.specs.Sink.{Put};
ghost use Rattle.edition.specs.Edition.{decode};
ghost use Rattle.source.specs.Source.{rest};
ghost use Rattle.schema.specs.Numbers.{type_at};
ghost use Rattle.values.specs.ReadValue.{read_value};
ghost use Rattle.values.specs.WriteValue.{value_characters};
ghost use Rattle.read_text_line.specs.ContentLine.{next_value};
ghost use Rattle.read_text_line.specs.Items.{items};
ghost use Rattle.read_text_line.specs.Cursor.{values_at};
ghost use Rattle.json_text.specs.Bytes.{value_separator};
ghost use Rattle.json_text.specs.Write.{escaped};
ghost use Rattle.jcal.specs.WriteJcal.{one_or_array};
ghost use Rattle.write_jcal_parameters.specs.Shown.{truth_string, string_of, value_shown, chars_in, row_at};

use edition::Edition;
use numbers::boolean::read_boolean;
use octets::smaller;
use read_text_line::{next_value, param_value};
use schema::{parameter_has_words, parameter_type, value_type};
use sink::{put, put_all};
use source::{Carets, Cuttable, Encoding};
use values::read_value;
use write_jcal_value::put_characters;
use write_json::{put_capitals_quoted, put_quoted};

// RSVP: its word in capitals.
fn put_truth(out: &mut [u8], o: usize, b: bool) -> usize
    ensures { Put out.old out.new o result (truth_string b) }
{
    if b {
        return put_all(out, o, b"\"TRUE\"");
    }
    put_all(out, o, b"\"FALSE\"")
}

fn put_boolean_string<E: Encoding>(out: &mut [u8], o: usize, s: &[u8], at: usize) -> usize
    ensures { Put out.old out.new o result
        (or_nothing string_of (read_value ical BOOLEAN (rest E.encoding s.now at))) }
{
    match read_boolean::<E>(false, s, at) {
        Some(b) => put_truth(out, o, b),
        None => o,
    }
}

fn put_string<E: Encoding>(out: &mut [u8], o: usize, t: usize, s: &[u8], at: usize) -> usize
    ensures { Put out.old out.new o result (ascii "\"" ⊕
        or_nothing (λ v. escaped (value_characters v)) (read_value ical (type_at t) (rest E.encoding s.now at)) ⊕
        ascii "\"") }
{
    let a = put(out, o, b'"');
    let b = put_characters::<E>(out, a, t, s, at);
    put(out, b, b'"')
}

// A value of the type at the place `t`, which is not RECUR; nothing where it is none.
fn put_typed<E: Encoding>(out: &mut [u8], o: usize, t: usize, s: &[u8], at: usize) -> usize
    requires { t ≡ 9 → ⊥ }
    ensures { Put out.old out.new o result
        (or_nothing string_of (read_value ical (type_at t) (rest E.encoding s.now at))) }
{
    if t == value_type::BOOLEAN {
        return put_boolean_string::<E>(out, o, s, at);
    }
    match read_value::<E>(false, t, s, at) {
        Some(_) => put_string::<E>(out, o, t, s, at),
        None => o,
    }
}

// The value of the parameter `q` that stands from the cursor on.
fn put_value<E: Encoding>(out: &mut [u8], o: usize, q: usize, s: &[u8], at: usize) -> usize
    ensures { Put out.old out.new o result (value_shown (row_at q) (rest E.encoding s.now at)) }
{
    let words = parameter_has_words(q);
    if words {
        return put_capitals_quoted::<E>(out, o, s, at);
    }
    let t = parameter_type(q);
    if t == value_type::TEXT {
        return put_quoted::<E>(out, o, s, at);
    }
    if t == value_type::UNKNOWN {
        return put_quoted::<E>(out, o, s, at);
    }
    put_typed::<E>(out, o, t, s, at)
}

// The same from the cursor `from` to the cursor `to`.
fn put_cut_value<E: Cuttable>(
    out: &mut [u8],
    o: usize,
    edition: Edition,
    q: usize,
    s: &[u8],
    from: usize,
    to: usize,
) -> usize
    ensures { Put out.old out.new o result
        (value_shown (row_at q) (decode edition (rest E.encoding (take to s.now) from))) }
{
    let e = smaller(to, s.len());
    match edition {
        Edition::Rfc5545 => put_value::<E>(out, o, q, &s[..e], from),
        Edition::Rfc6868 => put_value::<Carets<E>>(out, o, q, &s[..e], from),
    }
}

// All values that follow another, each behind a comma.
fn put_next_values<E: Cuttable>(
    out: &mut [u8],
    o: usize,
    edition: Edition,
    q: usize,
    s: &[u8],
    at: usize,
) -> usize
    ensures { Put out.old out.new o result
        (each_after value_separator
        (map (chars_in edition (row_at q)) (items next_value (rest E.encoding s.now at)))) }
{
    let mut p = o;
    let mut c = at;
    while let Ok(Some(v)) = next_value::<E>(s, c) {
        let a = put(out, p, b',');
        p = put_cut_value::<E>(out, a, edition, q, s, v.from, v.to);
        c = v.next;
    }
    p
}

// Another value follows.
fn has_next_value<E: Cuttable>(s: &[u8], at: usize) -> bool
    ensures { result ≡ not (is_empty (items next_value (rest E.encoding s.now at))) }
{
    matches!(next_value::<E>(s, at), Ok(Some(_)))
}

// The value from the cursor `from` to the cursor `to`, and those that follow from the cursor `next` on.
fn put_several<E: Cuttable>(
    out: &mut [u8],
    o: usize,
    edition: Edition,
    q: usize,
    s: &[u8],
    from: usize,
    to: usize,
    next: usize,
) -> usize
    ensures { Put out.old out.new o result (ascii "[" ⊕
        value_shown (row_at q) (decode edition (rest E.encoding (take to s.now) from)) ⊕
        each_after value_separator (map (chars_in edition (row_at q)) (items next_value (rest E.encoding s.now next))) ⊕
        ascii "]") }
{
    let a = put(out, o, b'[');
    let b = put_cut_value::<E>(out, a, edition, q, s, from, to);
    let c = put_next_values::<E>(out, b, edition, q, s, next);
    put(out, c, b']')
}

// All values of the parameter `q`, from its first on: one alone, or an array.
pub fn put_values<E: Cuttable>(
    out: &mut [u8],
    o: usize,
    edition: Edition,
    q: usize,
    s: &[u8],
    at: usize,
) -> usize
    ensures { Put out.old out.new o result
        (one_or_array (map (chars_in edition (row_at q)) (values_at E.encoding s.now at))) }
{
    let Ok(v) = param_value::<E>(s, at) else {
        return put_all(out, o, b"[]");
    };
    if has_next_value::<E>(s, v.next) {
        return put_several::<E>(out, o, edition, q, s, v.from, v.to, v.next);
    }
    put_cut_value::<E>(out, o, edition, q, s, v.from, v.to)
}
