// The values of a parameter as elements. See specs/Shown.antt.
ghost use Rattle.std.specs.Prelude.{◌≡◌, true, map, take};
ghost use Rattle.octets.specs.Append.{joined};
ghost use Rattle.sink.specs.Sink.{Put};
ghost use Rattle.edition.specs.Edition.{decode};
ghost use Rattle.source.specs.Source.{rest};
ghost use Rattle.read_text_line.specs.ContentLine.{next_value};
ghost use Rattle.read_text_line.specs.Items.{items};
ghost use Rattle.read_text_line.specs.Cursor.{values_at};
ghost use Rattle.write_xml_parameters.specs.Shown.{value_shown, chars_in};
ghost use Rattle.write_xml_parameters.specs.Parts.{row_at};

use edition::Edition;
use octets::smaller;
use read_text_line::{next_value, param_value};
use schema::{parameter_has_words, parameter_type, value_type};
use source::{Carets, Cuttable, Encoding};
use write_xml_value::{put_raw_element, put_unknown_element, put_value_element, put_word_element};

// The value of the parameter `q` that stands from the cursor on.
fn put_value<E: Encoding>(out: &mut [u8], o: usize, q: usize, s: &[u8], at: usize) -> usize
    ensures { Put out.old out.new o result (value_shown (row_at q) (rest E.encoding s.now at)) }
{
    let words = parameter_has_words(q);
    if words {
        return put_word_element::<E>(out, o, s, at);
    }
    let t = parameter_type(q);
    if t == value_type::TEXT {
        return put_raw_element::<E>(out, o, s, at);
    }
    if t == value_type::UNKNOWN {
        return put_unknown_element::<E>(out, o, s, at);
    }
    put_value_element::<E>(out, o, t, s, at)
}

// The same from the cursor `from` to the cursor `to`.
fn put_cut_value<E: Cuttable>(
    out: &mut [u8],
    o: usize,
    edition: Edition,
    q: usize,
    s: &[u8],
    from: usize,
    to: usize,
) -> usize
    ensures { Put out.old out.new o result
        (value_shown (row_at q) (decode edition (rest E.encoding (take to s.now) from))) }
{
    let e = smaller(to, s.len());
    match edition {
        Edition::Rfc5545 => put_value::<E>(out, o, q, &s[..e], from),
        Edition::Rfc6868 => put_value::<Carets<E>>(out, o, q, &s[..e], from),
    }
}

// All values that follow another.
fn put_next_values<E: Cuttable>(
    out: &mut [u8],
    o: usize,
    edition: Edition,
    q: usize,
    s: &[u8],
    at: usize,
) -> usize
    ensures { Put out.old out.new o result
        (joined (map (chars_in edition (row_at q)) (items next_value (rest E.encoding s.now at)))) }
{
    let mut p = o;
    let mut c = at;
    while let Ok(Some(v)) = next_value::<E>(s, c) {
        p = put_cut_value::<E>(out, p, edition, q, s, v.from, v.to);
        c = v.next;
    }
    p
}

// All values of the parameter `q`, from its first on.
pub fn put_values<E: Cuttable>(
    out: &mut [u8],
    o: usize,
    edition: Edition,
    q: usize,
    s: &[u8],
    at: usize,
) -> usize
    ensures { Put out.old out.new o result
        (joined (map (chars_in edition (row_at q)) (values_at E.encoding s.now at))) }
{
    let Ok(v) = param_value::<E>(s, at) else {
        return o;
    };
    let a = put_cut_value::<E>(out, o, edition, q, s, v.from, v.to);
    put_next_values::<E>(out, a, edition, q, s, v.next)
}
