// The values of a parameter: a string, or an array of strings. See specs/Values.antt.
ghost use Rattle.std.specs.Prelude.{◌≡◌};
ghost use Rattle.octets.specs.Words.{holds};
ghost use Rattle.octets.specs.Lists.{every};
ghost use Rattle.octets.specs.Reading.{is_read};
ghost use Rattle.source.specs.Source.{rest};
ghost use Rattle.values.specs.Valid.{is_amount};
ghost use Rattle.jcal.specs.Parameters.{read_truth, read_word_in, is_plain};
ghost use Rattle.read_jcal_parameters.specs.Shapes.{list_at, given_at};
ghost use Rattle.read_jcal_parameters.specs.Values.{row_at, read_typed, is_spelled, good_string, good_value, good_values};

use crate::cursor::cursor_of;
use edition::Edition;
use names::is_word;
use octets::unit::{END, LF, QUOTE};
use read_json::kinds::{is_array, is_none, is_string};
use read_json::{element_at, element_next};
use schema::{
    is_listed_parameter, parameter_has_words, parameter_type, read_word_of_parameter, value_type,
};
use source::{JsonCharacters, quoted_unit};
use values::read_value;

// TRUE or FALSE.
fn is_truth(s: &[u8], at: usize) -> bool
    ensures { result ≡ is_read (read_truth (rest 3 s.now at)) }
{
    let yes = is_word::<JsonCharacters>(s, at, b"TRUE");
    if yes {
        return true;
    }
    is_word::<JsonCharacters>(s, at, b"FALSE")
}

// A value of the type of the parameter of the number `q`: any characters where that is UNKNOWN.
fn is_of_type(q: usize, s: &[u8], at: usize) -> bool
    ensures { result ≡ is_read (read_typed (row_at q) (rest 3 s.now at)) }
{
    let t = parameter_type(q);
    if t == value_type::UNKNOWN {
        return true;
    }
    if t == value_type::BOOLEAN {
        return is_truth(s, at);
    }
    read_value::<JsonCharacters>(true, t, s, at).is_some()
}

// A word of the closed set of the parameter of the number `q`, or a value of its type.
fn is_chosen(q: usize, s: &[u8], at: usize) -> bool
    ensures { result ≡ is_read (read_word_in (row_at q).words (row_at q).type (rest 3 s.now at)) }
{
    let closed = parameter_has_words(q);
    if closed {
        return read_word_of_parameter::<JsonCharacters>(q, true, s, at).is_some();
    }
    is_of_type(q, s, at)
}

// The byte `b` stands among the characters from the cursor on.
pub fn has_byte(b: usize, s: &[u8], at: usize) -> bool
    ensures { result ≡ holds b (rest 3 s.now at) }
{
    let mut c = at;
    loop {
        let n = quoted_unit(s, c);
        let u = n.u;
        if u == END {
            return false;
        }
        if u == b {
            return true;
        }
        c = n.next;
    }
}

// No double quote and no LF.
fn is_plain(s: &[u8], at: usize) -> bool
    ensures { result ≡ is_plain (rest 3 s.now at) }
{
    let quote = has_byte(QUOTE, s, at);
    if quote {
        return false;
    }
    let feed = has_byte(LF, s, at);
    if feed {
        return false;
    }
    true
}

// The edition can spell the characters.
fn is_spelled(edition: Edition, s: &[u8], at: usize) -> bool
    ensures { result ≡ is_spelled edition (rest 3 s.now at) }
{
    match edition {
        Edition::Rfc5545 => is_plain(s, at),
        Edition::Rfc6868 => true,
    }
}

// The characters are a value of the parameter, and the edition can spell them.
fn is_good(edition: Edition, q: usize, s: &[u8], at: usize) -> bool
    ensures { result ≡ good_string edition (row_at q) (rest 3 s.now at) }
{
    let chosen = is_chosen(q, s, at);
    if chosen {
        return is_spelled(edition, s, at);
    }
    false
}

// The elements of an array from `at` on are such strings.
fn are_all_good(edition: Edition, q: usize, s: &[u8], at: usize) -> bool
    ensures { result ≡ every (good_value edition (row_at q)) (list_at s.now at) }
{
    let mut c = at;
    loop {
        let h = element_at(s, c);
        let kind = h.kind;
        let string = is_string(kind);
        if string {
            let k = cursor_of(s, h.place);
            let good = is_good(edition, q, s, k);
            if good {
                c = h.next;
            } else {
                return false;
            }
        } else {
            return is_none(kind);
        }
    }
}

// There is an element, and one only unless the parameter takes a list.
fn is_amount(q: usize, s: &[u8], at: usize) -> bool
    ensures { result ≡ is_amount (row_at q).listed (list_at s.now at) }
{
    let h = element_at(s, at);
    let kind = h.kind;
    let none = is_none(kind);
    if none {
        return false;
    }
    let listed = is_listed_parameter(q);
    if listed {
        return true;
    }
    let next = element_next(s, h);
    let g = element_at(s, next);
    let last = g.kind;
    is_none(last)
}

// What stands from `at` on is the values of the parameter.
pub fn are_good(edition: Edition, q: usize, s: &[u8], at: usize) -> bool
    ensures { result ≡ good_values edition (row_at q) (given_at s.now at) }
{
    let h = element_at(s, at);
    let kind = h.kind;
    let array = is_array(kind);
    if array {
        let good = are_all_good(edition, q, s, h.next);
        if good {
            return is_amount(q, s, h.next);
        }
        return false;
    }
    let string = is_string(kind);
    if string {
        let k = cursor_of(s, h.place);
        return is_good(edition, q, s, k);
    }
    false
}
