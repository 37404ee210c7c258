// The parameters of a property as text. See specs/Written.antt.
ghost use Rattle.std.specs.Prelude.{◌≡◌, false, [], map, ◌<◌, length};
ghost use Rattle.octets.specs.Append.{joined};
ghost use Rattle.octets.specs.Lists.{every};
ghost use Rattle.octets.specs.Reading.{read_or};
ghost use Rattle.sink.specs.Sink.{Put};
ghost use Rattle.source.specs.Source.{rest};
ghost use Rattle.read_text_line.specs.Write.{write_parameter};
ghost use Rattle.read_text_line.specs.Decoded.{encoded_parameter};
ghost use Rattle.text.specs.WriteText.{raw_of};
ghost use Rattle.json_text.specs.Tree.{member_list};
ghost use Rattle.jcal.specs.Parameters.{read_parameters};
ghost use Rattle.read_json.specs.TreeAt.{members_at, string_at};
ghost use Rattle.read_jcal_parameters.specs.Shapes.{list_at, given_at, parameters_at};
ghost use Rattle.read_jcal_parameters.specs.Values.{row_at};
ghost use Rattle.read_jcal_parameters.specs.Written.{quoted_at, plain_shown, item_shown, list_shown, is_read_by, is_read_member, member_shown, members_shown};

use crate::cursor::cursor_of;
use crate::several::{are_good, has_byte};
use edition::Edition;
use octets::unit::{COLON, COMMA, SEMICOLON};
use read_json::kinds::{is_array, is_string};
use read_json::{element_at, member_at};
use read_text_line::{put_param_name, put_param_value};
use schema::{is_quoted_parameter, parameter_number};
use sink::put;
use source::JsonCharacters;

// A value of the parameter of the number `q` stands between quotes.
fn is_quoted(q: usize, s: &[u8], at: usize) -> bool
    ensures { result ≡ quoted_at (row_at q) (rest 3 s.now at) }
{
    is_quoted_parameter(q)
        || has_byte(COLON, s, at)
        || has_byte(SEMICOLON, s, at)
        || has_byte(COMMA, s, at)
}

// The value whose characters stand from the cursor on.
fn put_plain(out: &mut [u8], o: usize, edition: Edition, q: usize, s: &[u8], at: usize) -> usize
    ensures { Put out.old out.new o result (plain_shown edition (row_at q) (rest 3 s.now at)) }
{
    let quoted = is_quoted(q, s, at);
    put_param_value::<JsonCharacters>(out, o, edition, quoted, s, at)
}

// The same, with a comma before it where it is a later one.
fn put_item(
    out: &mut [u8],
    o: usize,
    edition: Edition,
    later: bool,
    q: usize,
    s: &[u8],
    at: usize,
) -> usize
    ensures { Put out.old out.new o result (item_shown edition (row_at q) later (rest 3 s.now at)) }
{
    if later {
        let a = put(out, o, b',');
        return put_plain(out, a, edition, q, s, at);
    }
    put_plain(out, o, edition, q, s, at)
}

// The strings from `at` on, up to an element that is none.
fn put_list(out: &mut [u8], o: usize, edition: Edition, q: usize, s: &[u8], at: usize) -> usize
    ensures { Put out.old out.new o result
        (list_shown edition (row_at q) false (list_at s.now at)) }
{
    let mut p = o;
    let mut later = false;
    let mut c = at;
    loop {
        let h = element_at(s, c);
        let kind = h.kind;
        let string = is_string(kind);
        if string {
            let k = cursor_of(s, h.place);
            p = put_item(out, p, edition, later, q, s, k);
            later = true;
            c = h.next;
        } else {
            return p;
        }
    }
}

// The values that stand from `at` on.
fn put_values(out: &mut [u8], o: usize, edition: Edition, q: usize, s: &[u8], at: usize) -> usize
    ensures { Put out.old out.new o result
        (list_shown edition (row_at q) false (given_at s.now at)) }
{
    let h = element_at(s, at);
    let kind = h.kind;
    let array = is_array(kind);
    if array {
        return put_list(out, o, edition, q, s, h.next);
    }
    let string = is_string(kind);
    if string {
        let k = cursor_of(s, h.place);
        return put_plain(out, o, edition, q, s, k);
    }
    o
}

// The parameter whose name stands at `place`, and its values from `at` on.
fn put_parameter(
    out: &mut [u8],
    o: usize,
    edition: Edition,
    s: &[u8],
    place: usize,
    at: usize,
) -> usize
    requires { place < length s.now }
    ensures { Put out.old out.new o result
        (member_shown edition (string_at s.now place) (given_at s.now at)) }
{
    let k = cursor_of(s, place);
    let q = parameter_number::<JsonCharacters>(s, k);
    let a = put_param_name::<JsonCharacters>(out, o, s, k);
    put_values(out, a, edition, q, s, at)
}

// All parameters from `from` on.
fn put_members(out: &mut [u8], o: usize, edition: Edition, s: &[u8], from: usize) -> usize
    ensures { Put out.old out.new o result (members_shown edition (parameters_at s.now from)) }
{
    let mut p = o;
    let mut c = from;
    while let Some(m) = member_at(s, c) {
        p = put_parameter(out, p, edition, s, m.name, m.next);
        c = m.next;
    }
    p
}

// The parameter whose name stands at `place` can be read.
fn is_read(s: &[u8], place: usize, at: usize) -> bool
    requires { place < length s.now }
    ensures { result ≡ is_read_by (string_at s.now place) (given_at s.now at) }
{
    let k = cursor_of(s, place);
    let q = parameter_number::<JsonCharacters>(s, k);
    are_good(Edition::Rfc6868, q, s, at)
}

// All parameters from `from` on can be read.
fn are_read(s: &[u8], from: usize) -> bool
    ensures { result ≡ every is_read_member (parameters_at s.now from) }
{
    let mut c = from;
    while let Some(m) = member_at(s, c) {
        if !is_read(s, m.name, m.next) {
            return false;
        }
        c = m.next;
    }
    true
}

// The parameters from `from` on, as they stand in a content line; nothing where one of them can't be read.
pub fn put_parameters(out: &mut [u8], o: usize, edition: Edition, s: &[u8], from: usize) -> usize
    ensures { Put out.old out.new o result
        (joined (map write_parameter (map (encoded_parameter edition) (map raw_of
        (read_or [] (read_parameters (member_list (members_at s.now from)))))))) }
{
    let read = are_read(s, from);
    if read {
        return put_members(out, o, edition, s, from);
    }
    o
}
