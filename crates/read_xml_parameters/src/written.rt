// The parameters of a property as text. See specs/Written.antt and specs/Listed.antt.
ghost use Rattle.std.specs.Prelude.{◌≡◌, false, map, ◌≤◌, length};
ghost use Rattle.octets.specs.Append.{joined};
ghost use Rattle.sink.specs.Sink.{Put};
ghost use Rattle.source.specs.Source.{rest};
ghost use Rattle.read_text_line.specs.Write.{write_parameter};
ghost use Rattle.read_text_line.specs.Decoded.{encoded_parameter};
ghost use Rattle.text.specs.WriteText.{raw_of};
ghost use Rattle.xml.specs.Nodes.{characters_of};
ghost use Rattle.xcal.specs.ParameterNodes.{read_parameter_nodes};
ghost use Rattle.xml.specs.NodesAt.{nodes_at};
ghost use Rattle.read_xml_parameters.specs.Rows.{row_at};
ghost use Rattle.read_xml_parameters.specs.Written.{truth_shown, plain_shown, value_shown, item_shown, list_shown, values_shown, quoted_at};
ghost use Rattle.read_xml_parameters.specs.Listed.{parameter_shown};

use crate::children::next_child;
use crate::leaf::{cursor_of, has_byte};
use crate::several::are_values;
use edition::Edition;
use numbers::boolean::{put_boolean, read_boolean};
use octets::unit::{COLON, COMMA, SEMICOLON};
use read_text_line::{put_param_name, put_param_value};
use schema::{is_quoted_parameter, parameter_number, parameter_type, value_type};
use sink::put;
use source::{Plain, XmlCharacters};

// A value of the parameter of the number `q` stands between quotes.
fn is_quoted(q: usize, s: &[u8], at: usize) -> bool
    ensures { result ≡ quoted_at q (rest 1 s.now at) }
{
    let always = is_quoted_parameter(q);
    if always {
        return true;
    }
    let colon = has_byte(COLON, s, at);
    if colon {
        return true;
    }
    let semicolon = has_byte(SEMICOLON, s, at);
    if semicolon {
        return true;
    }
    has_byte(COMMA, s, at)
}

// TRUE or FALSE.
fn put_truth(out: &mut [u8], o: usize, s: &[u8], at: usize) -> usize
    ensures { Put out.old out.new o result (truth_shown (rest 1 s.now at)) }
{
    match read_boolean::<XmlCharacters>(true, s, at) {
        Some(b) => put_boolean(out, o, false, b),
        None => o,
    }
}

// The characters as they stand.
fn put_plain(out: &mut [u8], o: usize, edition: Edition, q: usize, s: &[u8], at: usize) -> usize
    ensures { Put out.old out.new o result
        (plain_shown edition (row_at q).quoted (rest 1 s.now at)) }
{
    let quoted = is_quoted(q, s, at);
    put_param_value::<XmlCharacters>(out, o, edition, quoted, s, at)
}

// The value whose content begins at `inside`.
fn put_value(out: &mut [u8], o: usize, edition: Edition, q: usize, s: &[u8], inside: usize) -> usize
    requires { (length s.now ≤ 65535) × (inside ≤ length s.now) }
    ensures { Put out.old out.new o result
        (value_shown edition (row_at q) (characters_of (nodes_at s.now inside))) }
{
    let c = cursor_of(s, inside);
    let t = parameter_type(q);
    if t == value_type::BOOLEAN {
        return put_truth(out, o, s, c);
    }
    put_plain(out, o, edition, q, s, c)
}

// The same, with a comma before it where it is a later one.
fn put_item(
    out: &mut [u8],
    o: usize,
    edition: Edition,
    later: bool,
    q: usize,
    s: &[u8],
    inside: usize,
) -> usize
    requires { (length s.now ≤ 65535) × (inside ≤ length s.now) }
    ensures { Put out.old out.new o result
        (item_shown edition (row_at q) later (characters_of (nodes_at s.now inside))) }
{
    if later {
        let a = put(out, o, b',');
        return put_value(out, a, edition, q, s, inside);
    }
    put_value(out, o, edition, q, s, inside)
}

// All values from `at` on.
fn put_list(out: &mut [u8], o: usize, edition: Edition, q: usize, s: &[u8], at: usize) -> usize
    requires { length s.now ≤ 65535 }
    ensures { Put out.old out.new o result
        (list_shown edition (row_at q) false (nodes_at s.now at)) }
{
    let mut p = o;
    let mut later = false;
    let mut c = at;
    loop {
        let n = next_child(s, c);
        if n.there {
            p = put_item(out, p, edition, later, q, s, n.inside);
            later = true;
            c = n.next;
        } else {
            return p;
        }
    }
}

// The same; nothing where they are not all values.
fn put_values(out: &mut [u8], o: usize, edition: Edition, q: usize, s: &[u8], at: usize) -> usize
    requires { length s.now ≤ 65535 }
    ensures { Put out.old out.new o result
        (values_shown edition (row_at q) (nodes_at s.now at)) }
{
    let values = are_values(q, s, at);
    if values {
        return put_list(out, o, edition, q, s, at);
    }
    o
}

// The parameter of the name `w`.
fn put_parameter(
    out: &mut [u8],
    o: usize,
    edition: Edition,
    w: &[u8],
    s: &[u8],
    inside: usize,
) -> usize
    requires { length s.now ≤ 65535 }
    ensures { Put out.old out.new o result
        (parameter_shown edition w.now (nodes_at s.now inside)) }
{
    let q = parameter_number::<Plain>(w, 0);
    let a = put_param_name::<Plain>(out, o, w, 0);
    put_values(out, a, edition, q, s, inside)
}

// The parameters whose content begins at `inside`, as they stand in a content line.
pub fn put_parameters(out: &mut [u8], o: usize, edition: Edition, s: &[u8], inside: usize) -> usize
    requires { length s.now ≤ 65535 }
    ensures { Put out.old out.new o result
        (joined (map write_parameter (map (encoded_parameter edition) (map raw_of
        (read_parameter_nodes (nodes_at s.now inside)))))) }
{
    let mut p = o;
    let mut c = inside;
    'children: loop {
        let n = next_child(s, c);
        if n.there {
            let a = n.name;
            let e = n.name_end;
            p = put_parameter(out, p, edition, &s[a..e], s, n.inside);
            c = n.next;
        } else {
            return p;
        }
    }
}
