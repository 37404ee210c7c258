// GEO and REQUEST-STATUS, which have elements of their own. See specs/Own.antt.
ghost use Rattle.std.specs.Prelude.{◌≤◌, length};
ghost use Rattle.octets.specs.Ascii.{ascii};
ghost use Rattle.octets.specs.Append.{◌⊕◌};
ghost use Rattle.sink.specs.Sink.{Put};
ghost use Rattle.numbers.specs.Float.{write_float};
ghost use Rattle.texts.specs.Text.{write_text};
ghost use Rattle.values.specs.WriteValue.{write_value};
ghost use Rattle.xml.specs.Nodes.{characters_of};
ghost use Rattle.xcal.specs.ValueNodes.{child_named, text_of, float_of};
ghost use Rattle.xml.specs.NodesAt.{nodes_at};
ghost use Rattle.write_text_values.specs.Own.{data_text, geo_of, status_of};

use crate::child::{child_inside, find_child};
use markup::element;
use numbers::float::{put_float, read_float};
use sink::put_all;
use source::XmlCharacters;
use texts::put_text_escaped;

// The FLOAT in the child of a name; 0 where there is none.
fn put_coordinate(out: &mut [u8], o: usize, s: &[u8], inside: usize, name: &[u8]) -> usize
    requires { length s.now ≤ 65535 }
    ensures { Put out.old out.new o result
        (write_float (float_of name.now (nodes_at s.now inside))) }
{
    let i = child_inside(s, inside, name);
    match read_float::<XmlCharacters>(s, 2 * i) {
        Some(_) => put_float::<XmlCharacters>(out, o, s, 2 * i),
        None => put_all(out, o, b"0"),
    }
}

pub fn put_geo(out: &mut [u8], o: usize, s: &[u8], inside: usize) -> usize
    requires { length s.now ≤ 65535 }
    ensures { Put out.old out.new o result (write_value (geo_of (nodes_at s.now inside))) }
{
    let a = put_coordinate(out, o, s, inside, &element::LATITUDE);
    let b = put_all(out, a, b";");
    put_coordinate(out, b, s, inside, &element::LONGITUDE)
}

// The text in the child of a name.
fn put_child_text(out: &mut [u8], o: usize, s: &[u8], inside: usize, name: &[u8]) -> usize
    requires { length s.now ≤ 65535 }
    ensures { Put out.old out.new o result
        (write_text (text_of name.now (nodes_at s.now inside))) }
{
    let i = child_inside(s, inside, name);
    put_text_escaped::<XmlCharacters>(out, o, s, 2 * i)
}

// The data behind its semicolon, content of a child that begins at `i`.
fn put_data_text(out: &mut [u8], o: usize, s: &[u8], i: usize) -> usize
    requires { (length s.now ≤ 65535) × (i ≤ length s.now) }
    ensures { Put out.old out.new o result
        (ascii ";" ⊕ write_text (characters_of (nodes_at s.now i))) }
{
    let a = put_all(out, o, b";");
    put_text_escaped::<XmlCharacters>(out, a, s, 2 * i)
}

// The data, if it is there.
fn put_data(out: &mut [u8], o: usize, s: &[u8], inside: usize) -> usize
    requires { length s.now ≤ 65535 }
    ensures { Put out.old out.new o result
        (data_text (child_named (ascii "data") (nodes_at s.now inside))) }
{
    match find_child(s, inside, &element::DATA) {
        Some(i) => put_data_text(out, o, s, i),
        None => o,
    }
}

pub fn put_status(out: &mut [u8], o: usize, s: &[u8], inside: usize) -> usize
    requires { length s.now ≤ 65535 }
    ensures { Put out.old out.new o result (write_value (status_of (nodes_at s.now inside))) }
{
    let a = put_child_text(out, o, s, inside, &element::CODE);
    let b = put_all(out, a, b";");
    let c = put_child_text(out, b, s, inside, &element::DESCRIPTION);
    put_data(out, c, s, inside)
}
