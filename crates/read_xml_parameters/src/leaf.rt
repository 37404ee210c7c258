// One value of a parameter: an element of characters. See specs/Leaves.antt.
ghost use Rattle.std.specs.Prelude.{◌≡◌, ◌≤◌, length};
ghost use Rattle.octets.specs.Words.{holds};
ghost use Rattle.octets.specs.Reading.{is_read};
ghost use Rattle.source.specs.Source.{rest};
ghost use Rattle.xml.specs.Nodes.{characters_of};
ghost use Rattle.xcal.specs.ParameterNodes.{read_word_in};
ghost use Rattle.xml.specs.NodesAt.{nodes_at};
ghost use Rattle.read_xml_parameters.specs.Rows.{row_at, read_leaf};
ghost use Rattle.read_xml_parameters.specs.Leaves.{is_value};

use markup::table;
use names::find_word;
use octets::unit::END;
use read_xml_nodes::has_element;
use schema::{parameter_has_words, parameter_type, read_word_of_parameter, value_type};
use source::{Plain, XmlCharacters, xml_unit};
use values::read_value;

// The cursor of the characters of the content that begins at `inside`.
pub fn cursor_of(s: &[u8], inside: usize) -> usize
    requires { (length s.now ≤ 65535) × (inside ≤ length s.now) }
    ensures { rest 1 s.now result ≡ characters_of (nodes_at s.now inside) }
{
    2 * inside
}

// The byte `b` stands among the characters from the cursor on.
pub fn has_byte(b: usize, s: &[u8], at: usize) -> bool
    ensures { result ≡ holds b (rest 1 s.now at) }
{
    let mut c = at;
    loop {
        let n = xml_unit(s, c);
        let u = n.u;
        if u == END {
            return false;
        }
        if u == b {
            return true;
        }
        c = n.next;
    }
}

// A word of the closed set of the parameter of the number `q`, or a value of its type: any characters where that is UNKNOWN.
fn is_chosen(q: usize, s: &[u8], at: usize) -> bool
    ensures { result ≡ is_read (read_word_in (row_at q).words (row_at q).type (rest 1 s.now at)) }
{
    if parameter_has_words(q) {
        return read_word_of_parameter::<XmlCharacters>(q, true, s, at).is_some();
    }
    let t = parameter_type(q);
    if t == value_type::UNKNOWN {
        return true;
    }
    read_value::<XmlCharacters>(true, t, s, at).is_some()
}

// The content that begins at `inside` is a value of the parameter.
fn is_leaf(q: usize, s: &[u8], inside: usize) -> bool
    requires { (length s.now ≤ 65535) × (inside ≤ length s.now) }
    ensures { result ≡ is_read (read_leaf (row_at q) (nodes_at s.now inside)) }
{
    let inner = has_element(s, inside);
    if inner {
        return false;
    }
    let c = cursor_of(s, inside);
    is_chosen(q, s, c)
}

// The element of the name `w` is a value of the parameter.
pub fn is_value(q: usize, w: &[u8], s: &[u8], inside: usize) -> bool
    requires { (length s.now ≤ 65535) × (inside ≤ length s.now) }
    ensures { result ≡ is_value (row_at q) w.now (nodes_at s.now inside) }
{
    let t = parameter_type(q);
    let k = find_word::<Plain>(true, w, 0, &table::TYPES);
    if k == t {
        return is_leaf(q, s, inside);
    }
    false
}
