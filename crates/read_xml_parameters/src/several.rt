// All values of a parameter: the elements of a content. See specs/Several.antt.
ghost use Rattle.std.specs.Prelude.{◌≡◌, ◌≤◌, length};
ghost use Rattle.octets.specs.Ascii.{ascii};
ghost use Rattle.xcal.specs.ParameterNodes.{are_plain, are_spelled};
ghost use Rattle.xml.specs.NodesAt.{nodes_at};
ghost use Rattle.read_xml_parameters.specs.Rows.{row_at};
ghost use Rattle.read_xml_parameters.specs.Several.{all_values, is_single, good_by, first_is};

use crate::children::next_child;
use crate::leaf::{cursor_of, has_byte, is_value};
use edition::Edition;
use names::is_word;
use octets::is_space;
use octets::unit::{LF, QUOTE};
use read_xml_nodes::{NodeKind, has_element, next_node};
use schema::is_listed_parameter;
use source::XmlCharacters;

// The content from `at` on is values of the parameter of the number `q`, and white space.
pub fn are_values(q: usize, s: &[u8], at: usize) -> bool
    requires { length s.now ≤ 65535 }
    ensures { result ≡ all_values (row_at q) (nodes_at s.now at) }
{
    let mut c = at;
    loop {
        let n = next_node(s, c);
        let kind = n.kind;
        match kind {
            NodeKind::Absent => {
                return true;
            }
            NodeKind::Element => {
                let a = n.name;
                let e = n.name_end;
                let value = is_value(q, &s[a..e], s, n.inside);
                if value {
                    c = n.next;
                } else {
                    return false;
                }
            }
            NodeKind::Literal => {
                let space = is_space(n.unit);
                if space {
                    c = n.next;
                } else {
                    return false;
                }
            }
            NodeKind::Referred => {
                return false;
            }
        }
    }
}

// There is one element at most.
fn is_single(s: &[u8], at: usize) -> bool
    ensures { result ≡ is_single (nodes_at s.now at) }
{
    let n = next_child(s, at);
    if n.there {
        let more = has_element(s, n.next);
        if more {
            return false;
        }
        return true;
    }
    true
}

// The content is the values of the parameter: one, unless the parameter is listed.
pub fn are_good(q: usize, s: &[u8], at: usize) -> bool
    requires { length s.now ≤ 65535 }
    ensures { result ≡ good_by (row_at q) (nodes_at s.now at) }
{
    let values = are_values(q, s, at);
    if values {
        let listed = is_listed_parameter(q);
        if listed {
            return true;
        }
        return is_single(s, at);
    }
    false
}

// The first value, if there is one, is BASE64.
pub fn is_base64(s: &[u8], at: usize) -> bool
    requires { length s.now ≤ 65535 }
    ensures { result ≡ first_is (ascii "BASE64") (nodes_at s.now at) }
{
    let n = next_child(s, at);
    if n.there {
        let c = cursor_of(s, n.inside);
        return is_word::<XmlCharacters>(s, c, b"BASE64");
    }
    true
}

// No value holds a double quote or LF.
fn are_plain(s: &[u8], at: usize) -> bool
    requires { length s.now ≤ 65535 }
    ensures { result ≡ are_plain (nodes_at s.now at) }
{
    let mut c = at;
    loop {
        let n = next_child(s, c);
        if n.there {
            let k = cursor_of(s, n.inside);
            let quote = has_byte(QUOTE, s, k);
            if quote {
                return false;
            }
            let feed = has_byte(LF, s, k);
            if feed {
                return false;
            }
            c = n.next;
        } else {
            return true;
        }
    }
}

// The edition can spell the values.
pub fn are_spelled(edition: Edition, s: &[u8], at: usize) -> bool
    requires { length s.now ≤ 65535 }
    ensures { result ≡ are_spelled edition (nodes_at s.now at) }
{
    match edition {
        Edition::Rfc5545 => are_plain(s, at),
        Edition::Rfc6868 => true,
    }
}
