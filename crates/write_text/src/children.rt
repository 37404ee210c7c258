// Children by their names. See specs/Children.antt, Parameters.antt.
ghost use Rattle.std.specs.Prelude.{◌≡◌, ◌≤◌, length};
ghost use Rattle.octets.specs.Ascii.{ascii};
ghost use Rattle.octets.specs.Words.{same, is_one_of};
ghost use Rattle.source.specs.Source.{rest};
ghost use Rattle.xcal.specs.ValueNodes.{geo_elements, status_elements};
ghost use Rattle.write_text.specs.Children.{InsideAt, name_in};
ghost use Rattle.write_text.specs.Parameters.{value_names, ParametersAt};

use markup::{element, table};
use names::{find_word, is_word};
use read_xml_nodes::{NodeKind, node_end, node_head};
use schema::{property, value_type};
use source::Plain;

// The name from `name` to `end` is `w`.
fn is_named(s: &[u8], name: usize, end: usize, w: &[u8]) -> bool
    requires { end ≤ length s.now }
    ensures { result ≡ same (name_in s.now name end) w.now }
{
    is_word::<Plain>(&s[..end], name, w)
}

// It is `parameters`.
fn is_parameters(s: &[u8], name: usize, end: usize) -> bool
    requires { end ≤ length s.now }
    ensures { result ≡ same (name_in s.now name end) (ascii "parameters") }
{
    is_named(s, name, end, &element::PARAMETERS)
}

// Where the content of the first element named `w` from `from` on begins; the end of the bytes where there is none.
pub fn inside_of(s: &[u8], from: usize, w: &[u8]) -> usize
    ensures { InsideAt w.now s.now from result }
{
    let mut at = from;
    loop {
        let n = node_head(s, at);
        match n.kind {
            NodeKind::Absent => {
                return s.len();
            }
            NodeKind::Element => {
                let here = is_named(s, n.name, n.name_end, w);
                if here {
                    return n.inside;
                }
                let e = node_end(s, at, n.opens, n.next);
                at = e.next;
            }
            NodeKind::Literal => {
                at = n.next;
            }
            NodeKind::Referred => {
                at = n.next;
            }
        }
    }
}

// The word is the name of an element of GEO's value.
fn is_geo_name(s: &[u8], at: usize) -> bool
    ensures { result ≡ is_one_of (rest 0 s.now at) geo_elements }
{
    let latitude = is_word::<Plain>(s, at, &element::LATITUDE);
    if latitude {
        return true;
    }
    is_word::<Plain>(s, at, &element::LONGITUDE)
}

// The same of REQUEST-STATUS's value.
fn is_status_name(s: &[u8], at: usize) -> bool
    ensures { result ≡ is_one_of (rest 0 s.now at) status_elements }
{
    let code = is_word::<Plain>(s, at, &element::CODE);
    if code {
        return true;
    }
    let description = is_word::<Plain>(s, at, &element::DESCRIPTION);
    if description {
        return true;
    }
    is_word::<Plain>(s, at, &element::DATA)
}

// The word is the name of a child that belongs to the value of the property of the number `p`.
fn is_value_name(p: usize, s: &[u8], at: usize) -> bool
    ensures { result ≡ is_one_of (rest 0 s.now at) (value_names p) }
{
    if p == property::GEO {
        return is_geo_name(s, at);
    }
    if p == property::REQUEST_STATUS {
        return is_status_name(s, at);
    }
    let t = find_word::<Plain>(true, s, at, &table::TYPES);
    t <= value_type::UNKNOWN
}

// The same of the name from `name` to `end`.
fn is_value_named(p: usize, s: &[u8], name: usize, end: usize) -> bool
    requires { end ≤ length s.now }
    ensures { result ≡ is_one_of (name_in s.now name end) (value_names p) }
{
    is_value_name(p, &s[..end], name)
}

// Where the content of `parameters` begins, of the property of the number `p` whose content begins at `from`; the end of the bytes
// where there is none before the value.
pub fn parameters_inside(p: usize, s: &[u8], from: usize) -> usize
    ensures { ParametersAt p s.now from result }
{
    let mut at = from;
    loop {
        let n = node_head(s, at);
        match n.kind {
            NodeKind::Absent => {
                return s.len();
            }
            NodeKind::Element => {
                let here = is_parameters(s, n.name, n.name_end);
                if here {
                    return n.inside;
                }
                let valued = is_value_named(p, s, n.name, n.name_end);
                if valued {
                    return s.len();
                }
                let e = node_end(s, at, n.opens, n.next);
                at = e.next;
            }
            NodeKind::Literal => {
                at = n.next;
            }
            NodeKind::Referred => {
                at = n.next;
            }
        }
    }
}
