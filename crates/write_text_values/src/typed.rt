// Values in elements that are named as their type. See specs/Typed.antt.
ghost use Rattle.std.specs.Prelude.{◌≡◌, [], ◌∷◌, ◌≤◌, length};
ghost use Rattle.octets.specs.Pick.{pick};
ghost use Rattle.octets.specs.Append.{◌⊕◌};
ghost use Rattle.calendar.specs.Calendar.{type_of};
ghost use Rattle.sink.specs.Sink.{Put};
ghost use Rattle.schema.specs.Numbers.{type_at};
ghost use Rattle.values.specs.WriteValue.{write_value, write_values, type_of_all};
ghost use Rattle.xcal.specs.ValueNodes.{value_of, typed_values};
ghost use Rattle.xml.specs.NodesAt.{nodes_at};
ghost use Rattle.write_text_values.specs.Typed.{TypedAt};

use crate::period::put_period;
use crate::rule::put_rule;
use read_xml_nodes::{NodeKind, node_end, node_head};
use read_xml_value::element_type;
use schema::value_type;
use source::XmlCharacters;
use values::read_value;
use write_text_pieces::{put_between, put_leaf};

// A value's element: the number of its type, where its content begins, whether its tag opens it, and the place behind the tag.
#[derive(Clone, Copy, Debug, PartialEq, Eq)]
pub struct Typed {
    pub value_type: usize,
    pub inside: usize,
    pub opens: bool,
    pub next: usize,
}

// The first element, from `at` on, that is named as a type.
fn find_typed(s: &[u8], at: usize) -> Option<Typed>
    ensures { TypedAt s.now at result }
{
    let mut c = at;
    'values: loop {
        let n = node_head(s, c);
        match n.kind {
            NodeKind::Absent => return None,
            NodeKind::Element => {
                if let Some(value_type) = element_type(s, n.name, n.name_end) {
                    return Some(Typed {
                        value_type,
                        inside: n.inside,
                        opens: n.opens,
                        next: n.next,
                    });
                }
                c = node_end(s, c, n.opens, n.next).next;
            }
            NodeKind::Literal | NodeKind::Referred => c = n.next,
        }
    }
}

// The value of the type of the number `t` whose content begins at `i`.
fn put_value(out: &mut [u8], o: usize, t: usize, s: &[u8], i: usize) -> usize
    requires { (length s.now ≤ 65535) × (i ≤ length s.now) × (t ≤ 14) }
    ensures { Put out.old out.new o result (write_value (value_of (type_at t) (nodes_at s.now i))) }
{
    if t == value_type::PERIOD {
        return put_period(out, o, s, i);
    }
    if t == value_type::RECUR {
        return put_rule(out, o, s, i);
    }
    put_leaf::<XmlCharacters>(out, o, t, s, 2 * i)
}

// A value, behind a comma where it is not the first.
fn put_one_value(out: &mut [u8], o: usize, started: bool, t: usize, s: &[u8], i: usize) -> usize
    requires { (length s.now ≤ 65535) × (i ≤ length s.now) × (t ≤ 14) }
    ensures { Put out.old out.new o result
        (pick started (44 ∷ []) [] ⊕ write_value (value_of (type_at t) (nodes_at s.now i))) }
{
    let a = put_between(out, o, started, b',');
    put_value(out, a, t, s, i)
}

// All of them.
pub fn put_typed(out: &mut [u8], o: usize, s: &[u8], inside: usize) -> usize
    requires { length s.now ≤ 65535 }
    ensures { Put out.old out.new o result (write_values (typed_values (nodes_at s.now inside))) }
{
    let mut q = o;
    let mut c = inside;
    let mut started = false;
    while let Some(value) = find_typed(s, c) {
        q = put_one_value(out, q, started, value.value_type, s, value.inside);
        started = true;
        c = node_end(s, c, value.opens, value.next).next;
    }
    q
}

// The number of the type of what is stated as the type of the number `t`: what can't be read counts as a TEXT.
fn type_of_value(t: usize, s: &[u8], i: usize) -> usize
    requires { (length s.now ≤ 65535) × (i ≤ length s.now) × (t ≤ 14) }
    ensures { (type_at result ≡ type_of (value_of (type_at t) (nodes_at s.now i))) × (result ≤ 14) }
{
    if t == value_type::PERIOD {
        return value_type::PERIOD;
    }
    if t == value_type::RECUR {
        return value_type::RECUR;
    }
    match read_value::<XmlCharacters>(true, t, s, 2 * i) {
        Some(_) => t,
        None => value_type::TEXT,
    }
}

// The number of the type of the first one, UNKNOWN where there is none.
pub fn type_of_typed(s: &[u8], inside: usize) -> usize
    requires { length s.now ≤ 65535 }
    ensures { (type_at result ≡ type_of_all (typed_values (nodes_at s.now inside))) × (result ≤ 14) }
{
    match find_typed(s, inside) {
        Some(value) => type_of_value(value.value_type, s, value.inside),
        None => value_type::UNKNOWN,
    }
}
