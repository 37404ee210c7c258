// The verdict on the elements of a property's parameters. See specs/Told.antt.
ghost use Rattle.std.specs.Prelude.{◌≡◌, true, false, List, [], ℕ, ◌≤◌, length};
ghost use Rattle.names.specs.Table.{place_of};
ghost use Rattle.schema.specs.Properties.{property_names};
ghost use Rattle.schema.specs.Numbers.{type_at};
ghost use Rattle.schema.specs.Coded.{row_at};
ghost use Rattle.xcal.specs.ParameterNodes.{bad_name, parameters_verdict};
ghost use Rattle.xml.specs.NodesAt.{nodes_at};
ghost use Rattle.refusals.specs.Fault.{judged_as};
ghost use Rattle.read_xml_parameters.specs.Seen.{is_before};
ghost use Rattle.read_xml_parameters.specs.Sound.{encoded_by, sound_by};
ghost use Rattle.read_xml_parameters.specs.Told.{against_by, verdict_at};

use crate::children::next_child;
use crate::fresh::known_fresh;
use crate::several::{are_good, are_spelled, is_base64};
use edition::Edition;
use names::is_word;
use octets::is_space;
use read_text_line::is_carried_name;
use read_xml_nodes::{NodeKind, has_capital, has_element, next_node};
use refusals::{Fault, Refusal};
use schema::{Row, parameter, parameter_number, permits_parameter, value_type};
use source::Plain;

// The name has capitals, begins with `xml`, a digit or a hyphen, or is `value`.
fn is_bad_name(w: &[u8]) -> bool
    ensures { result ≡ bad_name w.now }
{
    let capital = has_capital(w, 0, w.len());
    if capital {
        return true;
    }
    let carried = is_carried_name::<Plain>(w, 0);
    if carried {
        return is_word::<Plain>(w, 0, b"value");
    }
    true
}

// An element of the name `w` stands from `from` on, before the place `at`.
fn is_before(s: &[u8], from: usize, at: usize, w: &[u8]) -> bool
    ensures { result ≡ is_before w.now at (nodes_at s.now from) }
{
    let mut c = from;
    loop {
        let n = next_child(s, c);
        if n.there {
            if n.place < at {
                let a = n.name;
                let e = n.name_end;
                let again = is_word::<Plain>(&s[a..e], 0, w);
                if again {
                    return true;
                }
                c = n.next;
            } else {
                return false;
            }
        } else {
            return false;
        }
    }
}

// The same; `fresh` says that there is none.
fn is_again(s: &[u8], from: usize, at: usize, w: &[u8], fresh: bool) -> bool
    requires { fresh ≡ true → is_before w.now at (nodes_at s.now from) ≡ false }
    ensures { result ≡ is_before w.now at (nodes_at s.now from) }
{
    if fresh {
        return false;
    }
    is_before(s, from, at, w)
}

// Where the type of the number `t` is BINARY, and the parameter of the number `q` is ENCODING, its value is BASE64.
fn is_encoded(q: usize, t: usize, s: &[u8], inside: usize) -> bool
    requires { length s.now ≤ 65535 }
    ensures { result ≡ encoded_by q t (nodes_at s.now inside) }
{
    if q == parameter::ENCODING {
        if t == value_type::BINARY {
            return is_base64(s, inside);
        }
        return true;
    }
    true
}

// The parameter is permitted, and its values are good.
fn is_sound(edition: Edition, row: Row, t: usize, q: usize, s: &[u8], inside: usize) -> bool
    requires { length s.now ≤ 65535 }
    ensures { result ≡ sound_by edition row t q (nodes_at s.now inside) }
{
    let permitted = permits_parameter(row, t, q);
    if permitted {
        let good = are_good(q, s, inside);
        if good {
            let encoded = is_encoded(q, t, s, inside);
            if encoded {
                return are_spelled(edition, s, inside);
            }
            return false;
        }
        return false;
    }
    false
}

// The parameter of the name `w` at the place `at` stood before, or is not sound.
fn is_against(
    edition: Edition,
    row: Row,
    t: usize,
    s: &[u8],
    from: usize,
    at: usize,
    w: &[u8],
    inside: usize,
    fresh: bool,
) -> bool
    requires { (length s.now ≤ 65535) × (fresh ≡ true → is_before w.now at (nodes_at s.now from) ≡ false) }
    ensures { result
        ≡ against_by edition (is_before w.now at (nodes_at s.now from)) row t w.now
        (nodes_at s.now inside) }
{
    let again = is_again(s, from, at, w, fresh);
    if again {
        return true;
    }
    let q = parameter_number::<Plain>(w, 0);
    let sound = is_sound(edition, row, t, q, s, inside);
    if sound {
        return false;
    }
    true
}

// The verdict on the parameter of the name `w` at the tags `at` and `end`; `fresh` says that no parameter before it has the name.
fn judge(
    edition: Edition,
    row: Row,
    t: usize,
    s: &[u8],
    from: usize,
    at: usize,
    w: &[u8],
    end: usize,
    inside: usize,
    fresh: bool,
) -> Result<(), Fault>
    requires { (length s.now ≤ 65535) × (fresh ≡ true → is_before w.now at (nodes_at s.now from) ≡ false) }
    ensures { verdict_at edition row t s.now from at w.now end (nodes_at s.now inside)
        ≡ judged_as result }
{
    if is_bad_name(w) {
        return Err(Refusal::Name.at(at));
    }
    if at == end {
        return Err(Refusal::Frame.at(at));
    }
    if is_against(edition, row, t, s, from, at, w, inside, fresh) {
        return Err(Refusal::Parameter.at(at));
    }
    if has_element(s, inside) {
        Ok(())
    } else {
        Err(Refusal::Frame.at(end))
    }
}

// The verdict on the parameters whose content begins at `inside`, of the property of the row with a value of the type of the number `t`.
pub fn parameters_verdict(
    edition: Edition,
    row: Row,
    t: usize,
    s: &[u8],
    inside: usize,
) -> Result<(), Fault>
    requires { length s.now ≤ 65535 }
    ensures { (w : List ℕ) →
        row ≡ row_at (place_of w property_names) →
        t ≤ 14 →
        judged_as result ≡ parameters_verdict edition w (type_at t) (nodes_at s.now inside) [] }
{
    let mut c = inside;
    let mut i = 0;
    let mut fresh = 0;
    'nodes: loop {
        let n = next_node(s, c);
        match n.kind {
            NodeKind::Absent => {
                return Ok(());
            }
            NodeKind::Element => {
                fresh = known_fresh(s, inside, i, fresh);
                judge(
                    edition,
                    row,
                    t,
                    s,
                    inside,
                    c,
                    &s[n.name..n.name_end],
                    n.end,
                    n.inside,
                    i < fresh,
                )?;
                c = n.next;
                i += 1;
            }
            NodeKind::Literal => {
                if is_space(n.unit) {
                    c = n.next;
                } else {
                    return Err(Refusal::Frame.at(c));
                }
            }
            NodeKind::Referred => {
                return Err(Refusal::Frame.at(c));
            }
        }
    }
}
