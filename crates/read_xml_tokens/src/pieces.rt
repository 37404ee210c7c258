// Pieces of markup at a place. Each reader answers the place behind the piece, or one behind the input's end where the piece is missing. See specs/Ends.antt.
ghost use Rattle.std.specs.Prelude.{◌≡◌, length, take};
ghost use Rattle.octets.specs.Class.{lower};
ghost use Rattle.octets.specs.Words.{same};
ghost use Rattle.xml.specs.Pieces.{from, exactly, in_any_case, some_space, any_space, xml_name, equals_sign, quoted};
ghost use Rattle.read_xml_tokens.specs.Ends.{Ends};
ghost use Rattle.read_xml_tokens.specs.Prologue.{attribute};

use names::name_end;
use octets::{is_alpha, is_space, lower_unit, wide};
use source::Plain;
use xml::starts_at;

// The bytes `w`, which has no capitals, are there in any case.
fn lowered_at(s: &[u8], at: usize, w: &[u8]) -> bool
    ensures { result ≡ same (lower (take (length w.now) (from at s.now))) w.now }
{
    let mut c = at;
    let mut i = 0;
    while i < w.len() {
        if c < s.len() {
            let b = wide(s[c]);
            let l = lower_unit(b);
            let t = wide(w[i]);
            if l == t {
                c += 1;
                i += 1;
            } else {
                return false;
            }
        } else {
            return false;
        }
    }
    true
}

pub fn exactly_at(s: &[u8], at: usize, w: &[u8]) -> usize
    ensures { Ends (exactly w.now) s.now at result }
{
    if s.len() < at {
        return at;
    }
    if starts_at(s, at, w) {
        return at + w.len();
    }
    s.len() + 1
}

pub fn any_case_at(s: &[u8], at: usize, w: &[u8]) -> usize
    ensures { Ends (in_any_case w.now) s.now at result }
{
    if s.len() < at {
        return at;
    }
    if lowered_at(s, at, w) {
        return at + w.len();
    }
    s.len() + 1
}

// White space, or none.
pub fn blank_at(s: &[u8], at: usize) -> usize
    ensures { Ends any_space s.now at result }
{
    let mut i = at;
    while i < s.len() {
        let b = wide(s[i]);
        if is_space(b) {
            i += 1;
        } else {
            return i;
        }
    }
    i
}

pub fn space_at(s: &[u8], at: usize) -> usize
    ensures { Ends some_space s.now at result }
{
    if s.len() < at {
        return at;
    }
    let e = blank_at(s, at);
    if e == at {
        return s.len() + 1;
    }
    e
}

pub fn name_at(s: &[u8], at: usize) -> usize
    ensures { Ends xml_name s.now at result }
{
    if s.len() < at {
        return at;
    }
    if at < s.len() {
        let b = wide(s[at]);
        if is_alpha(b) {
            return name_end::<Plain>(s, at);
        }
        return s.len() + 1;
    }
    s.len() + 1
}

fn eq_at(s: &[u8], at: usize) -> usize
    ensures { Ends equals_sign s.now at result }
{
    let a = blank_at(s, at);
    let b = exactly_at(s, a, b"=");
    blank_at(s, b)
}

fn quoted_at(s: &[u8], at: usize, w: &[u8]) -> usize
    ensures { Ends (quoted (exactly w.now)) s.now at result }
{
    let q = exactly_at(s, at, b"\"");
    if q <= s.len() {
        let v = exactly_at(s, q, w);
        return exactly_at(s, v, b"\"");
    }
    let p = exactly_at(s, at, b"'");
    let v = exactly_at(s, p, w);
    exactly_at(s, v, b"'")
}

fn quoted_any_case_at(s: &[u8], at: usize, w: &[u8]) -> usize
    ensures { Ends (quoted (in_any_case w.now)) s.now at result }
{
    let q = exactly_at(s, at, b"\"");
    if q <= s.len() {
        let v = any_case_at(s, q, w);
        return exactly_at(s, v, b"\"");
    }
    let p = exactly_at(s, at, b"'");
    let v = any_case_at(s, p, w);
    exactly_at(s, v, b"'")
}

// White space and an attribute with the name and the value given.
pub fn attribute_at(s: &[u8], at: usize, name: &[u8], value: &[u8]) -> usize
    ensures { Ends (attribute name.now (exactly value.now)) s.now at result }
{
    let a = space_at(s, at);
    let b = exactly_at(s, a, name);
    let c = eq_at(s, b);
    quoted_at(s, c, value)
}

// The same with the value in any case.
pub fn any_case_attribute_at(s: &[u8], at: usize, name: &[u8], value: &[u8]) -> usize
    ensures { Ends (attribute name.now (in_any_case value.now)) s.now at result }
{
    let a = space_at(s, at);
    let b = exactly_at(s, a, name);
    let c = eq_at(s, b);
    quoted_any_case_at(s, c, value)
}
