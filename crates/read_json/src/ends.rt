// Where a string, a number or a literal ends, and what follows a string. See specs/Ends.antt.
ghost use Rattle.std.specs.Prelude.{◌≡◌, ◌≤◌, eqb, length, drop};
ghost use Rattle.octets.specs.Pick.{◌or◌};
ghost use Rattle.octets.specs.Scan.{span_end};
ghost use Rattle.octets.specs.Class.{is_space};
ghost use Rattle.octets.specs.Runs.{after_run};
ghost use Rattle.octets.specs.Front.{begins_by};
ghost use Rattle.json_text.specs.Bytes.{name_separator, is_e, is_sign, decimal_point};
ghost use Rattle.json_text.specs.Tree.{is_separator, is_scalar};
ghost use Rattle.read_json.specs.Ends.{EndAt};

use json_text::char_at;
use octets::unit::{COLON, COMMA, CR, END, HYPHEN, LF, LOWER_E, PLUS, POINT, SPACE, TAB, UPPER_E};
use octets::{is_digit, is_small, wide};

// White space: as tests joined by `||`, or as a `match`, a run of it takes a third longer, since the compiler then makes several tests of one.
fn is_white(u: usize) -> bool
    ensures { result ≡ is_space u }
{
    if u == SPACE {
        return true;
    }
    if u == TAB {
        return true;
    }
    if u == CR {
        return true;
    }
    u == LF
}

pub fn is_separator(u: usize) -> bool
    ensures { result ≡ is_separator u }
{
    if is_white(u) {
        return true;
    }
    if u == COLON {
        return true;
    }
    u == COMMA
}

// A byte of a number or a literal that is no letter or digit, or a capital.
fn is_number_sign(u: usize) -> bool
    ensures { result ≡ (is_e u or is_sign u or eqb u decimal_point) }
{
    u == LOWER_E || u == UPPER_E || u == HYPHEN || u == PLUS || u == POINT
}

// A byte of a number or a literal.
fn is_scalar(u: usize) -> bool
    ensures { result ≡ is_scalar u }
{
    is_digit(u) || is_small(u) || is_number_sign(u)
}

// The place behind the string whose first character stands at `at`.
pub fn string_end(s: &[u8], at: usize) -> usize
    requires { at ≤ length s.now }
    ensures { EndAt s.now at result }
{
    let mut i = at;
    while i < s.len() {
        let c = char_at(s, i);
        if c.u == END {
            return i + 1;
        }
        i = c.next;
    }
    i
}

// The place behind the bytes of a number or a literal, from `at` on.
pub fn word_end(s: &[u8], at: usize) -> usize
    requires { at ≤ length s.now }
    ensures { (result ≡ span_end is_scalar s.now at) × (result ≤ length s.now) }
{
    let mut i = at;
    while i < s.len() && is_scalar(wide(s[i])) {
        i += 1;
    }
    i
}

// Behind white space a colon follows.
pub fn colon_follows(s: &[u8], at: usize) -> bool
    ensures { result ≡ begins_by (λ b. eqb b name_separator) (after_run is_space (drop at s.now)) }
{
    let mut i = at;
    while i < s.len() {
        let u = wide(s[i]);
        let white = is_white(u);
        if white {
            i += 1;
        } else {
            return u == COLON;
        }
    }
    false
}
