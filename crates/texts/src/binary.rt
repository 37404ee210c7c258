// BINARY. See specs/Binary.antt.
#![tactic(auto, unfolding(octets::specs::Computing::octets_compute))]

ghost use Rattle.std.specs.Prelude.{◌≡◌, ◌≤◌, eqb};
ghost use Rattle.octets.specs.Pick.{◌or◌, ◌and◌};
ghost use Rattle.octets.specs.Class.{is_space};
ghost use Rattle.calendar.specs.Calendar.{format_of};
ghost use Rattle.source.specs.Source.{rest};
ghost use Rattle.texts.specs.Binary.{is_base64_char, base64_value, pad_fits, in_group, next_place, binary_chars, is_binary};

use bits::low_bits;
use octets::unit::{END, EQUALS, LOWER_A, PLUS, SLASH, UPPER_A};
use octets::{is_alpha, is_capital, is_digit, is_small, is_space};
use source::{Encoding, unit};

// What a small letter is above its worth: a is worth 26.
const SMALL_BASE: usize = LOWER_A - 26;

fn is_base64(u: usize) -> bool
    ensures { result ≡ is_base64_char u }
{
    is_alpha(u) || is_digit(u) || u == PLUS || u == SLASH
}

// What a character is worth: A to Z are worth 0 to 25, a to z 26 to 51, 0 to 9 52 to 61.
fn worth(u: usize) -> usize
    ensures { result ≡ base64_value u }
{
    if is_capital(u) {
        return u - UPPER_A;
    }
    if is_small(u) {
        return u - SMALL_BASE;
    }
    if is_digit(u) {
        return u + 4;
    }
    if u == PLUS {
        return 62;
    }
    if u == SLASH {
        return 63;
    }
    0
}

// Whether `=` may stand at a place, after the character `last`: the bits that it has over are zero.
fn pad_fits(n: usize, last: usize) -> bool
    ensures { result ≡ pad_fits n last }
{
    match n {
        4 => true,
        2 => low_bits(worth(last), 4) == 0,
        3 => low_bits(worth(last), 2) == 0,
        _ => false,
    }
}

fn in_group(n: usize, last: usize, u: usize) -> bool
    ensures { result ≡ in_group n last u }
{
    if u == EQUALS {
        return pad_fits(n, last);
    }
    is_base64(u) && n < 4
}

// The place after a character.
fn next_place(n: usize, u: usize) -> usize
    requires { n ≤ 5 }
    ensures { result ≡ next_place n u }
{
    match (u, n) {
        (EQUALS, 2) => 4,
        (EQUALS, _) => 5,
        (_, 3) => 0,
        _ => n + 1,
    }
}

// Whether a character is passed over: white space, in XML.
pub fn is_passed(xcal: bool, u: usize) -> bool
    ensures { result ≡ (xcal and is_space u) }
{
    xcal && is_space(u)
}

// Whether the last group is whole.
fn is_whole(n: usize) -> bool
    ensures { result ≡ (eqb n 0 or eqb n 5) }
{
    n == 0 || n == 5
}

pub fn read_binary<E: Encoding>(xcal: bool, s: &[u8], at: usize) -> bool
    ensures { result ≡ is_binary (binary_chars (format_of xcal) (rest E.encoding s.now at)) }
{
    let mut n = 0;
    let mut last = 0;
    let mut c = at;
    loop {
        let t = unit::<E>(s, c);
        if t.u == END {
            return is_whole(n);
        }
        if is_passed(xcal, t.u) {
            c = t.next;
        } else if in_group(n, last, t.u) {
            n = next_place(n, t.u);
            last = t.u;
            c = t.next;
        } else {
            return false;
        }
    }
}
