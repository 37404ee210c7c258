// Character references: XML 1.0, section 4.1. See specs/Token.antt, Digits.antt.
ghost use Rattle.std.specs.Prelude.{◌≡◌, ◌+◌, ◌*◌, ◌≤◌, ◌<◌, length, drop};
ghost use Rattle.octets.specs.Scan.{span_len};
ghost use Rattle.xml.specs.Token.{is_hex_digit, hex_digit_of, char_ref, reference};
ghost use Rattle.xml.specs.CharAt.{Character};
ghost use Rattle.xml.specs.Digits.{is_digit_in, base, worth_on, capped, Counted};

use crate::CharRead;
use crate::entities::entity_at;
use crate::starting::starts_at;
use octets::unit::{END, LOWER_A, LOWER_F, NINE, UPPER_A, UPPER_F, ZERO};
use octets::{is_digit, is_within, wide};
use utf8::is_character;

// The unit after the decimal digits.
const AFTER_DIGITS: usize = NINE + 1;

// The unit after the small letters that are digits.
const AFTER_SMALL: usize = LOWER_F + 1;

// What a capital is above its worth: A is worth 10.
const CAPITAL_BASE: usize = UPPER_A - 10;

// What a small letter is above its worth: a is worth 10.
const SMALL_BASE: usize = LOWER_A - 10;

// Where digits end, and what they are worth.
#[derive(Clone, Copy, Debug, PartialEq, Eq)]
pub struct Digits {
    pub end: usize,
    pub v: usize,
}

fn is_hex_digit(u: usize) -> bool
    ensures { result ≡ is_hex_digit u }
{
    is_digit(u) || is_within(LOWER_A, LOWER_F, u) || is_within(UPPER_A, UPPER_F, u)
}

fn is_digit_in(hex: bool, u: usize) -> bool
    ensures { result ≡ is_digit_in hex u }
{
    if hex { is_hex_digit(u) } else { is_digit(u) }
}

// What a digit is worth.
#[tactic(auto, using(crate::specs::laws::Digits::worths))]
fn hex_digit_of(u: usize) -> usize
    ensures { (result ≡ hex_digit_of u) × (result ≤ u) }
{
    if u < ZERO {
        0
    } else if u < AFTER_DIGITS {
        u - ZERO
    } else if u < LOWER_A {
        u - CAPITAL_BASE
    } else if u < AFTER_SMALL {
        u - SMALL_BASE
    } else {
        u - CAPITAL_BASE
    }
}

#[tactic(auto, using(crate::specs::laws::Digits::capping))]
fn cap(n: usize) -> usize
    ensures { result ≡ capped n }
{
    if n < 0x110000 { n } else { 0x110000 }
}

// One digit more.
#[tactic(auto, using(crate::specs::laws::Digits::capping))]
fn grow(hex: bool, v: usize, d: usize) -> usize
    requires { (v ≤ 0x110000) × (d < 256) }
    ensures { result ≡ capped (v * base hex + d) }
{
    if hex {
        cap(v * 16 + d)
    } else {
        cap(v * 10 + d)
    }
}

// The digits at a place.
fn digits_at(s: &[u8], at: usize, hex: bool) -> Digits
    requires { at ≤ length s.now }
    ensures { Counted hex s.now at result }
{
    let mut i = at;
    let mut v = 0;
    while i < s.len() {
        let u = wide(s[i]);
        if is_digit_in(hex, u) {
            v = grow(hex, v, hex_digit_of(u));
            i += 1;
        } else {
            return Digits { end: i, v };
        }
    }
    Digits { end: i, v }
}

// The character whose number stands in digits, k bytes after `at`.
fn number_at(s: &[u8], at: usize, k: usize, hex: bool) -> CharRead
    requires { (1 ≤ k) × (at + k ≤ length s.now) }
    ensures { Character (char_ref k (span_len (is_digit_in hex) (drop (at + k) s.now))
        (worth_on hex 0 (drop (at + k) s.now)) (drop (at + k) s.now)) s.now at result }
{
    let d = digits_at(s, at + k, hex);
    let e = d.end;
    let v = d.v;
    if at + k < e {
        if e < s.len() {
            if s[e] == b';' {
                if is_character(v) {
                    return CharRead {
                        u: 257 + v,
                        next: e + 1,
                    };
                }
            }
        }
    }
    CharRead { u: END, next: at }
}

// The character that a reference names, after its `&`.
pub fn reference_at(s: &[u8], at: usize) -> CharRead
    requires { at ≤ length s.now }
    ensures { Character (reference (drop at s.now)) s.now at result }
{
    if starts_at(s, at, b"#x") {
        return number_at(s, at, 2, true);
    }
    if starts_at(s, at, b"#") {
        return number_at(s, at, 1, false);
    }
    entity_at(s, at)
}
