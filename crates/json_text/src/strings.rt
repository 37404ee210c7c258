// In a string. See specs/Check.antt.
ghost use Rattle.std.specs.Prelude.{◌≡◌};
ghost use Rattle.json_text.specs.Check.{behind, chars, escaped, named, hex, low_pair, low, string};

use crate::bytes::{hex_value, is_high, is_low, named_bad, names_bad, names_good, with_digit};
use crate::{Expect, Inside, Move, State};

// Behind a string, which is a member's name or a value.
fn behind_string(name: bool) -> Move
    ensures { result ≡ behind name }
{
    if name {
        return Move::To(State::Expects(Expect::Colon));
    }
    Move::To(State::Expects(Expect::After))
}

fn in_chars(name: bool, i: usize, b: u8) -> Move
    ensures { result ≡ chars name i b }
{
    if b == b'"' {
        return behind_string(name);
    }
    if b == b'\\' {
        return Move::To(State::InString(name, Inside::Escape(i)));
    }
    if b < 0x20 {
        return Move::Bad(i);
    }
    Move::To(State::InString(name, Inside::Chars))
}

// The second byte of the escape at `from`.
fn in_escape(name: bool, from: usize, i: usize, b: u8) -> Move
    ensures { result ≡ escaped name from i b }
{
    if b == b'u' {
        return Move::To(State::InString(name, Inside::Hex(from, 3, 0)));
    }
    if names_good(b) {
        return Move::To(State::InString(name, Inside::Chars));
    }
    if names_bad(b) {
        return Move::Bad(from);
    }
    Move::Bad(i)
}

// The escape at `from` names the code unit `v`.
fn take_unit(name: bool, from: usize, v: u32) -> Move
    ensures { result ≡ named name from v }
{
    if is_high(v) {
        return Move::To(State::InString(name, Inside::High(from)));
    }
    if named_bad(v) {
        return Move::Bad(from);
    }
    Move::To(State::InString(name, Inside::Chars))
}

// A digit `d` of the escape at `from`, with `k` more to come behind it.
fn take_digit(name: bool, from: usize, k: u8, v: u32, i: usize, d: u8) -> Move
    ensures { result ≡ hex name from k v i d }
{
    if d == 16 {
        return Move::Bad(i);
    }
    let u = with_digit(v, d);
    if k == 0 {
        return take_unit(name, from, u);
    }
    Move::To(State::InString(name, Inside::Hex(from, k - 1, u)))
}

// The escape behind the high surrogate at `from` names the code unit `v`.
fn take_low(name: bool, from: usize, v: u32) -> Move
    ensures { result ≡ low_pair name from v }
{
    if is_low(v) {
        return Move::To(State::InString(name, Inside::Chars));
    }
    Move::Bad(from)
}

// A digit of the escape behind the high surrogate at `from`.
fn take_low_digit(name: bool, from: usize, k: u8, v: u32, d: u8) -> Move
    ensures { result ≡ low name from k v d }
{
    if d == 16 {
        return Move::Bad(from);
    }
    let u = with_digit(v, d);
    if k == 0 {
        return take_low(name, from, u);
    }
    Move::To(State::InString(name, Inside::Low(from, k - 1, u)))
}

pub fn in_string(t: Inside, name: bool, i: usize, b: u8) -> Move
    ensures { result ≡ string t name i b }
{
    match t {
        Inside::Chars => in_chars(name, i, b),
        Inside::Escape(from) => in_escape(name, from, i, b),
        Inside::Hex(from, k, v) => take_digit(name, from, k, v, i, hex_value(b)),
        Inside::High(from) => {
            if b == b'\\' {
                return Move::To(State::InString(name, Inside::HighEscape(from)));
            }
            Move::Bad(from)
        }
        Inside::HighEscape(from) => {
            if b == b'u' {
                return Move::To(State::InString(name, Inside::Low(from, 3, 0)));
            }
            Move::Bad(from)
        }
        Inside::Low(from, k, v) => take_low_digit(name, from, k, v, hex_value(b)),
    }
}
