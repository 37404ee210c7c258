// Between tokens, and in a literal. See specs/Check.antt.
ghost use Rattle.std.specs.Prelude.{◌≡◌};
ghost use Rattle.json_text.specs.Check.{scalar, value, name, after_by, after, expected, between, literal};

use crate::bytes::{is_digit, is_space};
use crate::{Around, Expect, Inside, Move, Number, State};

// The letters behind the first of `true`, `false` and `null`, the next one lowest.
const AFTER_T: u64 = 0x65_75_72;

const AFTER_F: u64 = 0x65_73_6C_61;

const AFTER_N: u64 = 0x6C_6C_75;

// The first byte of a number or a literal.
fn begin_scalar(i: usize, b: u8) -> Move
    ensures { result ≡ scalar i b }
{
    if b == b'-' {
        return Move::To(State::InNumber(Number::Minus));
    }
    if b == b'0' {
        return Move::To(State::InNumber(Number::Zero));
    }
    if is_digit(b) {
        return Move::To(State::InNumber(Number::Int));
    }
    if b == b't' {
        return Move::To(State::InLiteral(AFTER_T));
    }
    if b == b'f' {
        return Move::To(State::InLiteral(AFTER_F));
    }
    if b == b'n' {
        return Move::To(State::InLiteral(AFTER_N));
    }
    Move::Bad(i)
}

fn begin_value(i: usize, b: u8) -> Move
    ensures { result ≡ value i b }
{
    if b == b'"' {
        return Move::To(State::InString(false, Inside::Chars));
    }
    if b == b'[' {
        return Move::OpenArray;
    }
    if b == b'{' {
        return Move::OpenObject;
    }
    begin_scalar(i, b)
}

fn begin_name(i: usize, b: u8) -> Move
    ensures { result ≡ name i b }
{
    if b == b'"' {
        return Move::To(State::InString(true, Inside::Chars));
    }
    Move::Bad(i)
}

// Behind a value: what is no white space.
fn separate(a: Around, i: usize, b: u8) -> Move
    ensures { result ≡ after_by a i b }
{
    match a {
        Around::Nothing => Move::Bad(i),
        Around::Array => {
            if b == b',' {
                return Move::To(State::Expects(Expect::Value));
            }
            if b == b']' {
                return Move::Close;
            }
            Move::Bad(i)
        }
        Around::Object => {
            if b == b',' {
                return Move::To(State::Expects(Expect::Name));
            }
            if b == b'}' {
                return Move::Close;
            }
            Move::Bad(i)
        }
    }
}

// Behind a value.
pub fn after_value(a: Around, i: usize, b: u8) -> Move
    ensures { result ≡ after a i b }
{
    if is_space(b) {
        return Move::To(State::Expects(Expect::After));
    }
    separate(a, i, b)
}

// What is no white space, where `e` may come.
fn expect(e: Expect, a: Around, i: usize, b: u8) -> Move
    ensures { result ≡ expected e a i b }
{
    match e {
        Expect::Value => begin_value(i, b),
        Expect::ValueOrEnd => {
            if b == b']' {
                return Move::Close;
            }
            begin_value(i, b)
        }
        Expect::Name => begin_name(i, b),
        Expect::NameOrEnd => {
            if b == b'}' {
                return Move::Close;
            }
            begin_name(i, b)
        }
        Expect::Colon => {
            if b == b':' {
                return Move::To(State::Expects(Expect::Value));
            }
            Move::Bad(i)
        }
        Expect::After => separate(a, i, b),
    }
}

pub fn between_tokens(e: Expect, a: Around, i: usize, b: u8) -> Move
    ensures { result ≡ between e a i b }
{
    if is_space(b) {
        return Move::To(State::Expects(e));
    }
    expect(e, a, i, b)
}

// A letter of a literal, with the letters `w` to come.
pub fn in_literal(w: u64, i: usize, b: u8) -> Move
    ensures { result ≡ literal w i b }
{
    if b == (w % 256) as u8 {
        if w / 256 == 0 {
            return Move::To(State::Expects(Expect::After));
        }
        return Move::To(State::InLiteral(w / 256));
    }
    Move::Bad(i)
}
