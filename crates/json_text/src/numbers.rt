// In a number. See specs/Check.antt.
ghost use Rattle.std.specs.Prelude.{◌≡◌};
ghost use Rattle.json_text.specs.Check.{digit, exponent, fraction, number};

use crate::bytes::{is_digit, is_e, is_sign};
use crate::structure::after_value;
use crate::{Around, Move, Number, State};

// A digit must come.
fn one_digit(n: Number, i: usize, b: u8) -> Move
    ensures { result ≡ digit n i b }
{
    if is_digit(b) {
        return Move::To(State::InNumber(n));
    }
    Move::Bad(i)
}

// An exponent or the number's end.
fn exponent_or_end(a: Around, i: usize, b: u8) -> Move
    ensures { result ≡ exponent a i b }
{
    if is_e(b) {
        return Move::To(State::InNumber(Number::E));
    }
    after_value(a, i, b)
}

// A fraction, an exponent or the number's end.
fn fraction_or_end(a: Around, i: usize, b: u8) -> Move
    ensures { result ≡ fraction a i b }
{
    if b == b'.' {
        return Move::To(State::InNumber(Number::Point));
    }
    exponent_or_end(a, i, b)
}

fn after_minus(a: Around, i: usize, b: u8) -> Move
    ensures { result ≡ number Number.Minus a i b }
{
    if b == b'0' {
        return Move::To(State::InNumber(Number::Zero));
    }
    one_digit(Number::Int, i, b)
}

fn after_int(a: Around, i: usize, b: u8) -> Move
    ensures { result ≡ number Number.Int a i b }
{
    if is_digit(b) {
        return Move::To(State::InNumber(Number::Int));
    }
    fraction_or_end(a, i, b)
}

fn after_frac(a: Around, i: usize, b: u8) -> Move
    ensures { result ≡ number Number.Frac a i b }
{
    if is_digit(b) {
        return Move::To(State::InNumber(Number::Frac));
    }
    exponent_or_end(a, i, b)
}

fn after_e(a: Around, i: usize, b: u8) -> Move
    ensures { result ≡ number Number.E a i b }
{
    if is_sign(b) {
        return Move::To(State::InNumber(Number::Sign));
    }
    one_digit(Number::Exp, i, b)
}

fn after_exp(a: Around, i: usize, b: u8) -> Move
    ensures { result ≡ number Number.Exp a i b }
{
    if is_digit(b) {
        return Move::To(State::InNumber(Number::Exp));
    }
    after_value(a, i, b)
}

pub fn in_number(n: Number, a: Around, i: usize, b: u8) -> Move
    ensures { result ≡ number n a i b }
{
    match n {
        Number::Minus => after_minus(a, i, b),
        Number::Zero => fraction_or_end(a, i, b),
        Number::Int => after_int(a, i, b),
        Number::Point => one_digit(Number::Frac, i, b),
        Number::Frac => after_frac(a, i, b),
        Number::E => after_e(a, i, b),
        Number::Sign => one_digit(Number::Exp, i, b),
        Number::Exp => after_exp(a, i, b),
    }
}
