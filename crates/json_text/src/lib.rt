// The check of a JSON text, RFC 8259, in one pass: see specs/Check.antt. The characters of its strings: see specs/CharAt.antt.
#![tactic(auto, using(octets::specs::laws::Pick::branching_joined))]

mod bytes;
mod characters;
mod numbers;
mod strings;
mod structure;

ghost use Rattle.std.specs.Prelude.{◌≡◌};
ghost use Rattle.json_text.specs.Bytes.{most_open};
ghost use Rattle.json_text.specs.Check.{move, closed, number_end, string_end, expect_end, end, verdict};
ghost use Rattle.json_text.specs.Stack.{around_of, outer_of};

pub use characters::char_at;
use numbers::in_number;
use strings::in_string;
use structure::{between_tokens, in_literal};

// The character at a place in a string: a byte, END where none stands there, 257 and its code point where an escape of digits does; and the place after it.
#[derive(Clone, Copy, Debug, PartialEq, Eq)]
pub struct CharRead {
    pub u: usize,
    pub next: usize,
}

// The innermost array or object that is open.
#[derive(Clone, Copy, Debug, PartialEq, Eq)]
pub enum Around {
    Nothing,
    Array,
    Object,
}

// Between tokens: what may come.
#[derive(Clone, Copy, Debug, PartialEq, Eq)]
pub enum Expect {
    Value,
    ValueOrEnd,
    Name,
    NameOrEnd,
    Colon,
    After,
}

// In a number: what was read last.
#[derive(Clone, Copy, Debug, PartialEq, Eq)]
pub enum Number {
    Minus,
    Zero,
    Int,
    Point,
    Frac,
    E,
    Sign,
    Exp,
}

// In a string: between its characters, or in an escape that began at the first number.
#[derive(Clone, Copy, Debug, PartialEq, Eq)]
pub enum Inside {
    Chars,
    Escape(usize),
    Hex(usize, u8, u32),
    High(usize),
    HighEscape(usize),
    Low(usize, u8, u32),
}

#[derive(Clone, Copy, Debug, PartialEq, Eq)]
pub enum State {
    Expects(Expect),
    InLiteral(u64),
    InNumber(Number),
    InString(bool, Inside),
}

// What a byte does.
#[derive(Clone, Copy, Debug, PartialEq, Eq)]
pub enum Move {
    To(State),
    OpenArray,
    OpenObject,
    Close,
    Bad(usize),
}

// The innermost of what is open, which `n` has the code of: see specs/Stack.antt.
fn innermost(n: u64) -> Around
    ensures { result ≡ around_of n }
{
    if n < 2 {
        Around::Nothing
    } else if n % 2 == 0 {
        Around::Array
    } else {
        Around::Object
    }
}

// What is open, without the innermost.
fn without_innermost(n: u64) -> u64
    ensures { result ≡ outer_of n }
{
    if n < 2 { n } else { n / 2 }
}

// What the byte `b` at `i` does.
fn step(st: State, a: Around, i: usize, b: u8) -> Move
    ensures { result ≡ move st a i b }
{
    match st {
        State::Expects(e) => between_tokens(e, a, i, b),
        State::InLiteral(w) => in_literal(w, i, b),
        State::InNumber(n) => in_number(n, a, i, b),
        State::InString(name, t) => in_string(t, name, i, b),
    }
}

// ---- the end of a text of `l` bytes: the place of a fault that it ends in

fn end_outside(a: Around, l: usize) -> Option<usize>
    ensures { result ≡ closed a l }
{
    match a {
        Around::Nothing => None,
        Around::Array => Some(l),
        Around::Object => Some(l),
    }
}

fn end_expecting(e: Expect, a: Around, l: usize) -> Option<usize>
    ensures { result ≡ expect_end e a l }
{
    match e {
        Expect::Value => Some(l),
        Expect::ValueOrEnd => Some(l),
        Expect::Name => Some(l),
        Expect::NameOrEnd => Some(l),
        Expect::Colon => Some(l),
        Expect::After => end_outside(a, l),
    }
}

fn end_in_number(n: Number, a: Around, l: usize) -> Option<usize>
    ensures { result ≡ number_end n a l }
{
    match n {
        Number::Minus => Some(l),
        Number::Zero => end_outside(a, l),
        Number::Int => end_outside(a, l),
        Number::Point => Some(l),
        Number::Frac => end_outside(a, l),
        Number::E => Some(l),
        Number::Sign => Some(l),
        Number::Exp => end_outside(a, l),
    }
}

fn end_in_string(t: Inside, l: usize) -> Option<usize>
    ensures { result ≡ string_end t l }
{
    match t {
        Inside::Chars => Some(l),
        Inside::Escape(_) => Some(l),
        Inside::Hex(_, _, _) => Some(l),
        Inside::High(from) => Some(from),
        Inside::HighEscape(from) => Some(from),
        Inside::Low(from, _, _) => Some(from),
    }
}

fn at_end(st: State, a: Around, l: usize) -> Option<usize>
    ensures { result ≡ end st a l }
{
    match st {
        State::Expects(e) => end_expecting(e, a, l),
        State::InLiteral(_) => Some(l),
        State::InNumber(n) => end_in_number(n, a, l),
        State::InString(_, t) => end_in_string(t, l),
    }
}

// The codes of `most_open` and more open arrays and objects begin here: 2 to that power.
const FULL: u64 = 0x1_0000_0000;

// The place of the fault of `s`, if it is no JSON text with at most `most_open` arrays and objects open at once.
pub fn json_fault(s: &[u8]) -> Option<usize>
    ensures { result ≡ verdict most_open s.now }
{
    let mut st = State::Expects(Expect::Value);
    let mut n: u64 = 1;
    let mut i = 0;
    while i < s.len() {
        let a = innermost(n);
        match step(st, a, i, s[i]) {
            Move::To(next) => {
                st = next;
                i += 1;
            }
            Move::OpenArray => {
                if FULL <= n {
                    return Some(i);
                }
                st = State::Expects(Expect::ValueOrEnd);
                n = n * 2;
                i += 1;
            }
            Move::OpenObject => {
                if FULL <= n {
                    return Some(i);
                }
                st = State::Expects(Expect::NameOrEnd);
                n = n * 2 + 1;
                i += 1;
            }
            Move::Close => {
                st = State::Expects(Expect::After);
                n = without_innermost(n);
                i += 1;
            }
            Move::Bad(p) => return Some(p),
        }
    }
    at_end(st, innermost(n), i)
}
