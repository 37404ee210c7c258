// The characters that an input may hold, in UTF-8 by RFC 3629: see specs/Utf8.antt. The check is an
// automaton that takes a byte at a time: see specs/Automaton.antt.
#![tactic(auto, using(octets::specs::laws::Pick::branching_joined))]

mod spell;

ghost use Rattle.std.specs.Prelude.{◌≡◌};
ghost use Rattle.octets.specs.Pick.{within};
ghost use Rattle.utf8.specs.Utf8.{is_ascii, more, low, high, high_after, first_bad};
ghost use Rattle.utf8.specs.Automaton.{start, lead, tail, step, verdict};

pub use spell::{is_character, spelled_byte, spelled_length};

// Where a check stands: the sequence that began at `start` wants `need` bytes more, the next of them
// from `low` to `high`. `last`: that byte follows the lead byte EF. Once `ok` is false nothing changes.
#[derive(Clone, Copy, Debug, PartialEq, Eq)]
pub struct Reading {
    pub need: u8,
    pub low: u8,
    pub high: u8,
    pub last: bool,
    pub ok: bool,
    pub start: usize,
}

fn is_within(lo: u8, hi: u8, x: u8) -> bool
    ensures { result ≡ within lo hi x }
{
    lo <= x && x <= hi
}

// A character of one byte.
fn is_ascii(a: u8) -> bool
    ensures { result ≡ is_ascii a }
{
    is_within(0x20, 0x7E, a) || a == b'\t' || a == b'\n' || a == b'\r'
}

// How many bytes follow a lead byte; 4 where it is none.
fn count_after(a: u8) -> u8
    ensures { result ≡ more a }
{
    if is_ascii(a) {
        0
    } else if is_within(0xC2, 0xDF, a) {
        1
    } else if is_within(0xE0, 0xEF, a) {
        2
    } else if is_within(0xF0, 0xF4, a) {
        3
    } else {
        4
    }
}

fn lowest_after(a: u8) -> u8
    ensures { result ≡ low a }
{
    match a {
        0xE0 => 0xA0,
        0xF0 => 0x90,
        _ => 0x80,
    }
}

fn highest_after(a: u8) -> u8
    ensures { result ≡ high a }
{
    match a {
        0xED => 0x9F,
        0xF4 => 0x8F,
        _ => 0xBF,
    }
}

// The same for the byte after `b`, which is not the lead byte.
fn highest_next(last: bool, b: u8) -> u8
    ensures { result ≡ high_after last b }
{
    if last && b == 0xBF { 0xBD } else { 0xBF }
}

// A lead byte, at `i`.
fn begin(i: usize, b: u8) -> Reading
    ensures { result ≡ lead i b }
{
    let need = count_after(b);
    Reading {
        need,
        low: lowest_after(b),
        high: highest_after(b),
        last: b == 0xEF,
        ok: need <= 3,
        start: i,
    }
}

// A tail byte, with `need` bytes still to come.
fn go_on(need: u8, last: bool, b: u8, start: usize) -> Reading
    ensures { result ≡ tail need last b start }
{
    Reading {
        need,
        low: 0x80,
        high: highest_next(last, b),
        last: false,
        ok: true,
        start,
    }
}

// One byte more, at the index `i`.
pub fn read(st: Reading, i: usize, b: u8) -> Reading
    ensures { result ≡ step st i b }
{
    if !st.ok {
        st
    } else if st.need == 0 {
        begin(i, b)
    } else if is_within(st.low, st.high, b) {
        go_on(st.need - 1, st.last, b, st.start)
    } else {
        Reading { ok: false, ..st }
    }
}

// Once there is no byte more: where a sequence begins that is no character, if there is one.
pub fn end(st: Reading) -> Option<usize>
    ensures { result ≡ verdict st }
{
    if st.ok && st.need == 0 {
        None
    } else {
        Some(st.start)
    }
}

// Where a check begins.
pub fn at_start() -> Reading
    ensures { result ≡ start }
{
    Reading {
        need: 0,
        low: 0,
        high: 0,
        last: false,
        ok: true,
        start: 0,
    }
}

// The index of the first byte of the first sequence that is no character that an input may hold.
pub fn first_bad(s: &[u8]) -> Option<usize>
    ensures { result ≡ first_bad s.now }
{
    let mut st = at_start();
    let mut i = 0;
    while i < s.len() {
        st = read(st, i, s[i]);
        i += 1;
    }
    end(st)
}
