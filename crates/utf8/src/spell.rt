// The bytes of a code point, one by one. See specs/Spell.antt.
ghost use Rattle.std.specs.Prelude.{◌≡◌, ◌<◌, length, get_or};
ghost use Rattle.utf8.specs.Spell.{is_character, spell, tail_of};
ghost use Rattle.utf8.specs.SpellAt.{two_of, three_of, four_of};

use bits::{high_bits, low_bits};
use octets::is_within;
use octets::unit::{LF, TAB};

// Whether a reference may name the code point `c`.
#[tactic(auto, using(octets::specs::laws::Pick::branching_joined, crate::specs::laws::SpellAt::character_tests))]
pub fn is_character(c: usize) -> bool
    ensures { result ≡ is_character c }
{
    is_within(0x20, 0x7E, c)
        || c == TAB
        || c == LF
        || is_within(0x80, 0xD7FF, c)
        || is_within(0xE000, 0xFFFD, c)
        || is_within(0x10000, 0x10FFFF, c)
}

// How many bytes a code point has.
#[tactic(auto, using(crate::specs::laws::SpellAt::spelling))]
pub fn spelled_length(c: usize) -> usize
    ensures { result ≡ length (spell c) }
{
    if c < 0x80 {
        1
    } else if c < 0x800 {
        2
    } else if c < 0x10000 {
        3
    } else {
        4
    }
}

// How many bits of a code point a byte after the first has.
const TAIL_BITS: usize = 6;

// The byte with the lowest six bits of `x`.
fn tail(x: usize) -> usize
    ensures { result ≡ tail_of x }
{
    0x80 + low_bits(x, TAIL_BITS)
}

// Byte number `k` of the two, three and four bytes of a code point; 0 for any other number.
fn of_two(c: usize, k: usize) -> usize
    ensures { result ≡ two_of c k }
{
    match k {
        0 => 0xC0 + high_bits(c, TAIL_BITS),
        1 => tail(c),
        _ => 0,
    }
}

fn of_three(c: usize, k: usize) -> usize
    ensures { result ≡ three_of c k }
{
    match k {
        0 => 0xE0 + high_bits(c, 2 * TAIL_BITS),
        1 => tail(high_bits(c, TAIL_BITS)),
        2 => tail(c),
        _ => 0,
    }
}

fn of_four(c: usize, k: usize) -> usize
    ensures { result ≡ four_of c k }
{
    match k {
        0 => 0xF0 + high_bits(c, 3 * TAIL_BITS),
        1 => tail(high_bits(c, 2 * TAIL_BITS)),
        2 => tail(high_bits(c, TAIL_BITS)),
        3 => tail(c),
        _ => 0,
    }
}

// Byte number `k` of a code point, 0 where it has fewer.
pub fn spelled_byte(c: usize, k: usize) -> usize
    requires { c < 0x110000 }
    ensures { (result ≡ get_or (spell c) k 0) × (result < 256) }
{
    if c < 0x80 {
        if k == 0 { c } else { 0 }
    } else if c < 0x800 {
        of_two(c, k)
    } else if c < 0x10000 {
        of_three(c, k)
    } else {
        of_four(c, k)
    }
}
