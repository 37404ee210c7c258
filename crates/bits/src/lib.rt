// Bits of a number, by shift and mask. A mask is a set of small numbers, one bit for each.
#![tactic(auto)]

ghost use Rattle.std.specs.Prelude.{◌≡◌, true, cond, ℕ, ◌<◌, eqb};
ghost use Rattle.bits.specs.Masks.{has, low_bits, high_bits};

// How many bits a mask has.
pub const WIDTH: usize = 32;

// The number `i` is in the set `mask`.
pub fn holds(mask: u32, i: usize) -> bool
    ensures { result ≡ has mask i }
{
    i < WIDTH && (mask >> i) & 1 == 1
}

// The set with `i` in it.
pub fn insert(mask: u32, i: usize) -> u32
    requires { i < 32 }
    ensures { (j : ℕ) → has result j ≡ cond (eqb i j) true (has mask j) }
{
    mask | (1 << i)
}

// The lowest `count` bits of `x`.
pub fn low_bits(x: usize, count: usize) -> usize
    requires { count < 64 }
    ensures { result ≡ low_bits x count }
{
    x & ((1 << count) - 1)
}

// The bits of `x` from number `from` on.
pub fn high_bits(x: usize, from: usize) -> usize
    requires { from < 64 }
    ensures { result ≡ high_bits x from }
{
    x >> from
}
