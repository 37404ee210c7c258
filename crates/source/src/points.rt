// Characters that may be named by their code points, byte by byte. See specs/Stepping.antt.
ghost use Rattle.std.specs.Prelude.{◌≡◌, List, ℕ, ◌^◌, ◌+◌, ◌-◌, ◌*◌, ◌≤◌, ◌<◌, length, get_or};
ghost use Rattle.source.specs.Source.{Reads, unit_of};
ghost use Rattle.source.specs.Mark.{mark_before};
ghost use Rattle.source.specs.Stepping.{Placed, Apart, Inner, Named, Found, Left};

use crate::Step;
use octets::unit::END;
use octets::wide;
use utf8::{spelled_byte, spelled_length};

// A byte, or END where nothing is left; and the cursor after it.
#[derive(Clone, Copy)]
pub struct Unit {
    pub u: usize,
    pub next: usize,
}

impl Unit {
    // The byte, if it is one.
    pub fn step(self) -> Option<Step>
        ensures { (m : ℕ) (s : List ℕ) (c : ℕ) → c < 2 ^ 64 → Reads m s c self → Reads m s c (unit_of c result) }
    {
        if self.u < END {
            return Some(Step {
                byte: self.u as u8,
                next: self.next,
            });
        }
        None
    }
}

// Byte number `j` of the character `v`, which is named from `p` to `n`.
fn point_unit(s: &[u8], p: usize, v: usize, n: usize, j: usize) -> Unit
    requires { (v < 0x110000) × (p + 4 ≤ n) × (n ≤ length s.now) × (j < 4) }
    ensures { (m : ℕ) → Inner m s.now p v n → Left m s.now p v n j result }
{
    let m = spelled_length(v);
    if j < m {
        let b = spelled_byte(v, j);
        if j + 1 < m {
            return Unit {
                u: b,
                next: 2 * (p + j) + 1,
            };
        }
        return Unit { u: b, next: 2 * n };
    }
    Unit { u: END, next: 0 }
}

// At the place `p`, where `u` stands, up to `n`.
pub fn unit_at(s: &[u8], p: usize, u: usize, n: usize, at: usize) -> Unit
    requires { Placed s.now p u n × (at ≡ 2 * p) }
    ensures { (m : ℕ) → Apart m → Named m s.now p u n → Reads m s.now at result }
{
    if u == END {
        return Unit { u: END, next: at };
    }
    if u < END {
        return Unit { u, next: 2 * n };
    }
    point_unit(s, p, u - 257, n, 0)
}

// Within what stands so, at the cursor after twice `q`.
pub fn unit_within(s: &[u8], p: usize, u: usize, n: usize, q: usize, at: usize) -> Unit
    requires { Placed s.now p u n × (at ≡ 2 * q + 1) × (p ≤ q) × (q ≤ p + 2) }
    ensures { (m : ℕ) → Apart m → Found m s.now p u n q → Reads m s.now at result }
{
    if u <= END {
        return Unit { u: END, next: at };
    }
    point_unit(s, p, u - 257, n, q - p + 1)
}

fn byte_at(s: &[u8], p: usize) -> usize
    ensures { result ≡ get_or s.now p 0 }
{
    if p < s.len() {
        return wide(s[p]);
    }
    0
}

fn back(q: usize, k: usize) -> usize
    ensures { result ≡ q - k }
{
    if q < k {
        return 0;
    }
    q - k
}

// The byte `b` at `q` or at most two bytes before.
pub fn mark_before(b: usize, s: &[u8], q: usize) -> usize
    ensures { (result ≡ mark_before b s.now q) × (result ≤ q) × (q ≤ result + 2) }
{
    if byte_at(s, q) == b {
        return q;
    }
    let p = back(q, 1);
    if byte_at(s, p) == b {
        return p;
    }
    back(q, 2)
}
