// A spelling followed along a pattern. See specs/Pattern.antt and specs/Followed.antt.
ghost use Rattle.std.specs.Prelude.{◌≡◌, ◌≤◌, ◌<◌, ◌^◌, length, eqb};
ghost use Rattle.octets.specs.Pick.{◌or◌};
ghost use Rattle.octets.specs.Decimal.{digit_of};
ghost use Rattle.times.specs.Pattern.{passes, tally};
ghost use Rattle.times.specs.Followed.{Walks};

use crate::letters::letter;
use octets::unit::{HYPHEN, NINE, PLUS, ZERO};
use octets::{is_digit, wide};
use source::Encoding;

// The number of a pattern's digits, and the cursor after all of the pattern.
#[derive(Clone, Copy, Debug, PartialEq, Eq)]
pub struct Walk {
    pub number: usize,
    pub next: usize,
}

fn is_sign(u: usize) -> bool
    ensures { result ≡ (eqb u 43 or eqb u 45) }
{
    u == PLUS || u == HYPHEN
}

// Whether the character `k` of a pattern passes `u`.
fn passing(k: usize, u: usize) -> bool
    ensures { result ≡ passes k u }
{
    if k == ZERO {
        return is_digit(u);
    }
    if k == PLUS {
        return is_sign(u);
    }
    u == k
}

fn digit_of(u: usize) -> usize
    ensures { (result ≡ digit_of u) × (result ≤ 9) }
{
    if u < ZERO {
        return 0;
    }
    if NINE < u {
        return 0;
    }
    u - ZERO
}

// A digit more, where the pattern has one.
fn tallied(k: usize, n: usize, u: usize) -> usize
    requires { n < 10 ^ 18 }
    ensures { result ≡ tally k n u }
{
    if k == ZERO {
        return n * 10 + digit_of(u);
    }
    n
}

// The pattern `p` followed from the cursor `at`.
pub fn follow<E: Encoding>(p: &[u8], exact: bool, s: &[u8], at: usize) -> Option<Walk>
    requires { length p.now ≤ 19 }
    ensures { Walks p.now exact E.encoding s.now at result }
{
    let mut number: usize = 0;
    let mut c = at;
    let mut i = 0;
    while i < p.len() {
        let k = wide(p[i]);
        let a = letter::<E>(exact, s, c);
        if !passing(k, a.u) {
            return None;
        }
        number = tallied(k, number, a.u);
        c = a.next;
        i += 1;
    }
    Some(Walk { number, next: c })
}
