// An order of words' numbers, checked. See specs/Rising.antt.
ghost use Rattle.std.specs.Prelude.{◌≡◌, true, false, []};
ghost use Rattle.octets.specs.Lists.{distinct};
ghost use Rattle.distinct.specs.Listed.{word_at, listed};
ghost use Rattle.distinct.specs.Rising.{Rising, Ranked};

use crate::compare::compare;
use crate::numbers::{number_at, put_number};
use source::Encoding;

// The place of each number in the order, where that has each number once.
pub fn put_ranks(order: &[u16], ranks: &mut [u16], n: usize) {
    let mut i = 0;
    while i < n {
        put_number(ranks, number_at(order, i), i);
        i += 1;
    }
}

// Each number below `n` is in the order, at its rank.
pub fn is_order(order: &[u16], ranks: &[u16], n: usize) -> bool
    ensures { result ≡ true → Ranked order.now ranks.now n n }
{
    let mut p = 0;
    while p < n {
        let r = number_at(ranks, p);
        if n <= r || number_at(order, r) != p {
            return false;
        }
        p += 1;
    }
    true
}

// How far the words rise in the order, each before the next.
pub fn rise<E: Encoding>(s: &[u8], from: &[u16], to: &[u16], order: &[u16], n: usize) -> usize
    ensures { Rising (word_at E.encoding s.now from.now to.now) order.now result }
{
    let mut i = 0;
    while i + 1 < n {
        let k = compare::<E>(s, from, to, number_at(order, i), number_at(order, i + 1));
        if k == 1 {
            i += 1;
        } else {
            return i + 1;
        }
    }
    n
}

// Two different numbers below `n`, neighbours in the order up to the place `i`, have the same word.
pub fn are_alike<E: Encoding>(
    s: &[u8],
    from: &[u16],
    to: &[u16],
    order: &[u16],
    i: usize,
    n: usize,
) -> bool
    ensures { result ≡ true →
        distinct (listed n (word_at E.encoding s.now from.now to.now) []) ≡ false }
{
    if i == 0 {
        return false;
    }
    let p = number_at(order, i - 1);
    let q = number_at(order, i);
    if p == q {
        return false;
    }
    if p < n {
        if q < n {
            let k = compare::<E>(s, from, to, p, q);
            return k == 0;
        }
    }
    false
}
