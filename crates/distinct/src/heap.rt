// Numbers of words sorted by their words: a heap sort. Nothing is promised of what it leaves, only that it ends.
ghost use Rattle.std.specs.Prelude.{◌<◌, ◌≤◌};

use crate::compare::compare;
use crate::numbers::{number_at, swap};
use source::Encoding;

// Of the two children of the place `i` the one whose word comes later; at least `n` where there is none below `n`.
fn later_child<E: Encoding>(
    s: &[u8],
    from: &[u16],
    to: &[u16],
    order: &[u16],
    i: usize,
    n: usize,
) -> usize
    requires { i < 65536 }
    ensures { i < result }
{
    let l = 2 * i + 1;
    let m = l + 1;
    if m < n && compare::<E>(s, from, to, number_at(order, l), number_at(order, m)) == 1 {
        m
    } else {
        l
    }
}

// Moves the number at the place `start` down to where no child's word comes later, among the first `n`.
fn sift<E: Encoding>(s: &[u8], from: &[u16], to: &[u16], order: &mut [u16], start: usize, n: usize)
    requires { n ≤ 65536 }
{
    let mut i = start;
    while i < n {
        let j = later_child::<E>(s, from, to, order, i, n);
        if n <= j || compare::<E>(s, from, to, number_at(order, i), number_at(order, j)) != 1 {
            return;
        }
        swap(order, i, j);
        i = j;
    }
}

// No child's word comes later than its parent's.
fn make_heap<E: Encoding>(s: &[u8], from: &[u16], to: &[u16], order: &mut [u16], n: usize)
    requires { n ≤ 65536 }
{
    let mut i = n;
    while 0 < i {
        i -= 1;
        sift::<E>(s, from, to, order, i, n);
    }
}

// The first `n` numbers in the order of their words.
pub fn sort<E: Encoding>(s: &[u8], from: &[u16], to: &[u16], order: &mut [u16], n: usize)
    requires { n ≤ 65536 }
{
    make_heap::<E>(s, from, to, order, n);
    let mut m = n;
    while 0 < m {
        m -= 1;
        swap(order, 0, m);
        sift::<E>(s, from, to, order, 0, m);
    }
}
