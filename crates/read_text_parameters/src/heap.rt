// The places of names sorted by the names, those of the same name by the places: a heap sort. Nothing is promised of what it leaves, only that it ends.
ghost use Rattle.std.specs.Prelude.{◌<◌, ◌≤◌};

use crate::order::compare_names;
use crate::places::{place_at, swap};
use source::Encoding;

// The name at the place `p` goes before that at `q`.
fn goes_before<E: Encoding>(s: &[u8], p: usize, q: usize) -> bool {
    let k = compare_names::<E>(s, p, q);
    if k == 0 {
        return p < q;
    }
    k == 1
}

// Of the two children of the number `i` the one that comes later; at least `n` where there is none below `n`.
fn later_child<E: Encoding>(s: &[u8], places: &[u16], i: usize, n: usize) -> usize
    requires { i < 65536 }
    ensures { i < result }
{
    let l = 2 * i + 1;
    let m = l + 1;
    if m < n {
        let p = place_at(places, l);
        let q = place_at(places, m);
        let before = goes_before::<E>(s, p, q);
        if before {
            return m;
        }
        return l;
    }
    l
}

// Moves the place at `start` down to where no child comes later, among the first `n`.
fn sift<E: Encoding>(s: &[u8], places: &mut [u16], start: usize, n: usize)
    requires { n ≤ 65536 }
{
    let mut i = start;
    while i < n {
        let j = later_child::<E>(s, places, i, n);
        if j < n {
            let p = place_at(places, i);
            let q = place_at(places, j);
            let before = goes_before::<E>(s, p, q);
            if before {
                swap(places, i, j);
                i = j;
            } else {
                return;
            }
        } else {
            return;
        }
    }
}

// No child comes later than its parent.
fn make_heap<E: Encoding>(s: &[u8], places: &mut [u16], n: usize)
    requires { n ≤ 65536 }
{
    let mut i = n;
    while 0 < i {
        i -= 1;
        sift::<E>(s, places, i, n);
    }
}

// The first `n` places in order.
pub fn sort<E: Encoding>(s: &[u8], places: &mut [u16], n: usize)
    requires { n ≤ 65536 }
{
    make_heap::<E>(s, places, n);
    let mut m = n;
    while 0 < m {
        m -= 1;
        swap(places, 0, m);
        sift::<E>(s, places, 0, m);
    }
}
