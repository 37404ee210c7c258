// The places of strings sorted by their characters: a heap sort. Nothing is promised of what it leaves, only that it ends.
ghost use Rattle.std.specs.Prelude.{◌<◌, ◌≤◌};

use crate::order::compare_places;
use crate::places::{place_at, swap};

// Of the two children of the number `i` the one whose string comes later; at least `n` where there is none below `n`.
fn later_child(s: &[u8], places: &[u16], i: usize, n: usize) -> usize
    requires { i < 65536 }
    ensures { i < result }
{
    let l = 2 * i + 1;
    let m = l + 1;
    if m < n {
        let p = place_at(places, l);
        let q = place_at(places, m);
        let k = compare_places(s, p, q);
        if k == 1 {
            return m;
        }
        return l;
    }
    l
}

// Moves the place at `start` down to where no child's string comes later, among the first `n`.
fn sift(s: &[u8], places: &mut [u16], start: usize, n: usize)
    requires { n ≤ 65536 }
{
    let mut i = start;
    while i < n {
        let j = later_child(s, places, i, n);
        if j < n {
            let p = place_at(places, i);
            let q = place_at(places, j);
            let k = compare_places(s, p, q);
            if k == 1 {
                swap(places, i, j);
                i = j;
            } else {
                return;
            }
        } else {
            return;
        }
    }
}

// No child's string comes later than its parent's.
fn make_heap(s: &[u8], places: &mut [u16], n: usize)
    requires { n ≤ 65536 }
{
    let mut i = n;
    while 0 < i {
        i -= 1;
        sift(s, places, i, n);
    }
}

// The first `n` places in the order of their strings.
pub fn sort(s: &[u8], places: &mut [u16], n: usize)
    requires { n ≤ 65536 }
{
    make_heap(s, places, n);
    let mut m = n;
    while 0 < m {
        m -= 1;
        swap(places, 0, m);
        sift(s, places, 0, m);
    }
}
