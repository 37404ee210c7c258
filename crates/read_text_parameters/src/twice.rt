// The names of a round that come again, left out of it. Nothing is promised of what is left: it is checked.
ghost use Rattle.std.specs.Prelude.{◌+◌, ◌≤◌, ◌<◌};

use crate::heap::sort;
use crate::named::name_at;
use crate::order::compare_names;
use crate::places::{place_at, put_place};
use octets::smaller;
use source::Encoding;

// So many names are in a round.
const ROOM: usize = 2048;

// Collects the places of the names from `from` on, `most` of them and as many as there is room for: how many.
fn collect<E: Encoding>(s: &[u8], from: usize, most: usize, places: &mut [u16]) -> usize
    ensures { result ≤ 65536 }
{
    let n = smaller(most, ROOM);
    let mut c = from;
    let mut k = 0;
    while k < n {
        let Some(a) = name_at::<E>(s, c) else {
            return k;
        };
        put_place(places, k, a.name);
        k += 1;
        c = a.next;
    }
    k
}

// The smaller of `least`, if there is one, and `q`, if the names at `p` and `q` are the same.
fn again_at<E: Encoding>(s: &[u8], p: usize, q: usize, least: Option<usize>) -> Option<usize> {
    let k = compare_names::<E>(s, p, q);
    if k == 0 {
        return match least {
            Some(l) => Some(smaller(l, q)),
            None => Some(q),
        };
    }
    least
}

// The smallest of the first `n` places, which are sorted, whose name is that of a place before it, if there is one.
fn first_twice<E: Encoding>(s: &[u8], places: &[u16], n: usize) -> Option<usize> {
    let mut i = 0;
    let mut least = None;
    while i + 1 < n {
        let p = place_at(places, i);
        let q = place_at(places, i + 1);
        least = again_at::<E>(s, p, q, least);
        i += 1;
    }
    least
}

// The place `p` is below `least`, if there is one.
fn is_below(p: usize, least: Option<usize>) -> bool {
    match least {
        Some(l) => p < l,
        None => true,
    }
}

// Puts the place `p` at the number `k`, if it is below `least`: the number behind it.
fn put_below(places: &mut [u16], k: usize, p: usize, least: Option<usize>) -> usize
    requires { k < 65536 }
    ensures { result ≤ k + 1 }
{
    if is_below(p, least) {
        put_place(places, k, p);
        return k + 1;
    }
    k
}

// Of the first `n` places those below `least`, in the same order: how many.
fn put_all_below(places: &mut [u16], n: usize, least: Option<usize>) -> usize
    requires { n ≤ 65536 }
    ensures { result ≤ 65536 }
{
    let mut i = 0;
    let mut k = 0;
    while i < n {
        let p = place_at(places, i);
        k = put_below(places, k, p, least);
        i += 1;
    }
    k
}

// The places of the names from `from` on, `most` of them at most, up to the first that comes again, in the order of their names: how many.
pub fn put_round<E: Encoding>(s: &[u8], from: usize, most: usize, places: &mut [u16]) -> usize {
    let n = collect::<E>(s, from, most, places);
    sort::<E>(s, places, n);
    let least = first_twice::<E>(s, places, n);
    put_all_below(places, n, least)
}
