// Many names, in rounds: as many as there is room for are sorted by their places, and every later name is looked for among them. The sort needs no proof: what it
// left is checked. See specs/Rounds.antt.
ghost use Rattle.std.specs.Prelude.{◌-◌, ◌^◌, ◌≤◌, ◌<◌};
ghost use Rattle.distinct.specs.Rising.{Rising};
ghost use Rattle.read_json.specs.TreeAt.{string_at};
ghost use Rattle.read_jcal_parameters.specs.Rounds.{Stands, Found, Behind, Before, Apart, AbsentIn, Passes};

use crate::heap::sort;
use crate::order::compare_places;
use crate::places::{place_at, put_place};
use octets::smaller;
use read_json::member_at;

const ROOM: usize = 2048;

// Collects the places of the names from `from` on: how many.
fn collect(s: &[u8], from: usize, places: &mut [u16]) -> usize
    ensures { result ≤ 65536 }
{
    let mut c = from;
    let mut k = 0;
    while k < ROOM {
        let Some(m) = member_at(s, c) else {
            return k;
        };
        put_place(places, k, m.name);
        k += 1;
        c = m.next;
    }
    k
}

// How far the names rise in the order of their places, each before the next.
fn rise(s: &[u8], places: &[u16], n: usize) -> usize
    ensures { Rising (string_at s.now) places.now result }
{
    let mut i = 0;
    while i + 1 < n {
        let p = place_at(places, i);
        let q = place_at(places, i + 1);
        let k = compare_places(s, p, q);
        if k == 1 {
            i += 1;
        } else {
            return i + 1;
        }
    }
    n
}

// How many of the first `n` names go before the one at `p`, where they rise: a search by halves.
fn find(s: &[u8], places: &[u16], n: usize, p: usize) -> usize
    requires { p < 2 ^ 63 - 1 }
    ensures { result ≤ n }
{
    let mut low = 0;
    let mut high = n;
    while low < high {
        let half = low + (high - low) / 2;
        let q = place_at(places, half);
        let k = compare_places(s, q, p);
        if k == 1 {
            low = half + 1;
        } else {
            high = half;
        }
    }
    low
}

// The place `p` is one of the first `n`.
fn is_found(s: &[u8], places: &[u16], n: usize, p: usize) -> bool
    requires { p < 2 ^ 63 - 1 }
    ensures { Stands places.now n p result }
{
    let i = find(s, places, n, p);
    i < n && place_at(places, i) == p
}

// The place behind the members from `from` on whose places are found.
fn found_end(s: &[u8], from: usize, places: &[u16], n: usize) -> usize
    ensures { Found s.now places.now n from result }
{
    let mut c = from;
    while let Some(m) = member_at(s, c) {
        if !is_found(s, places, n, m.name) {
            return c;
        }
        c = m.next;
    }
    c
}

// The name at `p` goes behind the last of the first `i`, if there is one.
fn is_behind(s: &[u8], places: &[u16], i: usize, p: usize) -> bool
    requires { p < 2 ^ 63 - 1 }
    ensures { Behind s.now places.now i p result }
{
    if 0 < i {
        let q = place_at(places, i - 1);
        let k = compare_places(s, q, p);
        return k == 1;
    }
    true
}

// The name at `p` goes before that of the number `i`, if that is below `n`.
fn is_before(s: &[u8], places: &[u16], n: usize, i: usize, p: usize) -> bool
    requires { p < 2 ^ 63 - 1 }
    ensures { Before s.now places.now n i p result }
{
    if i < n {
        let q = place_at(places, i);
        let k = compare_places(s, p, q);
        return k == 1;
    }
    true
}

// The name at `p` is none of the first `n`, which rise: it goes between two of them.
fn is_between(s: &[u8], places: &[u16], n: usize, i: usize, p: usize) -> bool
    requires { (p < 2 ^ 63 - 1) × (i ≤ n) × Rising (string_at s.now) places.now n }
    ensures { Apart s.now places.now n p result }
{
    let behind = is_behind(s, places, i, p);
    if behind {
        return is_before(s, places, n, i, p);
    }
    false
}

// None of the names from `from` on is one of the first `n`, which rise; or the place of that one.
fn absent(s: &[u8], from: usize, places: &[u16], n: usize) -> Result<(), usize>
    requires { Rising (string_at s.now) places.now n }
    ensures { AbsentIn s.now places.now n from result }
{
    let mut c = from;
    while let Some(m) = member_at(s, c) {
        let i = find(s, places, n, m.name);
        if !is_between(s, places, n, i, m.name) {
            return Err(place_at(places, i));
        }
        c = m.next;
    }
    Ok(())
}

// The earlier of the places of the numbers `r - 1` and `r`.
fn earlier(places: &[u16], r: usize) -> usize {
    if 0 < r {
        let p = place_at(places, r - 1);
        let q = place_at(places, r);
        return smaller(p, q);
    }
    0
}

// The round of the names from `from` on, of which the first `n` places hold some: the place behind them, where they are all different and none comes again;
// else a place where one that comes again may stand.
fn judge(s: &[u8], from: usize, places: &[u16], n: usize) -> Result<usize, usize>
    ensures { Passes s.now from result }
{
    let r = rise(s, places, n);
    if r < n {
        return Err(earlier(places, r));
    }
    let end = found_end(s, from, places, n);
    absent(s, end, places, n)?;
    Ok(end)
}

// The same, whatever `places` holds.
pub fn pass(s: &[u8], from: usize, places: &mut [u16]) -> Result<usize, usize>
    ensures { Passes s.now from result }
{
    let n = collect(s, from, places);
    sort(s, places, n);
    judge(s, from, places, n)
}
