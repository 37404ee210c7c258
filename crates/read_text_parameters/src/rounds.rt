// Parameters that come again, found with little room, in rounds: as many names as there is room for are sorted by their places, and every later name is
// looked for among them, up to the first that is found. The sort needs no proof: what it left is checked. See specs/Rounds.antt.
ghost use Rattle.std.specs.Prelude.{◌≤◌};
ghost use Rattle.distinct.specs.Rising.{Rising};
ghost use Rattle.read_text_parameters.specs.Comparing.{Comparing};
ghost use Rattle.read_text_parameters.specs.Naming.{name_at};
ghost use Rattle.read_text_parameters.specs.Rounds.{Stands, HeldIf, Found, Behind, Before, Apart, Absent};
ghost use Rattle.read_text_parameters.specs.Rounds.{Passes};

use crate::named::{NameCursors, name_at};
use crate::order::compare_names;
use crate::places::place_at;
use crate::twice::put_round;
use source::Encoding;

// A round: how many names it passed, the cursor behind them, and how many of those behind it are none of them.
#[derive(Clone, Copy)]
pub struct Round {
    pub count: usize,
    pub next: usize,
    pub left: usize,
}

// More names than a line has.
const MOST: usize = 65536;

// How far the names rise in the order of their places, each before the next.
fn rise<E: Encoding>(s: &[u8], places: &[u16], n: usize) -> usize
    ensures { Rising (name_at E.encoding s.now) places.now result }
{
    let mut i = 0;
    while i + 1 < n {
        let p = place_at(places, i);
        let q = place_at(places, i + 1);
        let k = compare_names::<E>(s, p, q);
        if k == 1 {
            i += 1;
        } else {
            return i + 1;
        }
    }
    n
}

// How many of the first `n` names go before the one at `p`, where they rise: a search by halves.
fn find<E: Encoding>(s: &[u8], places: &[u16], n: usize, p: usize) -> usize
    ensures { result ≤ n }
{
    let mut low = 0;
    let mut high = n;
    while low < high {
        let half = low + (high - low) / 2;
        let q = place_at(places, half);
        let k = compare_names::<E>(s, q, p);
        if k == 1 {
            low = half + 1;
        } else {
            high = half;
        }
    }
    low
}

// The place `p` is one of the first `n`.
fn is_found<E: Encoding>(s: &[u8], places: &[u16], n: usize, p: usize) -> bool
    ensures { Stands places.now n p result }
{
    let i = find::<E>(s, places, n, p);
    if i < n {
        let q = place_at(places, i);
        return q == p;
    }
    false
}

// The name at the cursor `c`, if its place is one of the first `n`.
fn held_at<E: Encoding>(s: &[u8], places: &[u16], n: usize, c: usize) -> Option<NameCursors>
    ensures { HeldIf E.encoding s.now places.now n c result }
{
    let a = name_at::<E>(s, c)?;
    if is_found::<E>(s, places, n, a.name) {
        return Some(a);
    }
    None
}

// The names from `from` on whose places are found, `left` of them at most; `left` is then how many more there may be.
fn found_end<E: Encoding>(s: &[u8], from: usize, left: usize, places: &[u16], n: usize) -> Round
    requires { Rising (name_at E.encoding s.now) places.now n }
    ensures { Found E.encoding s.now places.now n from left result }
{
    let mut c = from;
    let mut k = 0;
    let mut more = left;
    while 0 < more {
        let Some(a) = held_at::<E>(s, places, n, c) else {
            return Round {
                count: k,
                next: c,
                left: more,
            };
        };
        c = a.next;
        k += 1;
        more -= 1;
    }
    Round {
        count: k,
        next: c,
        left: more,
    }
}

// The name at `p` goes behind the last of the first `i`, if there is one.
fn is_behind<E: Encoding>(s: &[u8], places: &[u16], i: usize, p: usize) -> bool
    ensures { Behind E.encoding s.now places.now i p result }
{
    if 0 < i {
        let q = place_at(places, i - 1);
        let k = compare_names::<E>(s, q, p);
        return k == 1;
    }
    true
}

// The name at `p` goes before that of the number `i`, if that is below `n`.
fn is_before<E: Encoding>(s: &[u8], places: &[u16], n: usize, i: usize, p: usize) -> bool
    ensures { Before E.encoding s.now places.now n i p result }
{
    if i < n {
        let q = place_at(places, i);
        let k = compare_names::<E>(s, p, q);
        return k == 1;
    }
    true
}

// The name at `p` is none of the first `n`, which rise: it goes between two of them.
fn is_between<E: Encoding>(s: &[u8], places: &[u16], n: usize, i: usize, p: usize) -> bool
    requires { (i ≤ n) × Rising (name_at E.encoding s.now) places.now n }
    ensures { Apart E.encoding s.now places.now n p result }
{
    let behind = is_behind::<E>(s, places, i, p);
    if behind {
        return is_before::<E>(s, places, n, i, p);
    }
    false
}

// How many of the names from `from` on, `left` of them at most, are none of the first `n`, which rise.
fn absent<E: Encoding>(s: &[u8], from: usize, left: usize, places: &[u16], n: usize) -> usize
    requires { Rising (name_at E.encoding s.now) places.now n }
    ensures { Absent E.encoding s.now places.now n from left result }
{
    let mut c = from;
    let mut k = 0;
    while k < left {
        let Some(a) = name_at::<E>(s, c) else {
            return k;
        };
        let i = find::<E>(s, places, n, a.name);
        if !is_between::<E>(s, places, n, i, a.name) {
            return k;
        }
        c = a.next;
        k += 1;
    }
    k
}

// The round of the names from `from` on, `left` of them at most, of which the first `n` places hold some.
fn judge<E: Encoding>(s: &[u8], from: usize, left: usize, places: &[u16], n: usize) -> Round
    ensures { Passes E.encoding s.now from left result }
{
    let r = rise::<E>(s, places, n);
    if r < n {
        return Round {
            count: 0,
            next: from,
            left: 0,
        };
    }
    let f = found_end::<E>(s, from, left, places, n);
    let k = absent::<E>(s, f.next, f.left, places, n);
    Round {
        count: f.count,
        next: f.next,
        left: k,
    }
}

// The round of the names from `from` on, `left` of them at most, for which `places` is the room.
fn pass<E: Encoding>(s: &[u8], from: usize, left: usize, places: &mut [u16]) -> Round
    ensures { Passes E.encoding s.now from left result }
{
    let n = put_round::<E>(s, from, left, places);
    judge::<E>(s, from, left, places, n)
}

// The names from the cursor `e` on, up to the first that comes again: how many, and the cursor behind them. They are all different.
pub fn pass_all<E: Encoding>(s: &[u8], e: usize, places: &mut [u16]) -> Round
    ensures { Comparing E.encoding s.now e result.count result.next }
{
    let mut c = e;
    let mut k = 0;
    let mut left = MOST;
    while 0 < left {
        let r = pass::<E>(s, c, left, places);
        if r.left < left {
            c = r.next;
            k += r.count;
            left = r.left;
        } else {
            return Round {
                count: k,
                next: c,
                left,
            };
        }
    }
    Round {
        count: k,
        next: c,
        left,
    }
}
