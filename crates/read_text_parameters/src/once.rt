// Parameters that come again. See specs/Comparing.antt and specs/Collecting.antt.
ghost use Rattle.std.specs.Prelude.{◌≡◌, true, [], take};
ghost use Rattle.octets.specs.Class.{upper};
ghost use Rattle.octets.specs.Words.{same, is_one_of};
ghost use Rattle.source.specs.Source.{rest};
ghost use Rattle.distinct.specs.Again.{first_again};
ghost use Rattle.read_text_line.specs.Cursor.{params_at};
ghost use Rattle.read_text_parameters.specs.Cutting.{name_cut};
ghost use Rattle.read_text_parameters.specs.Comparing.{names_of};
ghost use Rattle.read_text_parameters.specs.Collecting.{Collected};
ghost use Rattle.read_text_parameters.specs.Rounds.{EndsAt};

use crate::rounds::pass_all;
use distinct::keep;
use octets::unit::END;
use octets::{smaller, upper_unit};
use read_text_line::next_param;
use source::{Cut, Cuttable, Encoding, unit};

// The words from two cursors on are the same, in any case.
fn are_same<E: Encoding>(s: &[u8], a: usize, t: &[u8], b: usize) -> bool
    ensures { result ≡ same (upper (rest E.encoding s.now a)) (upper (rest E.encoding t.now b)) }
{
    let mut c = a;
    let mut d = b;
    loop {
        let x = unit::<E>(s, c);
        let y = unit::<E>(t, d);
        let xu = upper_unit(x.u);
        let yu = upper_unit(y.u);
        if xu == yu {
            if x.u == END {
                return true;
            }
            c = x.next;
            d = y.next;
        } else {
            return false;
        }
    }
}

// The names from `a` to `e` and from `b` to `f` are the same, in any case.
fn same_names<E: Encoding>(s: &[u8], a: usize, e: usize, b: usize, f: usize) -> bool
    ensures { result ≡ same (name_cut E.encoding s.now a e) (name_cut E.encoding s.now b f) }
{
    let x = smaller(e, s.len());
    let y = smaller(f, s.len());
    are_same::<E>(&s[..x], a, &s[..y], b)
}

// One of the first `k` parameters from the cursor `e` on has the name.
pub fn stands_before<E: Cuttable>(s: &[u8], e: usize, k: usize, name: usize, end: usize) -> bool
    ensures { result ≡ is_one_of (name_cut E.encoding s.now name end)
        (take k (names_of (params_at E.encoding s.now e))) }
{
    let mut c = e;
    let mut left = k;
    while 0 < left {
        let Ok(Some(a)) = next_param::<E>(s, c) else {
            return false;
        };
        if same_names::<E>(s, name, end, a.name, a.end) {
            return true;
        }
        c = a.next;
        left -= 1;
    }
    false
}

// Collects the names from the cursor `e` on by their cursors: how many, where there is room for all.
fn collect<E: Cuttable>(s: &[u8], e: usize, from: &mut [u16], to: &mut [u16]) -> Option<usize>
    ensures { Collected E.encoding s.now e from.new to.new result }
{
    let mut c = e;
    let mut k = 0;
    while let Ok(Some(a)) = next_param::<E>(s, c) {
        if !keep(from, to, k, a.name, a.end) {
            return None;
        }
        c = a.next;
        k += 1;
    }
    Some(k)
}

// The place of the first parameter from the cursor `e` on that comes again, their number where none does: each is compared with all before it.
fn first_compared<E: Cuttable>(s: &[u8], e: usize) -> usize
    ensures { result ≡ first_again [] (names_of (params_at E.encoding s.now e)) }
{
    let mut c = e;
    let mut k = 0;
    while let Ok(Some(a)) = next_param::<E>(s, c) {
        if stands_before::<E>(s, e, k, a.name, a.end) {
            return k;
        }
        c = a.next;
        k += 1;
    }
    k
}

// The same by the names collected, where there is room for all of them: of a line of 65,535 bytes there is. Where there is not, it calls itself with no try left:
// what calls itself is never laid into the frame of its caller, and the frames of a text with its folds in place are to be small.
fn first_sorted<E: Cuttable>(s: &[u8], e: usize, tries: usize) -> usize
    ensures { result ≡ first_again [] (names_of (params_at E.encoding s.now e)) }
{
    if tries == 0 {
        return first_compared::<E>(s, e);
    }
    let mut from = [0u16; 21846];
    let mut to = [0u16; 21846];
    if let Some(count) = collect::<E>(s, e, &mut from, &mut to) {
        return distinct::first_again::<E>(s, &from, &to, count);
    }
    first_sorted::<E>(s, e, tries - 1)
}

// No parameter is there at the cursor `c`, behind the first `k` from `e` on; or one that has the name of one of those.
fn is_end<E: Cuttable>(s: &[u8], e: usize, k: usize, c: usize) -> bool
    ensures { EndsAt E.encoding s.now e k c result }
{
    let Ok(Some(a)) = next_param::<E>(s, c) else {
        return true;
    };
    stands_before::<E>(s, e, k, a.name, a.end)
}

// The same in rounds, with little room. That those end where none is there or one comes again is checked; else it calls itself with no try left.
fn first_in_rounds<E: Cuttable>(s: &[u8], e: usize, tries: usize) -> usize
    ensures { result ≡ first_again [] (names_of (params_at E.encoding s.now e)) }
{
    if tries == 0 {
        return first_compared::<E>(s, e);
    }
    let mut places = [0u16; 2048];
    let r = pass_all::<E>(s, e, &mut places);
    if is_end::<E>(s, e, r.count, r.next) {
        return r.count;
    }
    first_in_rounds::<E>(s, e, tries - 1)
}

// The same: by sorting, which takes large arrays; in a text with its folds in place, which is read where memory is scarce, in rounds.
pub fn first_again<E: Cuttable>(s: &[u8], e: usize) -> usize
    ensures { result ≡ first_again [] (names_of (params_at E.encoding s.now e)) }
{
    match E::cut() {
        Some(Cut::Folded) => first_in_rounds::<E>(s, e, 1),
        _ => first_sorted::<E>(s, e, 1),
    }
}
