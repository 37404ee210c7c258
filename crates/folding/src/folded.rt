// A content line as it is written, with its folds and its CRLF. See specs/Fold.antt.
ghost use Rattle.std.specs.Prelude.{◌≡◌, [], ◌∷◌, ◌≤◌, length};
ghost use Rattle.octets.specs.Pick.{pick};
ghost use Rattle.sink.specs.Sink.{Put};
ghost use Rattle.folding.specs.Fold.{width, longest, folded_line};
ghost use Rattle.folding.specs.Rows.{Takes, row};

use octets::smaller;
use sink::{onward, put, put_all};

// CRLF.
const BREAK: [u8; 2] = [b'\r', b'\n'];

// How many octets the character has that begins with `b`.
fn width_of(b: u8) -> usize
    ensures { (result ≡ width b) × (result ≤ 4) }
{
    if b < 0xC0 {
        return 1;
    }
    if b < 0xE0 {
        return 2;
    }
    if b < 0xF0 {
        return 3;
    }
    4
}

// Where a line stops that has `c` octets already and goes on with `s` from `i`.
fn row_end(s: &[u8], i: usize, c: usize) -> usize
    requires { (i ≤ length s.now) × (c ≤ longest) }
    ensures { Takes c s.now i result }
{
    let mut j = i;
    let mut k = c;
    while j < s.len() {
        let w = width_of(s[j]);
        if 75 < k + w {
            return j;
        } else {
            k += 1;
            j += 1;
        }
    }
    j
}

// What a line begins with: a space if it goes on with the one before.
fn put_lead(out: &mut [u8], more: bool) -> usize
    ensures { Put out.old out.new 0 result (pick more (32 ∷ []) []) }
{
    if more {
        return put(out, 0, b' ');
    }
    0
}

// A line, at the front of what is lent.
fn put_row(out: &mut [u8], more: bool, s: &[u8]) -> usize
    ensures { Put out.old out.new 0 result (row more s.now) }
{
    let o = put_lead(out, more);
    let p = put_all(out, o, s);
    put_all(out, p, &BREAK)
}

// A line, from an index: what is lent on is the rest of the output, which may be empty.
fn put_row_at(out: &mut [u8], at: usize, more: bool, s: &[u8]) -> usize
    ensures { Put out.old out.new at result (row more s.now) }
{
    let from = smaller(at, out.len());
    let n = put_row(&mut out[from..], more, s);
    onward(at, n)
}

// The content line `s`.
pub fn put_folded(out: &mut [u8], at: usize, s: &[u8]) -> usize
    ensures { Put out.old out.new at result (folded_line s.now) }
{
    let mut i = row_end(s, 0, 0);
    let mut o = put_row_at(out, at, false, &s[..i]);
    while i < s.len() {
        let e = row_end(s, i, 1);
        o = put_row_at(out, o, true, &s[i..e]);
        i = e;
    }
    o
}
