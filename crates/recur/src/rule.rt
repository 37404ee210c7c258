// A whole rule in text, over an encoding whose cursors are indices. See specs/Pieces.antt and specs/Noted.antt.
ghost use Rattle.std.specs.Prelude.{◌≡◌, true, [], get_or};
ghost use Rattle.octets.specs.Class.{upper};
ghost use Rattle.octets.specs.Words.{cut_at};
ghost use Rattle.octets.specs.Reading.{is_read};
ghost use Rattle.octets.specs.Front.{past};
ghost use Rattle.source.specs.Source.{rest, Within};
ghost use Rattle.names.specs.Table.{place_of};
ghost use Rattle.names.specs.Packing.{lookup};
ghost use Rattle.recur.specs.Parts.{part_names, part_of, is_listed};
ghost use Rattle.recur.specs.Packs.{part_rows1, part_rows2};
ghost use Rattle.recur.specs.Rule.{is_equals, read_part, read_rule};
ghost use Rattle.recur.specs.Pieces.{Ends, place_at, are_items};
ghost use Rattle.recur.specs.Noted.{Parted, whole_in};

use crate::item::is_item;
use crate::part;
use names::packed::pack;
use octets::unit::{COMMA, END, EQUALS, SEMICOLON};
use source::{Cuttable, Encoding, unit};

const LISTED: [u8; 14] = [0, 0, 0, 0, 1, 1, 1, 1, 1, 1, 1, 1, 1, 0];

// The cursor at the first byte `k`, or at the end.
pub fn byte_end<E: Encoding>(k: usize, s: &[u8], at: usize) -> usize
    requires { Within E.encoding s.now at }
    ensures { Ends k E.encoding s.now at result }
{
    let mut c = at;
    loop {
        let t = unit::<E>(s, c);
        if t.u == END {
            return c;
        }
        if t.u == k {
            return c;
        }
        c = t.next;
    }
}

fn part_1(high: u64, low: u64) -> usize
    ensures { result ≡ lookup high low part_rows1 14 }
{
    if (low == 0x18d4a2d1) & (high == 0x0) {
        return part::FREQ;
    }
    if (low == 0x1af2e9d4) & (high == 0x0) {
        return part::WKST;
    }
    if (low == 0xc2b3120d9) & (high == 0x0) {
        return part::BYDAY;
    }
    if (low == 0xc39f56754) & (high == 0x0) {
        return part::COUNT;
    }
    if (low == 0xd59d524cc) & (high == 0x0) {
        return part::UNTIL;
    }
    if (low == 0x6159913ead2) & (high == 0x0) {
        return part::BYHOUR;
    }
    if (low == 0x30accd9f3aa48) & (high == 0x0) {
        return part::BYMONTH;
    }
    part::KNOWN
}

fn part_2(high: u64, low: u64) -> usize
    ensures { result ≡ lookup high low part_rows2 14 }
{
    if (low == 0x85666c99d56a45) & (high == 0x1) {
        return part::BYMINUTE;
    }
    if (low == 0x85669c5873e744) & (high == 0x1) {
        return part::BYSECOND;
    }
    if (low == 0x85669c5a9427d3) & (high == 0x1) {
        return part::BYSETPOS;
    }
    if (low == 0x8566bc58b2e74f) & (high == 0x1) {
        return part::BYWEEKNO;
    }
    if (low == 0x933aa45a55a0cc) & (high == 0x1) {
        return part::INTERVAL;
    }
    if (low == 0x9b3e75491120d9) & (high == 0x6159) {
        return part::BYMONTHDAY;
    }
    if (low == 0xb3662c1a5120d9) & (high == 0xc2) {
        return part::BYYEARDAY;
    }
    part::KNOWN
}

// The place of a part's name, in any case, by its number (specs/Packing.antt of crate names); part::KNOWN where no part has that name.
fn part_number<E: Encoding>(s: &[u8], at: usize) -> usize
    ensures { result ≡ place_of (upper (rest E.encoding s.now at)) part_names }
{
    let w = pack::<E>(s, at);
    if w.low < 0x85666c99d56a45 {
        return part_1(w.high, w.low);
    }
    part_2(w.high, w.low)
}

// The place of a piece's name.
fn part_place<E: Encoding>(s: &[u8], at: usize) -> usize
    requires { Within E.encoding s.now at }
    ensures { result ≡ place_at (rest E.encoding s.now at) }
{
    let e = byte_end::<E>(EQUALS, s, at);
    part_number::<E>(&s[..e], at)
}

// The cursor after a piece's name and =.
pub fn value_at<E: Encoding>(s: &[u8], at: usize) -> usize
    requires { Within E.encoding s.now at }
    ensures { (past is_equals (rest E.encoding s.now at) ≡ rest E.encoding s.now result)
        × Within E.encoding s.now result }
{
    let e = byte_end::<E>(EQUALS, s, at);
    let n = unit::<E>(s, e);
    if n.u == END {
        return e;
    }
    n.next
}

// The part at the place `p` has a list of items.
pub fn is_list_part(p: usize) -> bool
    ensures { result ≡ is_listed (part_of (get_or part_names p [])) }
{
    if p < part::KNOWN {
        return LISTED[p] == 1;
    }
    false
}

// Each piece between commas is an item of the part at the place `p`.
fn are_items<E: Encoding>(p: usize, s: &[u8], at: usize) -> bool
    requires { Within E.encoding s.now at }
    ensures { result ≡ are_items p (cut_at 44 (rest E.encoding s.now at)) }
{
    let mut c = at;
    loop {
        let e = byte_end::<E>(COMMA, s, c);
        if !is_item::<E>(p, false, &s[..e], c) {
            return false;
        }
        let n = unit::<E>(s, e);
        if n.u == END {
            return true;
        }
        c = n.next;
    }
}

// A piece, whose name is at the place `p`, is a part.
fn is_part<E: Encoding>(p: usize, s: &[u8], at: usize) -> bool
    requires { (p ≡ place_at (rest E.encoding s.now at)) × Within E.encoding s.now at }
    ensures { result ≡ is_read (read_part (rest E.encoding s.now at)) }
{
    let v = value_at::<E>(s, at);
    if is_list_part(p) {
        return are_items::<E>(p, s, v);
    }
    is_item::<E>(p, false, s, v)
}

// FREQ is there; UNTIL and COUNT are not both there.
fn is_whole(begins: [Option<usize>; 14]) -> bool
    ensures { result ≡ whole_in begins }
{
    begins[part::FREQ].is_some() && (begins[part::UNTIL].is_none() || begins[part::COUNT].is_none())
}

// The parts from the cursor `at` to the end: each piece is one, and no two have the same name. Of each of the 14, the cursor at its piece, if it is there.
fn find_parts<E: Encoding>(s: &[u8], at: usize) -> Option<[Option<usize>; 14]>
    requires { Within E.encoding s.now at }
    ensures { Parted E.encoding s.now at result }
{
    let mut begins = [None; 14];
    let mut c = at;
    loop {
        let e = byte_end::<E>(SEMICOLON, s, c);
        let p = part_place::<E>(&s[..e], c);
        if !is_part::<E>(p, &s[..e], c) {
            return None;
        }
        if begins[p].is_some() {
            return None;
        }
        begins[p] = Some(c);
        let n = unit::<E>(s, e);
        if n.u == END {
            if is_whole(begins) {
                return Some(begins);
            }
            return None;
        }
        c = n.next;
    }
}

// The rule from the cursor `at` to the end: where its parts stand.
pub fn read_parts<E: Cuttable>(s: &[u8], at: usize) -> Option<[Option<usize>; 14]>
    ensures { Parted E.encoding s.now at result }
{
    if s.len() < at {
        return None;
    }
    find_parts::<E>(s, at)
}

// There is a rule from the cursor `at` to the end.
pub fn read_rule<E: Cuttable>(s: &[u8], at: usize) -> bool
    ensures { result ≡ is_read (read_rule (rest E.encoding s.now at)) }
{
    read_parts::<E>(s, at).is_some()
}
