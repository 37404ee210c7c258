// Names and words over a cursor (crate source): compared and written in a given case, looked up in a table.
// The source is cut at the word's end by the caller: the word is all that stands from the cursor on.
#![tactic(auto)]

pub mod packed;

ghost use Rattle.std.specs.Prelude.{◌≡◌, ◌≤◌, length};
ghost use Rattle.octets.specs.Class.{is_name_char, upper, lower};
ghost use Rattle.octets.specs.Words.{same};
ghost use Rattle.source.specs.Source.{rest};
ghost use Rattle.sink.specs.Sink.{Put};
ghost use Rattle.names.specs.Case.{cased, cased_byte, case_of};
ghost use Rattle.names.specs.Table.{place_of, names_in};
ghost use Rattle.names.specs.Matching.{is_over, Turned, Passes};
ghost use Rattle.names.specs.Runs.{RunEnds};

use octets::unit::END;
use octets::{is_name_char, lower_unit, upper_unit, wide};
use sink::put;
use source::{Encoding, unit};

// The case in which a word is compared or written.
#[derive(Clone, Copy, Debug, PartialEq, Eq)]
pub enum Case {
    Kept,
    Capital,
    Small,
}

fn case_of(xcal: bool) -> Case
    ensures { result ≡ case_of xcal }
{
    if xcal { Case::Kept } else { Case::Capital }
}

fn cased_unit(k: Case, u: usize) -> usize
    ensures { result ≡ cased_byte k u }
{
    match k {
        Case::Kept => u,
        Case::Capital => upper_unit(u),
        Case::Small => lower_unit(u),
    }
}

// A word whose cursor is `word` is at its end; one that has no cursor differs already.
fn is_end<E: Encoding>(s: &[u8], word: Option<usize>) -> bool
    ensures { result ≡ is_over E.encoding s.now word }
{
    match word {
        Some(at) => unit::<E>(s, at).u == END,
        None => false,
    }
}

// The cursor in a word that goes on, in the case `k`, with the byte `t` of a table's name; `word` is that before it, as long as the two are the same.
fn turn<E: Encoding>(k: Case, s: &[u8], word: Option<usize>, t: u8) -> Option<usize>
    ensures { Turned k E.encoding s.now word t result }
{
    let n = unit::<E>(s, word?);
    if cased_unit(k, n.u) == wide(t) {
        return Some(n.next);
    }
    None
}

// Where the name that stands at `from` in a table is over: at its line feed, or at the end of the table.
fn name_over(table: &[u8], from: usize) -> usize
    requires { from ≤ length table.now }
    ensures { Passes table.now from result }
{
    let mut i = from;
    while i < table.len() {
        if table[i] == b'\n' {
            return i;
        }
        i += 1;
    }
    i
}

// The number of the word in a table of names each ended by a line feed; the number of all names where there is none.
fn find_cased<E: Encoding>(k: Case, s: &[u8], at: usize, table: &[u8]) -> usize
    ensures { result ≡ place_of (cased k (rest E.encoding s.now at)) (names_in table.now) }
{
    let mut name = 0;
    let mut word = Some(at);
    let mut i = 0;
    while i < table.len() {
        let t = table[i];
        if t == b'\n' {
            if is_end::<E>(s, word) {
                return name;
            }
            name += 1;
            word = Some(at);
            i += 1;
        } else {
            word = turn::<E>(k, s, word, t);
            match word {
                Some(_) => i += 1,
                None => i = name_over(table, i + 1),
            }
        }
    }
    name
}

// The number of a word, in any case in text, as it stands in XML; the number of all names where the table has none such: that is the number of an unrecognised type or part.
pub fn find_word<E: Encoding>(xcal: bool, s: &[u8], at: usize, table: &[u8]) -> usize
    ensures { result ≡ place_of (cased (case_of xcal) (rest E.encoding s.now at)) (names_in table.now) }
{
    find_cased::<E>(case_of(xcal), s, at, table)
}

// The word, in the case `k`, is `w`.
fn is_cased<E: Encoding>(k: Case, s: &[u8], at: usize, w: &[u8]) -> bool
    ensures { result ≡ same (cased k (rest E.encoding s.now at)) w.now }
{
    let mut c = at;
    let mut i = 0;
    while i < w.len() {
        let n = unit::<E>(s, c);
        if cased_unit(k, n.u) != wide(w[i]) {
            return false;
        }
        c = n.next;
        i += 1;
    }
    unit::<E>(s, c).u == END
}

// The word is `w` as it stands.
pub fn is_word<E: Encoding>(s: &[u8], at: usize, w: &[u8]) -> bool
    ensures { result ≡ same (rest E.encoding s.now at) w.now }
{
    is_cased::<E>(Case::Kept, s, at, w)
}

// The word is `w`, which has no small letters, in any case.
pub fn is_word_any_case<E: Encoding>(s: &[u8], at: usize, w: &[u8]) -> bool
    ensures { result ≡ same (upper (rest E.encoding s.now at)) w.now }
{
    is_cased::<E>(Case::Capital, s, at, w)
}

// Writes the word in the case `k`.
fn put_cased<E: Encoding>(out: &mut [u8], o: usize, k: Case, s: &[u8], at: usize) -> usize
    ensures { Put out.old out.new o result (cased k (rest E.encoding s.now at)) }
{
    let mut p = o;
    let mut c = at;
    loop {
        let n = unit::<E>(s, c);
        if n.u == END {
            return p;
        }
        let v = cased_unit(k, n.u);
        p = put(out, p, v as u8);
        c = n.next;
    }
}

pub fn put_rest<E: Encoding>(out: &mut [u8], o: usize, s: &[u8], at: usize) -> usize
    ensures { Put out.old out.new o result (rest E.encoding s.now at) }
{
    put_cased::<E>(out, o, Case::Kept, s, at)
}

pub fn put_upper<E: Encoding>(out: &mut [u8], o: usize, s: &[u8], at: usize) -> usize
    ensures { Put out.old out.new o result (upper (rest E.encoding s.now at)) }
{
    put_cased::<E>(out, o, Case::Capital, s, at)
}

pub fn put_lower<E: Encoding>(out: &mut [u8], o: usize, s: &[u8], at: usize) -> usize
    ensures { Put out.old out.new o result (lower (rest E.encoding s.now at)) }
{
    put_cased::<E>(out, o, Case::Small, s, at)
}

// The cursor after the characters of a name.
pub fn name_end<E: Encoding>(s: &[u8], at: usize) -> usize
    ensures { RunEnds is_name_char E.encoding s.now at result }
{
    let mut c = at;
    loop {
        let n = unit::<E>(s, c);
        if !is_name_char(n.u) {
            return c;
        }
        c = n.next;
    }
}
