// The XML profile in one pass. See specs/Formed.antt.
ghost use Rattle.std.specs.Prelude.{◌≡◌, ◌≤◌, ◌<◌, length, take};
ghost use Rattle.octets.specs.Words.{same};
ghost use Rattle.source.specs.Source.{rest};
ghost use Rattle.xml.specs.WellFormed.{xml_verdict};
ghost use Rattle.read_xml_tokens.specs.TokenAt.{Reads, token_in};
ghost use Rattle.read_xml_tokens.specs.Open.{room_at, may_stand, closes_at};
ghost use Rattle.read_xml_tokens.specs.Formed.{Formed, verdict_at, After};

use crate::tag::root_at;
use crate::token::token_at;
use crate::{TokenAt, TokenKind};
use names::is_word;
use octets::is_space;
use refusals::{Fault, Refusal};
use source::Plain;

// The name from `a` to `e` is that from `b` to `f`.
fn same_name(s: &[u8], a: usize, e: usize, b: usize, f: usize) -> bool
    requires { (b ≤ f) × (f ≤ length s.now) }
    ensures { result ≡ same (rest 0 (take e s.now) a) (rest 0 (take f s.now) b) }
{
    if e <= s.len() {
        return is_word::<Plain>(&s[..e], a, &s[b..f]);
    }
    is_word::<Plain>(s, a, &s[b..f])
}

// An element may start inside `depth` open ones, after the root's start.
fn has_room(depth: usize) -> bool
    ensures { result ≡ room_at depth }
{
    depth != 0 && depth < 32
}

// A character may stand where `depth` elements are open: white space alone behind the root.
fn may_stand(depth: usize, u: usize) -> bool
    ensures { result ≡ may_stand depth u }
{
    depth != 0 || is_space(u)
}

// An end tag with the name from `name` to `name_end` closes the innermost of `depth` open elements.
fn closes_top(
    s: &[u8],
    starts: [usize; 32],
    ends: [usize; 32],
    depth: usize,
    name: usize,
    name_end: usize,
) -> bool
    requires { (depth ≤ 32) × (name ≤ name_end) × (name_end ≤ length s.now) }
    ensures { result ≡ closes_at s.now starts ends depth name name_end }
{
    depth != 0 && same_name(s, starts[depth - 1], ends[depth - 1], name, name_end)
}

// How many elements are open behind the token `t` at `at`, where it may stand there.
fn depth_after(
    s: &[u8],
    at: usize,
    t: TokenAt,
    starts: [usize; 32],
    ends: [usize; 32],
    depth: usize,
) -> Option<usize>
    requires { Reads token_in s.now at at t × (at < length s.now) × (depth ≤ 32) }
    ensures { After s.now starts ends depth at t result }
{
    match t.kind {
        TokenKind::Start => {
            if has_room(depth) {
                Some(depth + 1)
            } else {
                None
            }
        }
        TokenKind::Empty => { if has_room(depth) { Some(depth) } else { None } }
        TokenKind::End => {
            if closes_top(s, starts, ends, depth, t.name, t.name_end) {
                Some(depth - 1)
            } else {
                None
            }
        }
        TokenKind::Char => {
            if may_stand(depth, t.unit) {
                Some(depth)
            } else {
                None
            }
        }
        TokenKind::Reference => { if depth == 0 { None } else { Some(depth) } }
        TokenKind::Fault => None,
    }
}

// What stands from `from` on, inside as many elements as `inside` says, whose names stand from `starts[i]` to `ends[i]`.
fn content_formed(
    s: &[u8],
    from: usize,
    starts: [usize; 32],
    ends: [usize; 32],
    inside: usize,
) -> Result<(), Fault>
    requires { (from ≤ length s.now) × (inside ≤ 32) }
    ensures { Formed (verdict_at s.now starts ends inside from) (length s.now) result }
{
    let mut a = starts;
    let mut e = ends;
    let mut depth = inside;
    let mut at = from;
    while at < s.len() {
        let t = token_at(s, at);
        let Some(d) = depth_after(s, at, t, a, e, depth) else {
            return Err(Refusal::Xml.at(at));
        };
        if depth < d {
            a[depth] = t.name;
            e[depth] = t.name_end;
        }
        depth = d;
        at = t.next;
    }
    if depth == 0 {
        Ok(())
    } else {
        Err(Refusal::Xml.at(at))
    }
}

// Whether the input is within the XML profile, or the place of its first fault.
pub fn well_formed(s: &[u8]) -> Result<(), Fault>
    ensures { Formed (xml_verdict s.now) (length s.now) result }
{
    let t = root_at(s);
    let mut a = [0usize; 32];
    let mut e = [0usize; 32];
    a[0] = t.name;
    e[0] = t.name_end;
    match t.kind {
        TokenKind::Start => content_formed(s, t.next, a, e, 1),
        TokenKind::Empty => content_formed(s, t.next, a, e, 0),
        TokenKind::End | TokenKind::Char | TokenKind::Reference | TokenKind::Fault => {
            Err(Refusal::Xml.at(t.unit))
        }
    }
}
