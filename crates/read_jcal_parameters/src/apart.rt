// No name stands twice. See specs/Apart.antt.
ghost use Rattle.std.specs.Prelude.{◌≡◌, ◌<◌, length};
ghost use Rattle.octets.specs.Words.{is_one_of};
ghost use Rattle.octets.specs.Lists.{distinct};
ghost use Rattle.read_json.specs.TreeAt.{string_at};
ghost use Rattle.read_jcal_parameters.specs.Apart.{names_at};
ghost use Rattle.read_jcal_parameters.specs.Rounds.{Twice};

use crate::cursor::cursor_of;
use crate::order::compare;
use crate::rounds::pass;
use read_json::member_at;

// The name at `place` is that of a member from `from` on.
fn is_again(s: &[u8], place: usize, from: usize) -> bool
    requires { place < length s.now }
    ensures { result ≡ is_one_of (string_at s.now place) (names_at s.now from) }
{
    let k = cursor_of(s, place);
    let mut c = from;
    while let Some(m) = member_at(s, c) {
        if compare(s, k, cursor_of(s, m.name)) == 0 {
            return true;
        }
        c = m.next;
    }
    false
}

// No two members from `from` on have the same name: each is compared with all behind it.
fn are_all_apart(s: &[u8], from: usize) -> bool
    ensures { result ≡ distinct (names_at s.now from) }
{
    let mut c = from;
    while let Some(m) = member_at(s, c) {
        if is_again(s, m.name, m.next) {
            return false;
        }
        c = m.next;
    }
    true
}

// The name of the member at the place `p`, from `from` on, comes again.
fn is_twice(s: &[u8], from: usize, p: usize) -> bool
    ensures { Twice s.now from result }
{
    let mut c = from;
    while let Some(m) = member_at(s, c) {
        if m.name == p {
            return is_again(s, m.name, m.next);
        }
        c = m.next;
    }
    false
}

// No two members from `from` on have the same name, in rounds for which `places` is the room.
fn by_rounds(s: &[u8], from: usize, places: &mut [u16]) -> bool
    ensures { result ≡ distinct (names_at s.now from) }
{
    let mut c = from;
    loop {
        match pass(s, c, places) {
            Ok(end) => {
                if end <= c {
                    return are_all_apart(s, c);
                }
                c = end;
            }
            Err(place) => {
                if is_twice(s, c, place) {
                    return false;
                }
                return are_all_apart(s, c);
            }
        }
    }
}

// There are sixteen members at most from `from` on.
fn are_few(s: &[u8], from: usize) -> bool {
    let mut c = from;
    let mut k: usize = 0;
    while k < 17 {
        let Some(m) = member_at(s, c) else {
            return true;
        };
        c = m.next;
        k += 1;
    }
    false
}

// No two members from `from` on have the same name: a few are compared each with each, more in rounds.
pub fn are_apart(s: &[u8], from: usize) -> bool
    ensures { result ≡ distinct (names_at s.now from) }
{
    if are_few(s, from) {
        return are_all_apart(s, from);
    }
    let mut places = [0u16; 2048];
    by_rounds(s, from, &mut places)
}
