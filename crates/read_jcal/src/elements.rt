// The elements of an array. See specs/Arrays.antt.
ghost use Rattle.std.specs.Prelude.{◌≡◌, not};
ghost use Rattle.octets.specs.Words.{is_empty};
ghost use Rattle.json_text.specs.Tree.{element_list};
ghost use Rattle.values.specs.Valid.{is_amount};
ghost use Rattle.read_json.specs.TreeAt.{elements_at};
ghost use Rattle.read_jcal.specs.Arrays.{place_in, ThreeAt};

use crate::Three;
use read_json::kinds::is_there;
use read_json::{Head, element_at, element_next};

// The first three elements from `inside` on.
pub fn first_three(s: &[u8], inside: usize) -> Three
    ensures { ThreeAt s.now inside result }
{
    let first = element_at(s, inside);
    let a = element_next(s, first);
    let second = element_at(s, a);
    let b = element_next(s, second);
    let third = element_at(s, b);
    let next = element_next(s, third);
    Three {
        first,
        second,
        third,
        next,
    }
}

// An element stands from `from` on.
pub fn has_elements(s: &[u8], from: usize) -> bool
    ensures { result ≡ not (is_empty (element_list (elements_at s.now from))) }
{
    is_there(element_at(s, from).kind)
}

// As many values as a property has: one, or several where it is listed.
pub fn is_amount(listed: bool, s: &[u8], from: usize) -> bool
    ensures { result ≡ is_amount listed (element_list (elements_at s.now from)) }
{
    let h = element_at(s, from);
    is_there(h.kind) && (listed || !has_elements(s, element_next(s, h)))
}

// The place of an element; 0 where there is none.
pub fn place_of(h: Head) -> usize
    ensures { result ≡ place_in h }
{
    if is_there(h.kind) { h.place } else { 0 }
}
