// The elements of an array, by what they are. See specs/Elements.antt.
ghost use Rattle.std.specs.Prelude.{◌≡◌};
ghost use Rattle.octets.specs.Words.{is_empty};
ghost use Rattle.json_text.specs.Tree.{element_list};
ghost use Rattle.read_json.specs.TreeAt.{elements_at};
ghost use Rattle.read_jcal_value.specs.Elements.{is_leaf, FirstAt};

use read_json::kinds::{is_none, is_number, is_string};
use read_json::{HeadKind, element_at};

// An element that is a number, or a string: its place, and the place behind it.
#[derive(Clone, Copy, Debug, PartialEq, Eq)]
pub struct Leaf {
    pub place: usize,
    pub next: usize,
}

// No element stands from `at` on.
pub fn is_end(s: &[u8], at: usize) -> bool
    ensures { result ≡ is_empty (element_list (elements_at s.now at)) }
{
    is_none(element_at(s, at).kind)
}

fn is_leaf(numeral: bool, kind: HeadKind) -> bool
    ensures { result ≡ is_leaf numeral kind }
{
    if numeral {
        is_number(kind)
    } else {
        is_string(kind)
    }
}

// The first element from `at` on, where it is a number, if `numeral` says so, or else a string.
pub fn leaf_at(numeral: bool, s: &[u8], at: usize) -> Option<Leaf>
    ensures { FirstAt numeral s.now at result }
{
    let h = element_at(s, at);
    if !is_leaf(numeral, h.kind) {
        return None;
    }
    Some(Leaf {
        place: h.place,
        next: h.next,
    })
}
