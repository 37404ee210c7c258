// What all readers of elements ask of them. See crate xcal, specs/Layout.antt.
ghost use Rattle.std.specs.Prelude.{◌≡◌, take, Err};
ghost use Rattle.source.specs.Source.{rest};
ghost use Rattle.xml.specs.Nodes.{has_element};
ghost use Rattle.xcal.specs.Layout.{has_capital, inner_element, unexpected};
ghost use Rattle.xml.specs.NodesAt.{nodes_at};
ghost use Rattle.refusals.specs.Fault.{judged_as};

use crate::first::first_element;
use octets::is_capital;
use octets::unit::END;
use refusals::{Fault, Refusal};
use source::{Plain, unit};

// A capital stands from `at` on.
fn capital_from(s: &[u8], at: usize) -> bool
    ensures { result ≡ has_capital (rest 0 s.now at) }
{
    let mut c = at;
    loop {
        let n = unit::<Plain>(s, c);
        if n.u == END {
            return false;
        }
        if is_capital(n.u) {
            return true;
        }
        c = n.next;
    }
}

// A name has a capital.
pub fn has_capital(s: &[u8], name: usize, end: usize) -> bool
    ensures { result ≡ has_capital (rest 0 (take end s.now) name) }
{
    if end <= s.len() {
        capital_from(&s[..end], name)
    } else {
        capital_from(s, name)
    }
}

// The refusal of an element that has no place there.
pub fn unexpected(s: &[u8], place: usize, name: usize, end: usize) -> Fault
    ensures { unexpected place (rest 0 (take end s.now) name) ≡ judged_as (Err result) }
{
    if has_capital(s, name, end) {
        Refusal::Name.at(place)
    } else {
        Refusal::Frame.at(place)
    }
}

// The refusal of the first element from `at` on, where none has a place.
pub fn inner_element(s: &[u8], at: usize) -> Result<(), Fault>
    ensures { inner_element (nodes_at s.now at) ≡ judged_as result }
{
    match first_element(s, at) {
        Some(f) => Err(unexpected(s, f.place, f.name, f.name_end)),
        None => Ok(()),
    }
}

// An element stands from `at` on.
pub fn has_element(s: &[u8], at: usize) -> bool
    ensures { result ≡ has_element (nodes_at s.now at) }
{
    first_element(s, at).is_some()
}
