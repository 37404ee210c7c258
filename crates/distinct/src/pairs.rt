// Every word compared with all words before it.
ghost use Rattle.std.specs.Prelude.{◌≡◌, []};
ghost use Rattle.octets.specs.Lists.{distinct};
ghost use Rattle.distinct.specs.Listed.{word_at, listed};
ghost use Rattle.distinct.specs.Pairs.{Again};

use crate::compare::compare;
use source::Encoding;

// The word of the number `j` is that of a number below `j`.
#[tactic(auto, using(crate::specs::laws::Pairs::pairwise))]
fn is_again<E: Encoding>(s: &[u8], from: &[u16], to: &[u16], j: usize) -> bool
    ensures { Again (word_at E.encoding s.now from.now to.now) j result }
{
    let mut i = 0;
    while i < j {
        if compare::<E>(s, from, to, i, j) == 0 {
            return true;
        }
        i += 1;
    }
    false
}

// No two of the first `n` words are the same.
#[tactic(auto, using(crate::specs::laws::Pairs::pairwise))]
pub fn are_all_apart<E: Encoding>(s: &[u8], from: &[u16], to: &[u16], n: usize) -> bool
    ensures { result ≡ distinct (listed n (word_at E.encoding s.now from.now to.now) []) }
{
    let mut j = 0;
    while j < n {
        if is_again::<E>(s, from, to, j) {
            return false;
        }
        j += 1;
    }
    true
}
