// Words cut out of lent bytes, whether no two of them are the same: about n log n comparisons for n words.
// The words are sorted by their numbers, which needs no proof: what the sort left is checked. See specs/.
#![tactic(auto)]

mod again;
mod compare;
mod cuts;
mod heap;
mod numbers;
mod order;
mod pairs;

ghost use Rattle.std.specs.Prelude.{◌≡◌, [], ◌≤◌};
ghost use Rattle.octets.specs.Lists.{distinct};
ghost use Rattle.distinct.specs.Listed.{word_at, listed};

pub use again::first_again;
pub use compare::compare_from;
pub use cuts::keep;
use heap::sort;
use numbers::count_up;
use order::{are_alike, is_order, put_ranks, rise};
use pairs::are_all_apart;
use source::Encoding;

// Words that a caller collected by their cuts: how many, and whether those are all.
#[derive(Clone, Copy, Debug, PartialEq, Eq)]
pub struct Kept {
    pub n: usize,
    pub all: bool,
}

// No two of the first `n` words are the same: `order` and `ranks` are room for the words' numbers in rising order, and the place of each number there.
fn by_order<E: Encoding>(
    s: &[u8],
    from: &[u16],
    to: &[u16],
    n: usize,
    order: &mut [u16],
    ranks: &mut [u16],
) -> bool
    requires { n ≤ 65536 }
    ensures { result ≡ distinct (listed n (word_at E.encoding s.now from.now to.now) []) }
{
    count_up(order, n);
    sort::<E>(s, from, to, order, n);
    put_ranks(order, ranks, n);
    let r = rise::<E>(s, from, to, order, n);
    if r < n {
        if are_alike::<E>(s, from, to, order, r, n) {
            return false;
        }
    } else if is_order(order, ranks, n) {
        return true;
    }
    are_all_apart::<E>(s, from, to, n)
}

// No two of the first `n` words are the same: the word of the number i is what stands from `from[i]` up to `to[i]`, in any case.
pub fn are_distinct<E: Encoding>(s: &[u8], from: &[u16], to: &[u16], n: usize) -> bool
    ensures { result ≡ distinct (listed n (word_at E.encoding s.now from.now to.now) []) }
{
    if n <= 21846 {
        let mut order = [0u16; 21846];
        let mut ranks = [0u16; 21846];
        return by_order::<E>(s, from, to, n, &mut order, &mut ranks);
    }
    are_all_apart::<E>(s, from, to, n)
}
