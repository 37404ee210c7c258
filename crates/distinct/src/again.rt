// The first word that comes again. See specs/Again.antt.
ghost use Rattle.std.specs.Prelude.{◌≡◌, []};
ghost use Rattle.distinct.specs.Listed.{word_at, listed};
ghost use Rattle.distinct.specs.Again.{first_again};

use crate::are_distinct;
use source::Encoding;

// The number of the first word that comes again, `n` where none does: the shortest part from the first word on that is not distinct is found by halving.
pub fn first_again<E: Encoding>(s: &[u8], from: &[u16], to: &[u16], n: usize) -> usize
    ensures { result ≡ first_again []
        (listed n (word_at E.encoding s.now from.now to.now) []) }
{
    if are_distinct::<E>(s, from, to, n) {
        return n;
    }
    let mut low = 0;
    let mut high = n;
    while low + 1 < high {
        let middle = low + (high - low) / 2;
        if are_distinct::<E>(s, from, to, middle) {
            low = middle;
        } else {
            high = middle;
        }
    }
    low
}
