// Folds passed over, in a text that keeps them. See specs/Cut.antt.
ghost use Rattle.std.specs.Prelude.{◌≤◌, length};
ghost use Rattle.folding.specs.Cut.{Behind};

use crate::unfolding::fold_at;

// Behind the folds that stand at `at`.
pub fn skip_folds(s: &[u8], at: usize) -> usize
    requires { at ≤ length s.now }
    ensures { Behind s.now at result }
{
    let mut n = at;
    while n < s.len() {
        if fold_at(s, n) {
            n += 3;
        } else {
            return n;
        }
    }
    n
}
