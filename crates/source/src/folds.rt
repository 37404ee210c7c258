// A text with its folds in place: folds are passed over. See crate folding.
ghost use Rattle.std.specs.Prelude.{refl};

use crate::{Cut, Cuttable, Encoding, Step};
use folding::skip::skip_folds;

// The bytes of a text with its folds in place, to the end of what is lent.
pub struct Folded;

impl Encoding for Folded {
    ghost encoding = { 2 };

    fn step(s: &[u8], at: usize) -> Option<Step> {
        if at < s.len() {
            let n = skip_folds(s, at);
            if n < s.len() {
                return Some(Step {
                    byte: s[n],
                    next: n + 1,
                });
            }
        }
        None
    }

    fn settled(s: &[u8], at: usize) -> usize {
        if at < s.len() {
            return skip_folds(s, at);
        }
        at
    }

    fn cut() -> Option<Cut> {
        Some(Cut::Folded)
    }
}

impl Cuttable for Folded {
    ghost cut = { refl };
}
