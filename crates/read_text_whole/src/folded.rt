// A text that is read with its folds in place: no work room is lent, and nothing is copied.
ghost use Rattle.read_text_whole.specs.Whole.{ReadsFolded};

use crate::{Kept, judged};
use edition::edition_of;
use refusals::{Fault, Refusal};
use source::Folded;

// The text `input`, read in the edition of the number `edition`.
pub fn read_folded(input: &[u8], edition: u32) -> Result<Kept, Fault>
    ensures { ReadsFolded input.now edition result }
{
    if 65535 < input.len() {
        return Err(Refusal::Length.at(0));
    }
    let Some(e) = edition_of(edition) else {
        return Err(Refusal::Edition.at(0));
    };
    judged::<Folded>(e, input, input)
}
