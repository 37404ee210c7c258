// What a conversion answers. What each call answers, and what it leaves in the lent buffers, is defined in specs/.
#![tactic(auto)]

mod refusing;
mod told;

ghost use Rattle.std.specs.Prelude.{◌≡◌};
ghost use Rattle.calendar.specs.Refusal.{number_of};
ghost use Rattle.refusals.specs.Fault.{refusal_of};
ghost use Rattle.calls.specs.Answered.{answer_of};

use refusals::{Fault, Refusal};
pub use refusing::refused;
pub use told::{joined, number_of, value_of};

// What a call answers: the bytes written; the length that the output would need; or a refusal and its place.
// Their numbers and values are `outcome_of` of specs/Answered.antt and `told`, `numbers` of specs/Conversion.antt.
#[derive(Clone, Copy, Debug, PartialEq, Eq)]
pub enum Answer {
    Written(usize),
    Needs(usize),
    Refused(Refusal, usize),
}

// The number of a refusal.
fn number(refusal: Refusal) -> u8
    ensures { result ≡ number_of (refusal_of refusal) }
{
    refusal as u8
}

impl From<Fault> for Answer {
    ghost from_gives = { λ fault answer. answer ≡ answer_of fault };

    // By its number, so that the answer of a fault is that of its number.
    fn from(fault: Fault) -> Answer {
        refused(number(fault.refusal), fault.place)
    }
}
