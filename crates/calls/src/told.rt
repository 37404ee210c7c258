// What an answer says, as two numbers. See specs/Conversion.antt.
ghost use Rattle.std.specs.Prelude.{◌≡◌, ◌+◌, ◌*◌, ◌<◌};
ghost use Rattle.calendar.specs.Refusal.{number_of};
ghost use Rattle.calls.specs.Conversion.{numbers};
ghost use Rattle.refusals.specs.Fault.{refusal_of};
ghost use Rattle.calls.specs.Answered.{outcome_of};

use crate::Answer;
use refusals::Refusal;

const WRITTEN: u64 = 0;

// The refusal of a result that has no room, as wide as an answer's number.
const ROOM: u64 = refusals::ROOM as u64;

// The number of a refusal.
fn refusal_number(r: Refusal) -> u64
    ensures { result ≡ number_of (refusal_of r) }
{
    r as u64
}

// The number of an answer.
pub fn number_of(a: Answer) -> u64
    ensures { result ≡ (numbers (outcome_of a)).0 }
{
    match a {
        Answer::Written(_) => WRITTEN,
        Answer::Needs(_) => ROOM,
        Answer::Refused(r, _) => refusal_number(r),
    }
}

// Its value: the bytes written, the length that is needed, or the place.
pub fn value_of(a: Answer) -> usize
    ensures { result ≡ (numbers (outcome_of a)).1 }
{
    match a {
        Answer::Written(n) => n,
        Answer::Needs(n) => n,
        Answer::Refused(_, p) => p,
    }
}

// Both as one number, for C.
pub fn joined(n: u64, v: usize) -> u64
    requires { (n < 256) × (v < 4294967296) }
    ensures { result ≡ n * 4294967296 + v }
{
    n * 4294967296 + (v as u64)
}
