// The refusals by name, and a refusal with its place. Crate calendar, specs/Refusal.antt, defines them and their numbers; docs/FORMAT.md says when each is given.
#![tactic(auto)]

ghost use Rattle.std.specs.Prelude.{◌≡◌};
ghost use Rattle.refusals.specs.Fault.{fault_at};

// The refusals that have a place, each with its number. ROOM is none of them: it has the length that is needed (calls::Answer::Needs).
#[derive(Clone, Copy, Debug, PartialEq, Eq)]
pub enum Refusal {
    Length = 1,
    Work = 2,
    Character = 3,
    Line = 4,
    Name = 5,
    Frame = 6,
    Parameter = 7,
    Value = 8,
    Count = 9,
    Xml = 11,
    Json = 12,
    Edition = 13,
}

// A refusal and its place. `Err(Refusal::Name.at(7))` refuses, and `?` hands the refusal on.
#[derive(Clone, Copy, Debug, PartialEq, Eq)]
pub struct Fault {
    pub refusal: Refusal,
    pub place: usize,
}

// The number of the refusal that has a length in place of a place.
pub const ROOM: u8 = 10;

impl Refusal {
    // This refusal at a place.
    pub fn at(self, place: usize) -> Fault
        ensures { result ≡ fault_at self place }
    {
        Fault {
            refusal: self,
            place,
        }
    }
}
