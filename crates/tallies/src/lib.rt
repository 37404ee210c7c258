// What is kept of the properties of a component while they are read. See specs/Counting.antt.
#![tactic(auto, using(crate::specs::laws::Counting::counting))]

ghost use Rattle.std.specs.Prelude.{◌≡◌, []};
ghost use Rattle.tallies.specs.Counting.{Counted, is_first, CountsOn};

use schema::{Action, bump, property};

// How often each known property has come, and what the first ACTION names, if it names an action.
#[derive(Clone, Copy)]
pub struct Kept {
    pub counts: [u8; 46],
    pub action: Option<Action>,
}

// No property has come.
pub fn none_counted() -> Kept
    ensures { Counted [] result }
{
    // One for each known property.
    let counts = [0u8; 46];
    Kept {
        counts,
        action: None,
    }
}

// The property of the number `p` is an ACTION, and none has come.
#[tactic(auto, using(octets::specs::laws::Pick::branching_joined))]
fn is_first(kept: Kept, p: usize) -> bool
    ensures { result ≡ is_first p kept }
{
    p == property::ACTION && kept.counts[property::ACTION] == 0
}

// One property more, of the number `p`; `action`, what its word names where it is an ACTION.
pub fn count(kept: Kept, p: usize, action: Option<Action>) -> Kept
    ensures { CountsOn p action kept result }
{
    let first = is_first(kept, p);
    let counts = bump(kept.counts, p);
    if first {
        return Kept { counts, action };
    }
    Kept {
        counts,
        action: kept.action,
    }
}
