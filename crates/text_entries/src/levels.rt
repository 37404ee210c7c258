// What stands ahead of a walk over a component's properties. See specs/Levels.antt.
ghost use Rattle.std.specs.Prelude.{ℕ, ◌-◌};
ghost use Rattle.calendar.specs.Levels.{shallow};
ghost use Rattle.read_text_line.specs.Ready.{Ready};
ghost use Rattle.text_entries.specs.Levels.{whole, AheadAt};

use crate::passing::pass_component;
use edition::Edition;
use source::Encoding;

// The cursor of the first subcomponent, or of what ends the component; whether there is no subcomponent; and if there is
// none, the cursor behind the component's END.
#[derive(Clone, Copy, Debug, PartialEq, Eq)]
pub struct Ahead {
    pub inner: usize,
    pub bare: bool,
    pub next: usize,
}

// The same, where the component stands `left` levels deep at most with those inside it: on the last level nothing stands inside it.
pub fn cut_at_level<E: Encoding>(edition: Edition, s: &[u8], all: Ahead, left: usize) -> Ahead
    requires { Ready E.encoding s.now all.inner }
    ensures { (from : ℕ) → AheadAt edition whole E.encoding s.now from all →
        AheadAt edition (shallow (left - 1)) E.encoding s.now from result }
{
    if all.bare {
        return all;
    }
    if left < 2 {
        let next = pass_component::<E>(edition, s, all.inner);
        return Ahead {
            inner: all.inner,
            bare: true,
            next,
        };
    }
    all
}
