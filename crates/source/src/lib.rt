// A cursor over lent bytes: a value is read character by character, whatever encoding it stands in. See specs/Source.antt.
// Code is generic over the encoding: it is proved once, and built for each that it reads.
#![tactic(auto)]

mod carets;
mod characters;
mod folds;
mod points;
mod quoted;

ghost use Rattle.std.specs.Prelude.{◌≡◌, ℕ, true};
ghost use Rattle.source.specs.Source.{Reads, Settled, unit_of, cut_of, cuts};

pub use carets::Carets;
pub use characters::{XmlCharacters, xml_unit};
pub use folds::Folded;
use octets::unit::END;
pub use points::Unit;
pub use quoted::{JsonCharacters, quoted_unit};

// A byte, and the cursor after it.
#[derive(Clone, Copy, Debug, PartialEq, Eq)]
pub struct Step {
    pub byte: u8,
    pub next: usize,
}

// The encodings whose cursors are places, for code that is over any encoding and has to cut what is lent.
#[derive(Clone, Copy, Debug, PartialEq, Eq)]
pub enum Cut {
    Plain,
    Folded,
}

// How characters stand in what is lent.
pub trait Encoding {
    // Its number in specs/Source.antt.
    ghost encoding: { ℕ };

    // The byte at the cursor `at`, or none where nothing is left.
    fn step(s: &[u8], at: usize) -> Option<Step>
        ensures { Reads encoding s.now at (unit_of at result) };

    // The cursor behind what has no byte of its own: if it is within what is lent, a byte stands there.
    fn settled(s: &[u8], at: usize) -> usize
        ensures { Settled encoding s.now at result };

    // Which of the encodings it is whose cursors are places, if it is one.
    fn cut() -> Option<Cut>
        ensures { result ≡ cut_of encoding };
}

// An encoding whose cursors are places: what is lent may be cut at them.
pub trait Cuttable: Encoding {
    ghost cut: { cuts Self.encoding ≡ true };
}

// The byte at the cursor `at` as a unit: END where nothing is left. It is laid into its callers, as the steps of XML's and JSON's characters are, so that no step is
// handed on in memory.
#[inline(always)]
pub fn unit<E: Encoding>(s: &[u8], at: usize) -> Unit
    ensures { Reads E.encoding s.now at result }
{
    match E::step(s, at) {
        Some(step) => Unit {
            u: step.byte as usize,
            next: step.next,
        },
        None => Unit { u: END, next: at },
    }
}

// Bytes as they stand, to the end of what is lent.
pub struct Plain;

impl Encoding for Plain {
    ghost encoding = { 0 };

    fn step(s: &[u8], at: usize) -> Option<Step> {
        if at < s.len() {
            return Some(Step {
                byte: s[at],
                next: at + 1,
            });
        }
        None
    }

    fn settled(_s: &[u8], at: usize) -> usize {
        at
    }

    fn cut() -> Option<Cut> {
        Some(Cut::Plain)
    }
}

impl Cuttable for Plain {
    ghost use Rattle.std.specs.Prelude.{refl};

    ghost cut = { refl };
}
