// A name as one number, in any case, so that code finds it among many by a few comparisons of numbers. See specs/Packing.antt.
ghost use Rattle.std.specs.Prelude.{◌≡◌};
ghost use Rattle.octets.specs.Class.{upper};
ghost use Rattle.source.specs.Source.{rest};
ghost use Rattle.names.specs.Packing.{grow_high, grow_low, Packs};

use octets::unit::END;
use octets::{upper_unit, wide};
use source::{Encoding, unit};

// The base of a number; its digits are the bytes below it.
const BASE: u64 = 128;

const DIGITS: usize = 128;

// What a digit in the eighth place counts, the highest of the low half.
const EIGHTH: u64 = 0x2_0000_0000_0000;

// From here on the high half takes no more digits.
const FULL: u64 = 0x100_0000_0000_0000;

// The high half of what is no name's number. It is a number, and no `None`, so that a caller compares it with those of names at once.
const NONE: u64 = 0x8000_0000_0000_0000;

// The number of a name in two halves; the low one has the last eight digits.
#[derive(Clone, Copy, Debug, PartialEq, Eq)]
pub struct Packed {
    pub high: u64,
    pub low: u64,
}

// One digit more.
fn grown(high: u64, low: u64, v: usize) -> Packed
    ensures { (result.high ≡ grow_high high low v) × (result.low ≡ grow_low high low v) }
{
    if v < DIGITS && high < FULL {
        return Packed {
            high: high * BASE + low / EIGHTH,
            low: low % EIGHTH * BASE + v as u64,
        };
    }
    Packed { high: NONE, low: 0 }
}

// The number of a name.
pub fn pack<E: Encoding>(s: &[u8], at: usize) -> Packed
    ensures { Packs (upper (rest E.encoding s.now at)) result.high result.low }
{
    let mut high = 0;
    let mut low = 1;
    let mut c = at;
    loop {
        let n = unit::<E>(s, c);
        if n.u == END {
            return Packed { high, low };
        }
        let t = grown(high, low, upper_unit(n.u));
        high = t.high;
        low = t.low;
        c = n.next;
    }
}
