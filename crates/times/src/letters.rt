// Characters from a cursor on, letters in capitals where text is read. See specs/Letters.antt.
ghost use Rattle.std.specs.Prelude.{◌≡◌};
ghost use Rattle.octets.specs.Class.{upper_byte};
ghost use Rattle.octets.specs.Words.{is_empty};
ghost use Rattle.source.specs.Source.{rest};
ghost use Rattle.times.specs.Letters.{Spells};

use octets::unit::{CASE_STEP, END, LOWER_A, LOWER_Z};
use source::{Encoding, Unit, unit};

// A letter as a capital.
fn capital(u: usize) -> usize
    ensures { result ≡ upper_byte u }
{
    if u < LOWER_A {
        return u;
    }
    if LOWER_Z < u {
        return u;
    }
    u - CASE_STEP
}

// The character at the cursor `at`, as it stands or in capitals; END at the end.
pub fn letter<E: Encoding>(exact: bool, s: &[u8], at: usize) -> Unit
    ensures { Spells exact E.encoding s.now at result }
{
    let a = unit::<E>(s, at);
    if exact {
        return a;
    }
    Unit {
        u: capital(a.u),
        next: a.next,
    }
}

// Whether nothing is left from the cursor `at` on.
pub fn ended<E: Encoding>(s: &[u8], at: usize) -> bool
    ensures { result ≡ is_empty (rest E.encoding s.now at) }
{
    let a = unit::<E>(s, at);
    a.u == END
}
