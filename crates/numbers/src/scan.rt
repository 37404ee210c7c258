// Digits and zeros passed over, from the cursor up to the byte `stop`; to the end where `stop` is END.
ghost use Rattle.std.specs.Prelude.{◌≡◌};
ghost use Rattle.octets.specs.Words.{is_empty};
ghost use Rattle.numbers.specs.Sign.{has_minus, after_sign, is_digits};
ghost use Rattle.numbers.specs.Float.{no_leading, no_trailing};
ghost use Rattle.numbers.specs.Until.{until, Turns};
ghost use Rattle.numbers.specs.FloatParts.{after_digits};

use octets::is_digit;
use octets::unit::{END, HYPHEN, PLUS, ZERO};
use source::{Encoding, Unit, unit};

// The byte at the cursor; END at the byte `stop` and at the end.
pub fn unit_to<E: Encoding>(stop: usize, s: &[u8], at: usize) -> Unit
    ensures { Turns stop E.encoding s.now at result }
{
    let t = unit::<E>(s, at);
    if t.u == stop {
        return Unit {
            u: END,
            next: t.next,
        };
    }
    t
}

// After the digits.
pub fn digits_end<E: Encoding>(stop: usize, s: &[u8], at: usize) -> usize
    ensures { after_digits (until stop E.encoding s.now at) ≡ until stop E.encoding s.now result }
{
    let mut c = at;
    loop {
        let t = unit_to::<E>(stop, s, c);
        if !is_digit(t.u) {
            return c;
        }
        c = t.next;
    }
}

// After the zeros.
pub fn zeros_end<E: Encoding>(stop: usize, s: &[u8], at: usize) -> usize
    ensures { no_leading (until stop E.encoding s.now at) ≡ until stop E.encoding s.now result }
{
    let mut c = at;
    loop {
        let t = unit_to::<E>(stop, s, c);
        if t.u != ZERO {
            return c;
        }
        c = t.next;
    }
}

// Zeros alone.
pub fn only_zeros<E: Encoding>(stop: usize, s: &[u8], at: usize) -> bool
    ensures { is_empty (no_trailing (until stop E.encoding s.now at)) ≡ result }
{
    let mut c = at;
    loop {
        let t = unit_to::<E>(stop, s, c);
        if t.u == END {
            return true;
        }
        if t.u != ZERO {
            return false;
        }
        c = t.next;
    }
}

// Digits alone, at least one.
pub fn only_digits<E: Encoding>(stop: usize, s: &[u8], at: usize) -> bool
    ensures { result ≡ is_digits (until stop E.encoding s.now at) }
{
    if unit_to::<E>(stop, s, at).u == END {
        return false;
    }
    let end = digits_end::<E>(stop, s, at);
    unit_to::<E>(stop, s, end).u == END
}

pub fn has_minus<E: Encoding>(stop: usize, s: &[u8], at: usize) -> bool
    ensures { result ≡ has_minus (until stop E.encoding s.now at) }
{
    unit_to::<E>(stop, s, at).u == HYPHEN
}

// After the sign, if there is one.
pub fn sign_end<E: Encoding>(stop: usize, s: &[u8], at: usize) -> usize
    ensures { after_sign (until stop E.encoding s.now at) ≡ until stop E.encoding s.now result }
{
    let t = unit_to::<E>(stop, s, at);
    if t.u == HYPHEN || t.u == PLUS {
        return t.next;
    }
    at
}
