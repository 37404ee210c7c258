// Numbers of rule parts, to the end of what stands from the cursor on, or, where `letters` says so, to the first letter. See specs/Numeral.antt.
ghost use Rattle.std.specs.Prelude.{◌≡◌, ◌≤◌, ◌<◌};
ghost use Rattle.octets.specs.Pick.{◌and◌};
ghost use Rattle.source.specs.Source.{rest};
ghost use Rattle.numbers.specs.Sign.{after_sign};
ghost use Rattle.numbers.specs.Numeral.{front};
ghost use Rattle.recur.specs.Item.{is_short, is_numeral};
ghost use Rattle.recur.specs.Numeral.{numeral_in};
ghost use Rattle.recur.specs.Fits.{is_numeral_of};

use numbers::numeral::{front_unit, worth};
use octets::unit::{END, HYPHEN, PLUS};
use source::Encoding;

// No more than `d` bytes.
fn is_short<E: Encoding>(letters: bool, d: usize, s: &[u8], at: usize) -> bool
    ensures { result ≡ is_short d (front letters (rest E.encoding s.now at)) }
{
    let mut c = at;
    let mut i = 0;
    loop {
        let t = front_unit::<E>(letters, s, c);
        if t.u == END {
            return true;
        }
        if i == d {
            return false;
        }
        i += 1;
        c = t.next;
    }
}

// The number, where there is a digit, and it is `lo` to `hi`.
pub fn numeral_of<E: Encoding>(
    letters: bool,
    lo: u32,
    hi: usize,
    s: &[u8],
    at: usize,
) -> Option<u32>
    requires { hi ≤ 2147483647 }
    ensures { numeral_in lo hi (front letters (rest E.encoding s.now at)) ≡ result }
{
    let t = front_unit::<E>(letters, s, at);
    if t.u == END {
        return None;
    }
    let n = worth::<E>(letters, hi, s, at)?;
    if n < lo {
        return None;
    }
    Some(n)
}

// Digits that are worth `lo` to `hi`.
pub fn is_numeral<E: Encoding>(letters: bool, lo: u32, hi: usize, s: &[u8], at: usize) -> bool
    requires { hi ≤ 2147483647 }
    ensures { result ≡ is_numeral lo hi (front letters (rest E.encoding s.now at)) }
{
    numeral_of::<E>(letters, lo, hi, s, at).is_some()
}

// No more than `d` digits that are worth `lo` to `hi`.
pub fn is_unsigned<E: Encoding>(
    letters: bool,
    d: usize,
    lo: u32,
    hi: usize,
    s: &[u8],
    at: usize,
) -> bool
    requires { hi ≤ 2147483647 }
    ensures { result ≡ is_numeral_of d lo hi (front letters (rest E.encoding s.now at)) }
{
    is_short::<E>(letters, d, s, at) && is_numeral::<E>(letters, lo, hi, s, at)
}

// The cursor after a sign.
pub fn after_sign<E: Encoding>(letters: bool, s: &[u8], at: usize) -> usize
    ensures { after_sign (front letters (rest E.encoding s.now at)) ≡ front letters (rest E.encoding s.now result) }
{
    let t = front_unit::<E>(letters, s, at);
    if t.u == PLUS {
        return t.next;
    }
    if t.u == HYPHEN {
        return t.next;
    }
    at
}

// A number of 1 to `hi`, of no more than `d` digits, that may have a sign.
pub fn is_signed<E: Encoding>(letters: bool, d: usize, hi: usize, s: &[u8], at: usize) -> bool
    requires { hi ≤ 2147483647 }
    ensures { result ≡ is_numeral_of d 1 hi (after_sign (front letters (rest E.encoding s.now at))) }
{
    let c = after_sign::<E>(letters, s, at);
    is_unsigned::<E>(letters, d, 1, hi, s, c)
}
