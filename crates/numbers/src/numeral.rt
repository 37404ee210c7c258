// Digits from the cursor on, to the end, or, where `letters` says so, to the first letter. See specs/Numeral.antt.
ghost use Rattle.std.specs.Prelude.{◌≡◌, ◌≤◌};
ghost use Rattle.source.specs.Source.{rest};
ghost use Rattle.numbers.specs.Numeral.{front, Fronts, worth_to};

use octets::unit::{END, ZERO};
use octets::{is_alpha, is_digit};
use source::{Encoding, Unit, unit};

// The byte at the cursor `at`, or END at the end, which a letter is too where `letters` says so.
pub fn front_unit<E: Encoding>(letters: bool, s: &[u8], at: usize) -> Unit
    ensures { Fronts letters E.encoding s.now at result }
{
    let t = unit::<E>(s, at);
    if letters && is_alpha(t.u) {
        return Unit { u: END, next: at };
    }
    t
}

// What the digits are worth, where there are no other bytes and it is no more than `most`.
pub fn worth<E: Encoding>(letters: bool, most: usize, s: &[u8], at: usize) -> Option<u32>
    requires { most ≤ 2147483648 }
    ensures { worth_to most 0 (front letters (rest E.encoding s.now at)) ≡ result }
{
    let mut c = at;
    let mut v: usize = 0;
    loop {
        let t = front_unit::<E>(letters, s, c);
        if t.u == END {
            return Some(v as u32);
        }
        if !is_digit(t.u) {
            return None;
        }
        v = v * 10 + (t.u - ZERO);
        if most < v {
            return None;
        }
        c = t.next;
    }
}
