// FLOAT: read from the cursor up to the byte `stop`, to the end where it is END; and written.
ghost use Rattle.std.specs.Prelude.{◌≡◌, [], ◌∷◌, option_map};
ghost use Rattle.octets.specs.Pick.{◌and◌};
ghost use Rattle.octets.specs.Append.{◌⊕◌};
ghost use Rattle.octets.specs.Words.{is_empty};
ghost use Rattle.octets.specs.Reading.{or_nothing};
ghost use Rattle.source.specs.Source.{rest};
ghost use Rattle.sink.specs.Sink.{Put};
ghost use Rattle.numbers.specs.Worth.{zeros};
ghost use Rattle.numbers.specs.Float.{no_trailing, or_zero, after_point, read_float, write_float};
ghost use Rattle.numbers.specs.Until.{until};
ghost use Rattle.numbers.specs.FloatParts.{front};
ghost use Rattle.numbers.specs.ReadFloat.{Shaped, float_of};

use crate::scan::{digits_end, has_minus, only_digits, only_zeros, sign_end, unit_to, zeros_end};
use octets::is_digit;
use octets::unit::{END, POINT, ZERO};
use sink::put;
use source::Encoding;

// Zero is not negative. `whole` is the cursor of the first digit that counts, `fraction` that of the digits after the point.
#[derive(Clone, Copy, Debug, PartialEq, Eq)]
pub struct Float {
    pub negative: bool,
    pub whole: usize,
    pub fraction: usize,
}

// Digits, and digits after a point if there is one: the cursor of those after the point.
fn read_shape<E: Encoding>(stop: usize, s: &[u8], at: usize) -> Option<usize>
    ensures { Shaped stop E.encoding s.now at result }
{
    if !is_digit(unit_to::<E>(stop, s, at).u) {
        return None;
    }
    let end = digits_end::<E>(stop, s, at);
    let next = unit_to::<E>(stop, s, end);
    if next.u == END {
        return Some(end);
    }
    if next.u != POINT {
        return None;
    }
    only_digits::<E>(stop, s, next.next).then_some(next.next)
}

// Whether no digit counts.
fn is_zero<E: Encoding>(stop: usize, s: &[u8], whole: usize, fraction: usize) -> bool
    ensures { result
        ≡ (is_empty (front (until stop E.encoding s.now whole))
        and is_empty (no_trailing (until stop E.encoding s.now fraction))) }
{
    !is_digit(unit_to::<E>(stop, s, whole).u) && only_zeros::<E>(stop, s, fraction)
}

pub fn float_to<E: Encoding>(stop: usize, s: &[u8], at: usize) -> Option<Float>
    ensures { read_float (until stop E.encoding s.now at) ≡ option_map (float_of stop E.encoding s.now) result }
{
    let first = sign_end::<E>(stop, s, at);
    let fraction = read_shape::<E>(stop, s, first)?;
    let whole = zeros_end::<E>(stop, s, first);
    let negative = !is_zero::<E>(stop, s, whole, fraction) && has_minus::<E>(stop, s, at);
    Some(Float {
        negative,
        whole,
        fraction,
    })
}

pub fn read_float<E: Encoding>(s: &[u8], at: usize) -> Option<Float>
    ensures { read_float (rest E.encoding s.now at) ≡ option_map (float_of 256 E.encoding s.now) result }
{
    float_to::<E>(END, s, at)
}

// ---- writing

// The digits at the cursor.
fn put_front<E: Encoding>(out: &mut [u8], o: usize, stop: usize, s: &[u8], at: usize) -> usize
    ensures { Put out.old out.new o result (front (until stop E.encoding s.now at)) }
{
    let mut q = o;
    let mut c = at;
    loop {
        let t = unit_to::<E>(stop, s, c);
        if !is_digit(t.u) {
            return q;
        }
        q = put(out, q, t.u as u8);
        c = t.next;
    }
}

// The digits before the point, or 0 where there are none.
fn put_before<E: Encoding>(out: &mut [u8], o: usize, stop: usize, s: &[u8], at: usize) -> usize
    ensures { Put out.old out.new o result (or_zero (front (until stop E.encoding s.now at))) }
{
    if is_digit(unit_to::<E>(stop, s, at).u) {
        return put_front::<E>(out, o, stop, s, at);
    }
    put(out, o, b'0')
}

fn put_zeros(out: &mut [u8], o: usize, k: usize) -> usize
    ensures { Put out.old out.new o result (zeros k) }
{
    let mut q = o;
    for _i in 0..k {
        q = put(out, q, b'0');
    }
    q
}

// The digits from the cursor on without trailing zeros: `k` zeros wait until a digit follows them.
fn put_trimmed<E: Encoding>(out: &mut [u8], o: usize, stop: usize, s: &[u8], at: usize) -> usize
    ensures { Put out.old out.new o result (no_trailing (until stop E.encoding s.now at)) }
{
    let mut q = o;
    let mut k: usize = 0;
    let mut c = at;
    loop {
        let t = unit_to::<E>(stop, s, c);
        if t.u == END {
            return q;
        }
        if t.u == ZERO {
            k += 1;
            c = t.next;
        } else {
            q = put_waiting(out, q, k, t.u as u8);
            k = 0;
            c = t.next;
        }
    }
}

// `k` zeros and a digit.
fn put_waiting(out: &mut [u8], o: usize, k: usize, b: u8) -> usize
    ensures { Put out.old out.new o result (zeros k ⊕ (b ∷ [])) }
{
    let q = put_zeros(out, o, k);
    put(out, q, b)
}

// A point and the digits after it, if any count.
fn put_after<E: Encoding>(out: &mut [u8], o: usize, stop: usize, s: &[u8], at: usize) -> usize
    ensures { Put out.old out.new o result (after_point (no_trailing (until stop E.encoding s.now at))) }
{
    if only_zeros::<E>(stop, s, at) {
        return o;
    }
    let q = put(out, o, b'.');
    put_trimmed::<E>(out, q, stop, s, at)
}

fn put_magnitude<E: Encoding>(
    out: &mut [u8],
    o: usize,
    stop: usize,
    s: &[u8],
    first: usize,
    after: usize,
) -> usize
    ensures { Put out.old out.new o result (or_zero (front (until stop E.encoding s.now first)) ⊕
        after_point (no_trailing (until stop E.encoding s.now after))) }
{
    let q = put_before::<E>(out, o, stop, s, first);
    put_after::<E>(out, q, stop, s, after)
}

fn put_decimal<E: Encoding>(out: &mut [u8], o: usize, n: Float, stop: usize, s: &[u8]) -> usize
    ensures { Put out.old out.new o result (write_float (float_of stop E.encoding s.now n)) }
{
    if n.negative {
        let q = put(out, o, b'-');
        return put_magnitude::<E>(out, q, stop, s, n.whole, n.fraction);
    }
    put_magnitude::<E>(out, o, stop, s, n.whole, n.fraction)
}

pub fn put_float_to<E: Encoding>(
    out: &mut [u8],
    o: usize,
    stop: usize,
    s: &[u8],
    at: usize,
) -> usize
    ensures { Put out.old out.new o result
        (or_nothing write_float (read_float (until stop E.encoding s.now at))) }
{
    let Some(n) = float_to::<E>(stop, s, at) else {
        return o;
    };
    put_decimal::<E>(out, o, n, stop, s)
}

pub fn put_float<E: Encoding>(out: &mut [u8], o: usize, s: &[u8], at: usize) -> usize
    ensures { Put out.old out.new o result
        (or_nothing write_float (read_float (rest E.encoding s.now at))) }
{
    put_float_to::<E>(out, o, END, s, at)
}
