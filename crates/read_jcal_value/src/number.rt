// INTEGER by its value. See specs/Number.antt.
ghost use Rattle.std.specs.Prelude.{◌≡◌, ◌+◌, ◌-◌, ◌*◌, ◌^◌, ◌≤◌, ◌<◌, min, length, take, option_map};
ghost use Rattle.octets.specs.Append.{◌⊕◌};
ghost use Rattle.octets.specs.Decimal.{digit_of};
ghost use Rattle.numbers.specs.Sign.{has_minus};
ghost use Rattle.numbers.specs.ReadInteger.{whole_of};
ghost use Rattle.source.specs.Source.{rest};
ghost use Rattle.jcal.specs.Integer.{read_number};
ghost use Rattle.read_jcal_value.specs.Digits.{next_worth, DigitWorth, Worth};
ghost use Rattle.read_jcal_value.specs.Number.{kept_of, up_of, raised_to, magnitude_of, signed_to, mark_of, MarkAt, SignAt, ExponentAt, Power, Most};

use numbers::integer::Integer;
use octets::unit::{HYPHEN, LOWER_E, NINE, PLUS, POINT, UPPER_E, ZERO};
use octets::{smaller, wide};

// More than every INTEGER.
const FAR: usize = 4294967296;

const POWERS: [usize; 10] = [
    1, 10, 100, 1000, 10000, 100000, 1000000, 10000000, 100000000, 1000000000,
];

// An exponent: whether it has a minus, and what its digits are worth.
#[derive(Clone, Copy)]
pub struct Exponent {
    pub down: bool,
    pub worth: usize,
}

// ---- digits

// What a digit is worth; another byte counts 0.
fn digit_worth(u: usize) -> usize
    ensures { DigitWorth u result }
{
    if u < ZERO {
        return 0;
    }
    if NINE < u {
        return 0;
    }
    u - ZERO
}

// Digits that are worth `v`, and `u` behind them.
fn grown(cap: usize, v: usize, u: usize) -> usize
    requires { cap < 2 ^ 63 + 64 }
    ensures { result ≡ min cap (v * 10 + digit_of u) }
{
    if cap / 10 < v {
        return cap;
    }
    let d = digit_worth(u);
    smaller(cap, v * 10 + d)
}

// The same where `k` more digits are kept.
fn next_worth(cap: usize, k: usize, v: usize, u: usize) -> usize
    requires { cap < 2 ^ 63 + 64 }
    ensures { result ≡ next_worth cap k v u }
{
    if k == 0 {
        if u == ZERO {
            return v;
        }
        return cap;
    }
    grown(cap, v, u)
}

fn one_less(k: usize) -> usize
    ensures { result ≡ k - 1 }
{
    if k == 0 {
        return 0;
    }
    k - 1
}

// The digits from `from` to the end behind digits that are worth `v`: `keep` of them count, the others must be zeros.
fn digits_worth(cap: usize, keep: usize, v: usize, s: &[u8], from: usize) -> usize
    requires { (cap < 2 ^ 63 + 64) × (v ≤ cap) }
    ensures { Worth cap (rest 0 s.now from) keep v result }
{
    let mut i = from;
    let mut k = keep;
    let mut w = v;
    while i < s.len() {
        let u = wide(s[i]);
        let n = next_worth(cap, k, w, u);
        let m = one_less(k);
        w = n;
        k = m;
        i += 1;
    }
    w
}

// ---- places

// The decimal point, or the letter before an exponent.
fn is_mark(point: bool, u: usize) -> bool
    ensures { result ≡ mark_of point u }
{
    if point {
        return u == POINT;
    }
    (u == LOWER_E) | (u == UPPER_E)
}

// The place of the first one from `at` on, or the end.
fn mark_at(point: bool, s: &[u8], at: usize) -> usize
    requires { at ≤ length s.now }
    ensures { MarkAt (mark_of point) s.now at result }
{
    let mut i = at;
    while i < s.len() {
        let u = wide(s[i]);
        let mark = is_mark(point, u);
        if mark {
            return i;
        } else {
            i += 1;
        }
    }
    i
}

fn is_negative(s: &[u8], at: usize) -> bool
    ensures { result ≡ has_minus (rest 0 s.now at) }
{
    if at < s.len() {
        let u = wide(s[at]);
        return u == HYPHEN;
    }
    false
}

// The place behind a sign.
fn after_sign(s: &[u8], at: usize) -> usize
    requires { at ≤ length s.now }
    ensures { SignAt s.now at result }
{
    if at < s.len() {
        let u = wide(s[at]);
        if u == HYPHEN {
            return at + 1;
        }
        if u == PLUS {
            return at + 1;
        }
        return at;
    }
    at
}

// ---- the parts of a number

// The exponent whose letter stands at `e`; without one it is 0.
fn exponent_at(s: &[u8], e: usize) -> Exponent
    requires { e ≤ length s.now }
    ensures { ExponentAt s.now e result }
{
    let c = smaller(e + 1, s.len());
    let down = is_negative(s, c);
    let b = after_sign(s, c);
    let worth = digits_worth(s.len() + 10, s.len(), 0, s, b);
    Exponent { down, worth }
}

// How many digits are kept, of those before the point and behind it.
fn kept(down: bool, before: usize, behind: usize, x: usize) -> usize
    requires { before + behind < 2 ^ 63 }
    ensures { result ≡ kept_of down before behind x }
{
    if down {
        if before < x {
            return 0;
        }
        return before - x;
    }
    before + smaller(x, behind)
}

// How many zeros follow.
fn up(down: bool, behind: usize, x: usize) -> usize
    ensures { result ≡ up_of down behind x }
{
    if down {
        return 0;
    }
    if x < behind {
        return 0;
    }
    x - behind
}

fn power(k: usize) -> usize
    requires { k < 10 }
    ensures { Power k result }
{
    POWERS[k]
}

// `v` with `k` zeros behind it.
fn raised(v: usize, k: usize) -> usize
    requires { v ≤ 4294967296 }
    ensures { result ≡ raised_to v k }
{
    if v == 0 {
        return 0;
    }
    if k < 10 {
        let p = power(k);
        return v * p;
    }
    FAR
}

// The digits from `a` to the point at `q`, and those behind it to `e`, of which `keep` are kept.
fn both_worth(s: &[u8], a: usize, q: usize, e: usize, keep: usize) -> usize
    requires { (a ≤ q) × (q ≤ e) × (e ≤ length s.now) }
    ensures { Worth 4294967296 (rest 0 (take q s.now) a ⊕ rest 0 (take e s.now) (q + 1)) keep 0 result }
{
    let v = digits_worth(FAR, keep, 0, &s[..q], a);
    let left = beyond(keep, q - a);
    digits_worth(FAR, left, v, &s[..e], q + 1)
}

// a - b, or 0.
fn beyond(a: usize, b: usize) -> usize
    ensures { result ≡ a - b }
{
    if a < b {
        return 0;
    }
    a - b
}

// What the number whose sign ends at `a` is worth without it; FAR where that is no whole number, or more than every INTEGER.
fn magnitude(s: &[u8], a: usize) -> usize
    requires { a ≤ length s.now }
    ensures { result ≡ magnitude_of (rest 0 s.now a) }
{
    let e = mark_at(false, s, a);
    let x = exponent_at(s, e);
    let q = mark_at(true, &s[..e], a);
    let behind = beyond(e, q + 1);
    let keep = kept(x.down, q - a, behind, x.worth);
    let v = both_worth(s, a, q, e, keep);
    let zeros = up(x.down, behind, x.worth);
    raised(v, zeros)
}

// ---- the number

fn most_of(neg: bool) -> usize
    ensures { Most neg result }
{
    if neg {
        return 2147483648;
    }
    2147483647
}

// The number with its sign: zero has none.
fn signed(neg: bool, n: usize) -> Option<Integer>
    ensures { signed_to neg n ≡ option_map whole_of result }
{
    let most = most_of(neg);
    if most < n {
        return None;
    }
    if n == 0 {
        return Some(Integer {
            negative: false,
            magnitude: 0,
        });
    }
    Some(Integer {
        negative: neg,
        magnitude: n as u32,
    })
}

// The INTEGER that the JSON number from `at` to the end resolves to.
pub fn read_number(s: &[u8], at: usize) -> Option<Integer>
    requires { at ≤ length s.now }
    ensures { read_number (rest 0 s.now at) ≡ option_map whole_of result }
{
    let neg = is_negative(s, at);
    let a = after_sign(s, at);
    let n = magnitude(s, a);
    signed(neg, n)
}
