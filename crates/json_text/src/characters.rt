// The character at a place in a string: RFC 8259, section 7. See specs/Strings.antt, CharAt.antt.
ghost use Rattle.std.specs.Prelude.{◌≡◌, ◌+◌, ◌≤◌, ◌<◌, length, get_or, drop};
ghost use Rattle.json_text.specs.Bytes.{escape, letter_u};
ghost use Rattle.json_text.specs.Strings.{hex_worth, named, paired};
ghost use Rattle.json_text.specs.CharAt.{Character};

use crate::CharRead;
use crate::bytes::{hex_value, is_high, is_low, with_digit};
use octets::unit::{BACKSLASH, END, QUOTE};
use octets::wide;

// No code unit: it would have five digits.
const NO_UNIT: u32 = 0x10000;

// The code unit that the four digits from `at` on are worth.
fn code_unit(s: &[u8], at: usize) -> u32
    ensures { result ≡ hex_worth 4 0 (drop at s.now) }
{
    let mut i = at;
    let mut k: u8 = 4;
    let mut v: u32 = 0;
    while 0 < k {
        if i < s.len() {
            let d = hex_value(s[i]);
            if d == 16 {
                return NO_UNIT;
            }
            v = with_digit(v, d);
            i += 1;
            k -= 1;
        } else {
            return NO_UNIT;
        }
    }
    v
}

// The character that the letter of an escape of two bytes names.
fn named_by(c: usize) -> usize
    requires { c < 256 }
    ensures { (result ≡ named c) × (result < 256) }
{
    if c == 0x6E {
        return 10;
    }
    if c == 0x74 {
        return 9;
    }
    c
}

// The pair of the surrogates `h` and `l`.
fn pair_of(h: u32, l: u32) -> usize
    requires { (0xD800 ≤ h) × (h ≤ 0xDBFF) × (0xDC00 ≤ l) × (l ≤ 0xDFFF) }
    ensures { (result ≡ paired h l) × (result < 0x110000) }
{
    let p: u32 = 0x10000 + (h - 0xD800) * 0x400 + (l - 0xDC00);
    p as usize
}

// The escape `\u` at the place `p`.
fn digits_at(s: &[u8], p: usize) -> CharRead
    requires { (p + 1 < length s.now) × (get_or s.now p 0 ≡ escape) × (get_or s.now (p + 1) 0 ≡ letter_u) }
    ensures { Character s.now p result }
{
    let v = code_unit(s, p + 2);
    if is_high(v) {
        let l = code_unit(s, p + 8);
        if is_low(l) {
            return CharRead {
                u: 257 + pair_of(v, l),
                next: p + 12,
            };
        }
        return CharRead { u: END, next: p };
    }
    if v < NO_UNIT {
        return CharRead {
            u: 257 + v as usize,
            next: p + 6,
        };
    }
    CharRead { u: END, next: p }
}

// The escape at the place `p`.
fn escape_at(s: &[u8], p: usize) -> CharRead
    requires { (p < length s.now) × (get_or s.now p 0 ≡ escape) }
    ensures { Character s.now p result }
{
    if p + 1 < s.len() {
        let c = wide(s[p + 1]);
        if c == 0x75 {
            return digits_at(s, p);
        }
        return CharRead {
            u: named_by(c),
            next: p + 2,
        };
    }
    CharRead { u: END, next: p }
}

// The character at the place `p` in a string.
pub fn char_at(s: &[u8], p: usize) -> CharRead
    ensures { Character s.now p result }
{
    if p < s.len() {
        let u = wide(s[p]);
        if u == QUOTE {
            return CharRead { u: END, next: p };
        }
        if u == BACKSLASH {
            return escape_at(s, p);
        }
        return CharRead { u: u, next: p + 1 };
    }
    CharRead { u: END, next: p }
}
