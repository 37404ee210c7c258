// INTEGER: read from the cursor to the end, and written.
ghost use Rattle.std.specs.Prelude.{◌≡◌, List, ◌+◌, ◌<◌, ◌≤◌, option_map};
ghost use Rattle.octets.specs.Decimal.{digits};
ghost use Rattle.octets.specs.Reading.{or_nothing};
ghost use Rattle.source.specs.Source.{rest};
ghost use Rattle.sink.specs.Sink.{Put};
ghost use Rattle.numbers.specs.Integer.{integer_of, write_whole, read_integer, write_integer};
ghost use Rattle.numbers.specs.ReadInteger.{number_in, whole_of, whole_is};

use crate::numeral::worth;
use octets::unit::{END, HYPHEN, PLUS};
use sink::put;
use source::{Encoding, unit};

// Zero is not negative.
#[derive(Clone, Copy, Debug, PartialEq, Eq)]
pub struct Integer {
    pub negative: bool,
    pub magnitude: u32,
}

// What the digits to the end are worth, where there is one and no other byte, and it is no more than `most`.
fn number<E: Encoding>(s: &[u8], at: usize, most: usize) -> Option<u32>
    requires { most ≤ 2147483648 }
    ensures { number_in most (rest E.encoding s.now at) ≡ result }
{
    if unit::<E>(s, at).u == END {
        return None;
    }
    worth::<E>(false, most, s, at)
}

pub fn read_integer<E: Encoding>(s: &[u8], at: usize) -> Option<Integer>
    ensures { read_integer (rest E.encoding s.now at) ≡ option_map whole_of result }
{
    let sign = unit::<E>(s, at);
    if sign.u == HYPHEN {
        let magnitude = number::<E>(s, sign.next, 2147483648)?;
        return Some(Integer {
            negative: 0 < magnitude,
            magnitude,
        });
    }
    let first = if sign.u == PLUS { sign.next } else { at };
    let magnitude = number::<E>(s, first, 2147483647)?;
    Some(Integer {
        negative: false,
        magnitude,
    })
}

fn digit(n: u64) -> u8
    requires { n < 10 }
    ensures { result ≡ 48 + n }
{
    b'0' + n as u8
}

// The last `left` + 1 digits of `n`, without leading zeros.
pub fn put_digits(out: &mut [u8], o: usize, left: u8, n: u64) -> usize
    ensures { Put out.old out.new o result (digits left n) }
{
    if left == 0 {
        return put(out, o, digit(n % 10));
    }
    if n < 10 {
        return put(out, o, digit(n));
    }
    let q = put_digits(out, o, left - 1, n / 10);
    put(out, q, digit(n % 10))
}

pub fn put_whole(out: &mut [u8], o: usize, neg: bool, m: u32) -> usize
    ensures { Put out.old out.new o result (write_whole (whole_is neg m)) }
{
    if neg {
        let q = put(out, o, b'-');
        return put_digits(out, q, 9, m as u64);
    }
    put_digits(out, o, 9, m as u64)
}

pub fn put_integer<E: Encoding>(out: &mut [u8], o: usize, s: &[u8], at: usize) -> usize
    ensures { Put out.old out.new o result
        (or_nothing write_integer (read_integer (rest E.encoding s.now at))) }
{
    let Some(n) = read_integer::<E>(s, at) else {
        return o;
    };
    put_whole(out, o, n.negative, n.magnitude)
}
