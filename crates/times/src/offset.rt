// UTC-OFFSET. See specs/UtcOffset.antt and specs/OffsetAlong.antt.
ghost use Rattle.std.specs.Prelude.{◌≡◌, true, ◌≤◌, ltb, length};
ghost use Rattle.octets.specs.Pick.{pick};
ghost use Rattle.octets.specs.Reading.{or_nothing, provided};
ghost use Rattle.calendar.specs.Calendar.{format_of};
ghost use Rattle.source.specs.Source.{rest};
ghost use Rattle.sink.specs.Sink.{Put};
ghost use Rattle.times.specs.UtcOffset.{read_utc_offset, write_utc_offset};
ghost use Rattle.times.specs.OffsetAlong.{minute_pattern, second_pattern, is_minus, offset_by, shift_of, WalksToEnd};
ghost use Rattle.times.specs.OffsetWritten.{sign_of, last_bytes, offset_bytes};

use crate::follow::follow;
use crate::letters::ended;
use crate::time::is_hms;
use crate::written::{put_marked, put_two};
use octets::unit::HYPHEN;
use sink::put;
use source::{Encoding, unit};

// The second, if it was given.
#[derive(Clone, Copy, Debug, PartialEq, Eq)]
pub struct UtcOffset {
    pub negative: bool,
    pub hour: u8,
    pub minute: u8,
    pub second: Option<u8>,
}

// The pattern `p` followed to the end: the number of its digits.
fn follow_whole<E: Encoding>(p: &[u8], s: &[u8], at: usize) -> Option<usize>
    requires { length p.now ≤ 19 }
    ensures { WalksToEnd p.now E.encoding s.now at result }
{
    let walk = follow::<E>(p, true, s, at)?;
    if ended::<E>(s, walk.next) {
        Some(walk.number)
    } else {
        None
    }
}

fn follow_minutes<E: Encoding>(xcal: bool, s: &[u8], at: usize) -> Option<usize>
    ensures { WalksToEnd (minute_pattern (format_of xcal)) E.encoding s.now at result }
{
    if xcal {
        follow_whole::<E>(b"+00:00", s, at)
    } else {
        follow_whole::<E>(b"+0000", s, at)
    }
}

fn follow_seconds<E: Encoding>(xcal: bool, s: &[u8], at: usize) -> Option<usize>
    ensures { WalksToEnd (second_pattern (format_of xcal)) E.encoding s.now at result }
{
    if xcal {
        follow_whole::<E>(b"+00:00:00", s, at)
    } else {
        follow_whole::<E>(b"+000000", s, at)
    }
}

fn minus_at<E: Encoding>(s: &[u8], at: usize) -> bool
    ensures { result ≡ is_minus (rest E.encoding s.now at) }
{
    let a = unit::<E>(s, at);
    a.u == HYPHEN
}

// There is no negative zero.
fn is_signed(negative: bool, n: usize) -> bool
    ensures { result ≡ pick negative (ltb 0 n) true }
{
    !negative || 0 < n
}

fn second_if(given: bool, second: u8) -> Option<u8>
    ensures { result ≡ provided given second }
{
    if given { Some(second) } else { None }
}

// The offset of six digits that are worth `n`.
fn shift_from(negative: bool, given: bool, n: usize) -> Option<UtcOffset>
    ensures { offset_by negative given n ≡ shift_of result }
{
    let hour = (n / 10000 % 100) as u8;
    let minute = (n / 100 % 100) as u8;
    let second = (n % 100) as u8;
    if is_hms(hour, minute, second) && is_signed(negative, n) {
        return Some(UtcOffset {
            negative,
            hour,
            minute,
            second: second_if(given, second),
        });
    }
    None
}

pub fn read_utc_offset<E: Encoding>(xcal: bool, s: &[u8], at: usize) -> Option<UtcOffset>
    ensures { read_utc_offset (format_of xcal) (rest E.encoding s.now at) ≡ shift_of result }
{
    let negative = minus_at::<E>(s, at);
    if let Some(four) = follow_minutes::<E>(xcal, s, at) {
        return shift_from(negative, false, four % 10000 * 100);
    }
    let six = follow_seconds::<E>(xcal, s, at)?;
    shift_from(negative, true, six)
}

fn sign(negative: bool) -> u8
    ensures { result ≡ sign_of negative }
{
    if negative { b'-' } else { b'+' }
}

fn put_last(out: &mut [u8], o: usize, to: bool, second: Option<u8>) -> usize
    ensures { Put out.old out.new o result (last_bytes to second) }
{
    match second {
        Some(n) => put_marked(out, o, to, b':', n),
        None => o,
    }
}

fn put_shift(out: &mut [u8], o: usize, to: bool, offset: UtcOffset) -> usize
    ensures { Put out.old out.new o result (offset_bytes to offset.negative offset.hour offset.minute offset.second) }
{
    let g = sign(offset.negative);
    let p = put(out, o, g);
    let q = put_two(out, p, offset.hour as u16);
    let e = put_marked(out, q, to, b':', offset.minute);
    put_last(out, e, to, offset.second)
}

pub fn put_utc_offset<E: Encoding>(
    out: &mut [u8],
    o: usize,
    from: bool,
    to: bool,
    s: &[u8],
    at: usize,
) -> usize
    ensures { Put out.old out.new o result
        (or_nothing (write_utc_offset (format_of to)) (read_utc_offset (format_of from) (rest E.encoding s.now at))) }
{
    match read_utc_offset::<E>(from, s, at) {
        Some(offset) => put_shift(out, o, to, offset),
        None => o,
    }
}
