// Digits two by two and the marks between them, written. See specs/Written.antt.
ghost use Rattle.std.specs.Prelude.{◌≡◌, ◌<◌};
ghost use Rattle.sink.specs.Sink.{Put};
ghost use Rattle.times.specs.Digits.{two_digits};
ghost use Rattle.times.specs.Written.{mark_bytes, marked, year_digits, day_bytes, clock_bytes};

use crate::date::Date;
use crate::time::Time;
use sink::put;

// The byte of the digit 0, to be added to a number.
const ZERO: u16 = b'0' as u16;

pub fn put_two(out: &mut [u8], o: usize, n: u16) -> usize
    requires { n < 1000 }
    ensures { Put out.old out.new o result (two_digits n) }
{
    let a = (ZERO + n / 10) as u8;
    let b = (ZERO + n % 10) as u8;
    let p = put(out, o, a);
    put(out, p, b)
}

pub fn put_mark(out: &mut [u8], o: usize, on: bool, c: u8) -> usize
    ensures { Put out.old out.new o result (mark_bytes on c) }
{
    if on { put(out, o, c) } else { o }
}

pub fn put_marked(out: &mut [u8], o: usize, on: bool, c: u8, n: u8) -> usize
    ensures { Put out.old out.new o result (marked on c n) }
{
    let p = put_mark(out, o, on, c);
    put_two(out, p, n as u16)
}

fn put_year(out: &mut [u8], o: usize, y: u16) -> usize
    ensures { Put out.old out.new o result (year_digits y) }
{
    let p = put_two(out, o, y / 100);
    put_two(out, p, y % 100)
}

pub fn put_day(out: &mut [u8], o: usize, to: bool, date: Date) -> usize
    ensures { Put out.old out.new o result (day_bytes to date.year date.month date.day) }
{
    let p = put_year(out, o, date.year);
    let q = put_marked(out, p, to, b'-', date.month);
    put_marked(out, q, to, b'-', date.day)
}

pub fn put_clock(out: &mut [u8], o: usize, to: bool, time: Time) -> usize
    ensures { Put out.old out.new o result (clock_bytes to time.hour time.minute time.second time.utc) }
{
    let p = put_two(out, o, time.hour as u16);
    let q = put_marked(out, p, to, b':', time.minute);
    let e = put_marked(out, q, to, b':', time.second);
    put_mark(out, e, time.utc, b'Z')
}
