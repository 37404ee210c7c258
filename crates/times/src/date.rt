// DATE. See specs/Date.antt and specs/DateAlong.antt; which days there are, crate gregorian.
ghost use Rattle.std.specs.Prelude.{◌≡◌, true};
ghost use Rattle.octets.specs.Reading.{or_nothing};
ghost use Rattle.calendar.specs.Calendar.{format_of};
ghost use Rattle.source.specs.Source.{rest};
ghost use Rattle.sink.specs.Sink.{Put};
ghost use Rattle.times.specs.Date.{read_date, write_date};
ghost use Rattle.times.specs.DateAlong.{date_pattern, day_from, day_of};
ghost use Rattle.times.specs.Followed.{Walks};

use crate::follow::{Walk, follow};
use crate::letters::ended;
use crate::written::put_day;
use gregorian::is_day;
use source::Encoding;

// A day of the calendar.
#[derive(Clone, Copy, Debug, PartialEq, Eq)]
pub struct Date {
    pub year: u16,
    pub month: u8,
    pub day: u8,
}

// The day of eight digits that are worth `n`.
pub fn day_from(n: usize) -> Option<Date>
    ensures { day_from n ≡ day_of result }
{
    let year = (n / 10000 % 10000) as u16;
    let month = (n / 100 % 100) as u8;
    let day = (n % 100) as u8;
    if is_day(year, month, day) {
        Some(Date { year, month, day })
    } else {
        None
    }
}

fn follow_date<E: Encoding>(xcal: bool, s: &[u8], at: usize) -> Option<Walk>
    ensures { Walks (date_pattern (format_of xcal)) true E.encoding s.now at result }
{
    if xcal {
        follow::<E>(b"0000-00-00", true, s, at)
    } else {
        follow::<E>(b"00000000", true, s, at)
    }
}

pub fn read_date<E: Encoding>(xcal: bool, s: &[u8], at: usize) -> Option<Date>
    ensures { read_date (format_of xcal) (rest E.encoding s.now at) ≡ day_of result }
{
    let walk = follow_date::<E>(xcal, s, at)?;
    if ended::<E>(s, walk.next) {
        day_from(walk.number)
    } else {
        None
    }
}

pub fn put_date<E: Encoding>(
    out: &mut [u8],
    o: usize,
    from: bool,
    to: bool,
    s: &[u8],
    at: usize,
) -> usize
    ensures { Put out.old out.new o result
        (or_nothing (write_date (format_of to)) (read_date (format_of from) (rest E.encoding s.now at))) }
{
    match read_date::<E>(from, s, at) {
        Some(date) => put_day(out, o, to, date),
        None => o,
    }
}
