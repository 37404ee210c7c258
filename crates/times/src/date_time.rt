// DATE-TIME. See specs/DateTime.antt and specs/DateTimeAlong.antt.
ghost use Rattle.std.specs.Prelude.{◌≡◌};
ghost use Rattle.octets.specs.Reading.{and_then, or_nothing};
ghost use Rattle.calendar.specs.Calendar.{format_of};
ghost use Rattle.source.specs.Source.{rest};
ghost use Rattle.sink.specs.Sink.{Put};
ghost use Rattle.times.specs.DateTime.{read_date_time, write_date_time};
ghost use Rattle.times.specs.DateTimeAlong.{date_time_pattern, moment_by, moment_of};
ghost use Rattle.times.specs.Followed.{Walks};
ghost use Rattle.times.specs.Written.{moment_bytes};

use crate::date::{Date, day_from};
use crate::follow::{Walk, follow};
use crate::time::{Time, Zone, clock_from, zone_at};
use crate::written::{put_clock, put_day};
use sink::put;
use source::Encoding;

#[derive(Clone, Copy, Debug, PartialEq, Eq)]
pub struct DateTime {
    pub date: Date,
    pub time: Time,
}

// The date-time of fourteen digits that are worth `n`, with a zone after them; none where what stands there is no zone.
pub fn moment_from(n: usize, zone: Option<Zone>) -> Option<DateTime>
    ensures { and_then zone (moment_by n) ≡ moment_of result }
{
    let date = day_from(n / 1000000)?;
    let time = clock_from(n % 1000000, zone)?;
    Some(DateTime { date, time })
}

pub fn follow_date_time<E: Encoding>(xcal: bool, s: &[u8], at: usize) -> Option<Walk>
    ensures { Walks (date_time_pattern (format_of xcal)) xcal E.encoding s.now at result }
{
    if xcal {
        follow::<E>(b"0000-00-00T00:00:00", true, s, at)
    } else {
        follow::<E>(b"00000000T000000", false, s, at)
    }
}

pub fn read_date_time<E: Encoding>(xcal: bool, s: &[u8], at: usize) -> Option<DateTime>
    ensures { read_date_time (format_of xcal) (rest E.encoding s.now at) ≡ moment_of result }
{
    let walk = follow_date_time::<E>(xcal, s, at)?;
    moment_from(walk.number, zone_at::<E>(xcal, s, walk.next))
}

pub fn put_moment(out: &mut [u8], o: usize, to: bool, moment: DateTime) -> usize
    ensures { Put out.old out.new o result (moment_bytes to moment.date.year moment.date.month moment.date.day moment.time.hour moment.time.minute moment.time.second moment.time.utc) }
{
    let p = put_day(out, o, to, moment.date);
    let q = put(out, p, b'T');
    put_clock(out, q, to, moment.time)
}

pub fn put_date_time<E: Encoding>(
    out: &mut [u8],
    o: usize,
    from: bool,
    to: bool,
    s: &[u8],
    at: usize,
) -> usize
    ensures { Put out.old out.new o result
        (or_nothing (write_date_time (format_of to)) (read_date_time (format_of from) (rest E.encoding s.now at))) }
{
    match read_date_time::<E>(from, s, at) {
        Some(moment) => put_moment(out, o, to, moment),
        None => o,
    }
}
