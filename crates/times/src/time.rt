// TIME. See specs/Time.antt and specs/TimeAlong.antt.
ghost use Rattle.std.specs.Prelude.{◌≡◌};
ghost use Rattle.octets.specs.Reading.{and_then, or_nothing};
ghost use Rattle.calendar.specs.Calendar.{format_of};
ghost use Rattle.source.specs.Source.{rest};
ghost use Rattle.sink.specs.Sink.{Put};
ghost use Rattle.times.specs.Letters.{cased};
ghost use Rattle.times.specs.Time.{read_time, write_time};
ghost use Rattle.times.specs.TimeAlong.{time_pattern, is_hms, is_utc, zone, clock_by, clock_of};
ghost use Rattle.times.specs.Followed.{Walks};

use crate::follow::{Walk, follow};
use crate::letters::{ended, letter};
use crate::written::put_clock;
use octets::unit::{END, UPPER_Z};
use source::Encoding;

// A time of day.
#[derive(Clone, Copy, Debug, PartialEq, Eq)]
pub struct Time {
    pub hour: u8,
    pub minute: u8,
    pub second: u8,
    pub utc: bool,
}

// What may follow the digits of a time: nothing, or a Z for UTC.
#[derive(Clone, Copy, Debug, PartialEq, Eq)]
pub enum Zone {
    Local,
    Utc,
}

impl Zone {
    fn is_utc(self) -> bool
        ensures { result ≡ is_utc self }
    {
        match self {
            Zone::Local => false,
            Zone::Utc => true,
        }
    }
}

pub fn is_hms(h: u8, m: u8, s: u8) -> bool
    ensures { result ≡ is_hms h m s }
{
    h <= 23 && m <= 59 && s <= 60
}

// What stands from the cursor `at` on, if it is a zone.
pub fn zone_at<E: Encoding>(exact: bool, s: &[u8], at: usize) -> Option<Zone>
    ensures { result ≡ zone (cased exact (rest E.encoding s.now at)) }
{
    let a = letter::<E>(exact, s, at);
    if a.u == END {
        return Some(Zone::Local);
    }
    if a.u == UPPER_Z && ended::<E>(s, a.next) {
        return Some(Zone::Utc);
    }
    None
}

// The time of six digits that are worth `n`, with a zone after them.
fn clock_in(n: usize, zone: Zone) -> Option<Time>
    ensures { clock_by n zone ≡ clock_of result }
{
    let hour = (n / 10000 % 100) as u8;
    let minute = (n / 100 % 100) as u8;
    let second = (n % 100) as u8;
    let utc = zone.is_utc();
    if is_hms(hour, minute, second) {
        Some(Time {
            hour,
            minute,
            second,
            utc,
        })
    } else {
        None
    }
}

// The same of what stands after them: none where that is no zone.
#[tactic(auto, unfolding(octets::specs::Reading::and_then))]
pub fn clock_from(n: usize, zone: Option<Zone>) -> Option<Time>
    ensures { and_then zone (clock_by n) ≡ clock_of result }
{
    clock_in(n, zone?)
}

fn follow_time<E: Encoding>(xcal: bool, s: &[u8], at: usize) -> Option<Walk>
    ensures { Walks (time_pattern (format_of xcal)) xcal E.encoding s.now at result }
{
    if xcal {
        follow::<E>(b"00:00:00", true, s, at)
    } else {
        follow::<E>(b"000000", false, s, at)
    }
}

pub fn read_time<E: Encoding>(xcal: bool, s: &[u8], at: usize) -> Option<Time>
    ensures { read_time (format_of xcal) (rest E.encoding s.now at) ≡ clock_of result }
{
    let walk = follow_time::<E>(xcal, s, at)?;
    clock_from(walk.number, zone_at::<E>(xcal, s, walk.next))
}

pub fn put_time<E: Encoding>(
    out: &mut [u8],
    o: usize,
    from: bool,
    to: bool,
    s: &[u8],
    at: usize,
) -> usize
    ensures { Put out.old out.new o result
        (or_nothing (write_time (format_of to)) (read_time (format_of from) (rest E.encoding s.now at))) }
{
    match read_time::<E>(from, s, at) {
        Some(time) => put_clock(out, o, to, time),
        None => o,
    }
}
