// PERIOD in iCalendar text. See specs/Period.antt, specs/PeriodAlong.antt and specs/PeriodAt.antt.
ghost use Rattle.std.specs.Prelude.{◌≡◌, false};
ghost use Rattle.octets.specs.Reading.{or_nothing};
ghost use Rattle.source.specs.Source.{rest};
ghost use Rattle.sink.specs.Sink.{Put};
ghost use Rattle.times.specs.Letters.{cased};
ghost use Rattle.times.specs.DateTimeAlong.{date_time_of};
ghost use Rattle.times.specs.Period.{read_period};
ghost use Rattle.times.specs.PeriodAlong.{period_upper};
ghost use Rattle.times.specs.PeriodAt.{Cuts, Periods};
ghost use Rattle.times.specs.PeriodWritten.{start_xml, end_xml, end_bytes};

use crate::date_time::{
    DateTime, follow_date_time, moment_from, put_date_time, put_moment, read_date_time,
};
use crate::duration::{put_duration, read_duration};
use crate::letters::letter;
use crate::time::Zone;
use octets::unit::{SLASH, UPPER_Z};
use source::Encoding;

// The zone and the slash after the start's digits: the zone, and the cursor after the slash.
#[derive(Clone, Copy, Debug, PartialEq, Eq)]
pub struct Cut {
    pub zone: Zone,
    pub next: usize,
}

// The start, whether an end and not a duration follows the slash, and the cursor after the slash.
#[derive(Clone, Copy, Debug, PartialEq, Eq)]
pub struct Period {
    pub start: DateTime,
    pub explicit: bool,
    pub at: usize,
}

fn slash_at<E: Encoding>(s: &[u8], at: usize) -> Option<Cut>
    ensures { Cuts E.encoding s.now at result }
{
    let a = letter::<E>(false, s, at);
    if a.u == SLASH {
        return Some(Cut {
            zone: Zone::Local,
            next: a.next,
        });
    }
    if a.u != UPPER_Z {
        return None;
    }
    let b = letter::<E>(false, s, a.next);
    if b.u == SLASH {
        return Some(Cut {
            zone: Zone::Utc,
            next: b.next,
        });
    }
    None
}

// The period with this start, and with what stands from the cursor `at`, after the slash.
fn period_from<E: Encoding>(start: DateTime, s: &[u8], at: usize) -> Option<Period>
    ensures { Periods (period_upper (date_time_of start) (cased false (rest E.encoding s.now at))) E.encoding s.now result }
{
    if read_date_time::<E>(false, s, at).is_some() {
        return Some(Period {
            start,
            explicit: true,
            at,
        });
    }
    read_duration::<E>(false, s, at)?;
    Some(Period {
        start,
        explicit: false,
        at,
    })
}

pub fn read_period<E: Encoding>(s: &[u8], at: usize) -> Option<Period>
    ensures { Periods (read_period (rest E.encoding s.now at)) E.encoding s.now result }
{
    let walk = follow_date_time::<E>(false, s, at)?;
    let cut = slash_at::<E>(s, walk.next)?;
    let start = moment_from(walk.number, Some(cut.zone))?;
    period_from::<E>(start, s, cut.next)
}

// What stands after the slash, to XML.
fn put_end<E: Encoding>(out: &mut [u8], o: usize, explicit: bool, s: &[u8], at: usize) -> usize
    ensures { Put out.old out.new o result (end_bytes explicit (rest E.encoding s.now at)) }
{
    if explicit {
        put_date_time::<E>(out, o, false, true, s, at)
    } else {
        put_duration::<E>(out, o, false, true, s, at)
    }
}

// The start of a period, to XML.
pub fn put_period_start<E: Encoding>(out: &mut [u8], o: usize, s: &[u8], at: usize) -> usize
    ensures { Put out.old out.new o result
        (or_nothing start_xml (read_period (rest E.encoding s.now at))) }
{
    match read_period::<E>(s, at) {
        Some(period) => put_moment(out, o, true, period.start),
        None => o,
    }
}

// The end of a period, or its duration, to XML.
pub fn put_period_end<E: Encoding>(out: &mut [u8], o: usize, s: &[u8], at: usize) -> usize
    ensures { Put out.old out.new o result (or_nothing end_xml (read_period (rest E.encoding s.now at))) }
{
    match read_period::<E>(s, at) {
        Some(period) => put_end::<E>(out, o, period.explicit, s, period.at),
        None => o,
    }
}
