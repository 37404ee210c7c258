// The types of dates and times: whether there is a value from the cursor to the end.
ghost use Rattle.std.specs.Prelude.{◌≡◌};
ghost use Rattle.octets.specs.Reading.{is_read};
ghost use Rattle.calendar.specs.Calendar.{format_of, DATE, DATE-TIME, DURATION, PERIOD, TIME, UTC-OFFSET};
ghost use Rattle.source.specs.Source.{rest};
ghost use Rattle.values.specs.ReadValue.{read_value};

use source::Encoding;
use times::date::read_date;
use times::date_time::read_date_time;
use times::duration::read_duration;
use times::offset::read_utc_offset;
use times::period::read_period;
use times::time::read_time;

pub fn is_date<E: Encoding>(xcal: bool, s: &[u8], at: usize) -> bool
    ensures { result ≡ is_read (read_value (format_of xcal) DATE (rest E.encoding s.now at)) }
{
    read_date::<E>(xcal, s, at).is_some()
}

pub fn is_date_time<E: Encoding>(xcal: bool, s: &[u8], at: usize) -> bool
    ensures { result ≡ is_read (read_value (format_of xcal) DATE-TIME (rest E.encoding s.now at)) }
{
    read_date_time::<E>(xcal, s, at).is_some()
}

pub fn is_duration<E: Encoding>(xcal: bool, s: &[u8], at: usize) -> bool
    ensures { result ≡ is_read (read_value (format_of xcal) DURATION (rest E.encoding s.now at)) }
{
    read_duration::<E>(xcal, s, at).is_some()
}

// PERIOD is made of elements in XML.
pub fn is_period<E: Encoding>(xcal: bool, s: &[u8], at: usize) -> bool
    ensures { result ≡ is_read (read_value (format_of xcal) PERIOD (rest E.encoding s.now at)) }
{
    if xcal {
        return false;
    }
    read_period::<E>(s, at).is_some()
}

pub fn is_time<E: Encoding>(xcal: bool, s: &[u8], at: usize) -> bool
    ensures { result ≡ is_read (read_value (format_of xcal) TIME (rest E.encoding s.now at)) }
{
    read_time::<E>(xcal, s, at).is_some()
}

pub fn is_utc_offset<E: Encoding>(xcal: bool, s: &[u8], at: usize) -> bool
    ensures { result ≡ is_read (read_value (format_of xcal) UTC-OFFSET (rest E.encoding s.now at)) }
{
    read_utc_offset::<E>(xcal, s, at).is_some()
}
