// Words, weekdays and ends of rule parts. See specs/Fits.antt.
ghost use Rattle.std.specs.Prelude.{◌≡◌};
ghost use Rattle.octets.specs.Class.{is_alpha};
ghost use Rattle.octets.specs.Words.{is_one_of};
ghost use Rattle.octets.specs.Reading.{is_read};
ghost use Rattle.octets.specs.Front.{up_to, from_on};
ghost use Rattle.calendar.specs.Calendar.{format_of};
ghost use Rattle.source.specs.Source.{rest};
ghost use Rattle.recur.specs.Parts.{frequencies, weekdays, weekdaynum};
ghost use Rattle.recur.specs.Item.{in_capitals, read_enddate};
ghost use Rattle.recur.specs.Fits.{fits_ordinal, fits_form};

use crate::number::is_signed;
use names::find_word;
use numbers::numeral::front_unit;
use octets::is_alpha;
use octets::unit::END;
use source::{Encoding, unit};
use times::date::read_date;
use times::date_time::read_date_time;

// A frequency.
pub fn is_frequency<E: Encoding>(xcal: bool, s: &[u8], at: usize) -> bool
    ensures { result ≡ is_one_of (in_capitals (format_of xcal) (rest E.encoding s.now at)) frequencies }
{
    find_word::<E>(
        xcal,
        s,
        at,
        b"SECONDLY\nMINUTELY\nHOURLY\nDAILY\nWEEKLY\nMONTHLY\nYEARLY\n",
    ) < 7
}

// A weekday.
pub fn is_weekday<E: Encoding>(xcal: bool, s: &[u8], at: usize) -> bool
    ensures { result ≡ is_one_of (in_capitals (format_of xcal) (rest E.encoding s.now at)) weekdays }
{
    find_word::<E>(xcal, s, at, b"SU\nMO\nTU\nWE\nTH\nFR\nSA\n") < 7
}

// The cursor at the first letter.
pub fn first_letter<E: Encoding>(s: &[u8], at: usize) -> usize
    ensures { from_on is_alpha (rest E.encoding s.now at) ≡ rest E.encoding s.now result }
{
    let mut c = at;
    loop {
        let t = unit::<E>(s, c);
        if t.u == END {
            return c;
        }
        if is_alpha(t.u) {
            return c;
        }
        c = t.next;
    }
}

// Nothing, or a number of 1 to 53, before the first letter.
fn is_ordinal<E: Encoding>(s: &[u8], at: usize) -> bool
    ensures { result ≡ fits_ordinal (up_to is_alpha (rest E.encoding s.now at)) }
{
    let t = front_unit::<E>(true, s, at);
    if t.u == END {
        return true;
    }
    is_signed::<E>(true, 2, 53, s, at)
}

// A weekday that may have an ordinal.
pub fn is_weekdaynum<E: Encoding>(xcal: bool, s: &[u8], at: usize) -> bool
    ensures { result ≡ fits_form (format_of xcal) weekdaynum (rest E.encoding s.now at) }
{
    is_ordinal::<E>(s, at) && is_weekday::<E>(xcal, s, first_letter::<E>(s, at))
}

// A date or a date-time.
pub fn is_enddate<E: Encoding>(xcal: bool, s: &[u8], at: usize) -> bool
    ensures { result ≡ is_read (read_enddate (format_of xcal) (rest E.encoding s.now at)) }
{
    read_date::<E>(xcal, s, at).is_some() || read_date_time::<E>(xcal, s, at).is_some()
}
