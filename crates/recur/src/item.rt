// One item of a rule part, by the part's number. See specs/Fits.antt.
ghost use Rattle.std.specs.Prelude.{◌≡◌, [], ◌≤◌, ◌<◌, get_or};
ghost use Rattle.octets.specs.Reading.{is_read};
ghost use Rattle.calendar.specs.Calendar.{format_of};
ghost use Rattle.source.specs.Source.{rest};
ghost use Rattle.recur.specs.Parts.{part_names};
ghost use Rattle.recur.specs.Item.{read_item};
ghost use Rattle.recur.specs.Fits.{item_read};

use crate::number::{is_numeral, is_signed, is_unsigned};
use crate::part;
use crate::word::{is_enddate, is_frequency, is_weekday, is_weekdaynum};
use source::Encoding;

// FREQ, UNTIL, COUNT, INTERVAL.
fn is_limit<E: Encoding>(p: usize, xcal: bool, s: &[u8], at: usize) -> bool
    requires { p < 4 }
    ensures { result ≡ is_read (read_item (format_of xcal) (get_or part_names p []) (rest E.encoding s.now at)) }
{
    if p == part::FREQ {
        return is_frequency::<E>(xcal, s, at);
    }
    if p == part::UNTIL {
        return is_enddate::<E>(xcal, s, at);
    }
    if p == part::COUNT {
        return is_numeral::<E>(false, 1, 2147483647, s, at);
    }
    is_numeral::<E>(false, 1, 2147483647, s, at)
}

// BYSECOND, BYMINUTE, BYHOUR, BYDAY.
fn is_time_part<E: Encoding>(p: usize, xcal: bool, s: &[u8], at: usize) -> bool
    requires { (4 ≤ p) × (p < 8) }
    ensures { result ≡ is_read (read_item (format_of xcal) (get_or part_names p []) (rest E.encoding s.now at)) }
{
    if p == part::BYSECOND {
        return is_unsigned::<E>(false, 2, 0, 60, s, at);
    }
    if p == part::BYMINUTE {
        return is_unsigned::<E>(false, 2, 0, 59, s, at);
    }
    if p == part::BYHOUR {
        return is_unsigned::<E>(false, 2, 0, 23, s, at);
    }
    is_weekdaynum::<E>(xcal, s, at)
}

// BYMONTHDAY, BYYEARDAY, BYWEEKNO, BYMONTH, BYSETPOS, WKST.
fn is_day_part<E: Encoding>(p: usize, xcal: bool, s: &[u8], at: usize) -> bool
    requires { (8 ≤ p) × (p < 14) }
    ensures { result ≡ is_read (read_item (format_of xcal) (get_or part_names p []) (rest E.encoding s.now at)) }
{
    if p == part::BYMONTHDAY {
        return is_signed::<E>(false, 2, 31, s, at);
    }
    if p == part::BYYEARDAY {
        return is_signed::<E>(false, 3, 366, s, at);
    }
    if p == part::BYWEEKNO {
        return is_signed::<E>(false, 2, 53, s, at);
    }
    if p == part::BYMONTH {
        return is_unsigned::<E>(false, 2, 1, 12, s, at);
    }
    if p == part::BYSETPOS {
        return is_signed::<E>(false, 3, 366, s, at);
    }
    is_weekday::<E>(xcal, s, at)
}

// There is an item of the part at the place `p`, from the cursor to the end.
pub fn is_item<E: Encoding>(p: usize, xcal: bool, s: &[u8], at: usize) -> bool
    ensures { result ≡ is_read (read_item (format_of xcal) (get_or part_names p []) (rest E.encoding s.now at)) }
{
    if p < part::BYSECOND {
        return is_limit::<E>(p, xcal, s, at);
    }
    if p < part::BYMONTHDAY {
        return is_time_part::<E>(p, xcal, s, at);
    }
    if p < part::KNOWN {
        return is_day_part::<E>(p, xcal, s, at);
    }
    false
}

// The place `p` of the part, where there is an item of it.
pub fn read_item<E: Encoding>(p: usize, xcal: bool, s: &[u8], at: usize) -> Option<usize>
    ensures { result ≡ item_read p (is_read (read_item (format_of xcal) (get_or part_names p []) (rest E.encoding s.now at))) }
{
    if is_item::<E>(p, xcal, s, at) {
        return Some(p);
    }
    None
}
