// One item of a rule part, written from its characters. See specs/Shown.antt.
ghost use Rattle.std.specs.Prelude.{◌≡◌, [], get_or};
ghost use Rattle.octets.specs.Class.{is_alpha};
ghost use Rattle.octets.specs.Reading.{or_nothing};
ghost use Rattle.octets.specs.Front.{up_to};
ghost use Rattle.calendar.specs.Calendar.{format_of};
ghost use Rattle.sink.specs.Sink.{Put};
ghost use Rattle.source.specs.Source.{rest};
ghost use Rattle.numbers.specs.Sign.{has_minus};
ghost use Rattle.numbers.specs.Numeral.{front};
ghost use Rattle.recur.specs.Parts.{part_names, part_of, weekdaynum};
ghost use Rattle.recur.specs.Item.{in_capitals, read_enddate, write_enddate, read_item, write_item};
ghost use Rattle.recur.specs.Shown.{shown_number, shown_ordinal, shown, shown_at};

use crate::item::is_item;
use crate::number::{after_sign, numeral_of};
use crate::part;
use crate::word::first_letter;
use names::{put_rest, put_upper};
use numbers::integer::put_whole;
use numbers::numeral::front_unit;
use octets::unit::{END, HYPHEN};
use source::Encoding;
use times::date::{put_date, read_date};
use times::date_time::put_date_time;

// What stands for characters that are no number. No item that is read has such.
const NO_NUMBER: u32 = u32::MAX;

fn is_minus<E: Encoding>(letters: bool, s: &[u8], at: usize) -> bool
    ensures { result ≡ has_minus (front letters (rest E.encoding s.now at)) }
{
    front_unit::<E>(letters, s, at).u == HYPHEN
}

fn put_number<E: Encoding>(out: &mut [u8], o: usize, letters: bool, s: &[u8], at: usize) -> usize
    ensures { Put out.old out.new o result (shown_number (front letters (rest E.encoding s.now at))) }
{
    let negative = is_minus::<E>(letters, s, at);
    let c = after_sign::<E>(letters, s, at);
    let n = numeral_of::<E>(letters, 0, 2147483647, s, c).unwrap_or(NO_NUMBER);
    put_whole(out, o, negative, n)
}

// What stands before the first letter.
fn put_ordinal<E: Encoding>(out: &mut [u8], o: usize, s: &[u8], at: usize) -> usize
    ensures { Put out.old out.new o result (shown_ordinal (up_to is_alpha (rest E.encoding s.now at))) }
{
    let t = front_unit::<E>(true, s, at);
    if t.u == END {
        return o;
    }
    put_number::<E>(out, o, true, s, at)
}

// A word in capitals.
fn put_word<E: Encoding>(out: &mut [u8], o: usize, from: bool, s: &[u8], at: usize) -> usize
    ensures { Put out.old out.new o result (in_capitals (format_of from) (rest E.encoding s.now at)) }
{
    if from {
        return put_rest::<E>(out, o, s, at);
    }
    put_upper::<E>(out, o, s, at)
}

fn put_weekdaynum<E: Encoding>(
    out: &mut [u8],
    o: usize,
    from: bool,
    to: bool,
    s: &[u8],
    at: usize,
) -> usize
    ensures { Put out.old out.new o result
        (shown (format_of to) (format_of from) weekdaynum (rest E.encoding s.now at)) }
{
    let q = put_ordinal::<E>(out, o, s, at);
    let c = first_letter::<E>(s, at);
    put_word::<E>(out, q, from, s, c)
}

// A date or a date-time.
fn put_enddate<E: Encoding>(
    out: &mut [u8],
    o: usize,
    from: bool,
    to: bool,
    s: &[u8],
    at: usize,
) -> usize
    ensures { Put out.old out.new o result
        (or_nothing (write_enddate (format_of to)) (read_enddate (format_of from) (rest E.encoding s.now at))) }
{
    if read_date::<E>(from, s, at).is_some() {
        return put_date::<E>(out, o, from, to, s, at);
    }
    put_date_time::<E>(out, o, from, to, s, at)
}

// What is written of an item of the part at the place `p`, where there is one: it is not read again.
pub fn put_shown<E: Encoding>(
    out: &mut [u8],
    o: usize,
    p: usize,
    from: bool,
    to: bool,
    s: &[u8],
    at: usize,
) -> usize
    ensures { Put out.old out.new o result
        (shown_at (format_of to) (format_of from) (part_of (get_or part_names p [])) (rest E.encoding s.now at)) }
{
    if p == part::FREQ {
        return put_word::<E>(out, o, from, s, at);
    }
    if p == part::UNTIL {
        return put_enddate::<E>(out, o, from, to, s, at);
    }
    if p == part::BYDAY {
        return put_weekdaynum::<E>(out, o, from, to, s, at);
    }
    if p == part::WKST {
        return put_word::<E>(out, o, from, s, at);
    }
    if p < part::KNOWN {
        return put_number::<E>(out, o, false, s, at);
    }
    o
}

// Writes the item of the part at the place `p`, read from one format and written in another.
pub fn put_item<E: Encoding>(
    out: &mut [u8],
    o: usize,
    p: usize,
    from: bool,
    to: bool,
    s: &[u8],
    at: usize,
) -> usize
    ensures { Put out.old out.new o result (or_nothing (write_item (format_of to))
        (read_item (format_of from) (get_or part_names p []) (rest E.encoding s.now at))) }
{
    if !is_item::<E>(p, from, s, at) {
        return o;
    }
    put_shown::<E>(out, o, p, from, to, s, at)
}
