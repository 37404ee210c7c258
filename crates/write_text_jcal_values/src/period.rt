// PERIOD, an array of two strings. See crate jcal, specs/Values.antt, and specs/Periods.antt.
ghost use Rattle.std.specs.Prelude.{◌≡◌, ◌≤◌, length, Some};
ghost use Rattle.octets.specs.Reading.{or_nothing};
ghost use Rattle.calendar.specs.Calendar.{ical, xcal, Value};
ghost use Rattle.sink.specs.Sink.{Put};
ghost use Rattle.source.specs.Source.{rest};
ghost use Rattle.times.specs.DateTime.{read_date_time, write_date_time};
ghost use Rattle.values.specs.WriteValue.{write_value};
ghost use Rattle.jcal.specs.Values.{read_period};
ghost use Rattle.read_json.specs.TreeAt.{elements_at};
ghost use Rattle.write_text_jcal_values.specs.Elements.{list_at, without, characters_in};
ghost use Rattle.write_text_jcal_values.specs.Periods.{end_text};

use crate::elements::{skip, string_at};
use sink::put_all;
use source::JsonCharacters;
use times::date_time::put_date_time;
use times::duration::{put_duration, read_duration};

// The start: the date-time in the first element from `inside` on.
fn put_start(out: &mut [u8], o: usize, s: &[u8], inside: usize) -> usize
    requires { length s.now ≤ 65535 }
    ensures { Put out.old out.new o result
        (or_nothing (write_date_time ical) (read_date_time xcal (characters_in (elements_at s.now inside)))) }
{
    let c = string_at(s, inside);
    put_date_time::<JsonCharacters>(out, o, true, false, s, c)
}

// The duration, or the end, in the characters from the cursor `c` on.
fn put_end(out: &mut [u8], o: usize, s: &[u8], c: usize) -> usize
    ensures { Put out.old out.new o result (end_text (rest 3 s.now c)) }
{
    match read_duration::<JsonCharacters>(true, s, c) {
        Some(_) => put_duration::<JsonCharacters>(out, o, true, false, s, c),
        None => put_date_time::<JsonCharacters>(out, o, true, false, s, c),
    }
}

// The same in the second element.
fn put_finish(out: &mut [u8], o: usize, s: &[u8], inside: usize) -> usize
    requires { length s.now ≤ 65535 }
    ensures { Put out.old out.new o result
        (end_text (characters_in (without 1 (elements_at s.now inside)))) }
{
    let second = skip(s, inside, 1);
    let c = string_at(s, second);
    put_end(out, o, s, c)
}

// The period whose array's content begins at `inside`.
pub fn put_period(out: &mut [u8], o: usize, s: &[u8], inside: usize) -> usize
    requires { length s.now ≤ 65535 }
    ensures { (v : Value) →
        read_period (list_at s.now inside) ≡ Some v →
        Put out.old out.new o result (write_value v) }
{
    let a = put_start(out, o, s, inside);
    let b = put_all(out, a, b"/");
    put_finish(out, b, s, inside)
}
