// PERIOD as an array of two strings. See specs/PutPeriod.antt.
ghost use Rattle.octets.specs.Reading.{or_nothing};
ghost use Rattle.calendar.specs.Calendar.{ical, PERIOD};
ghost use Rattle.sink.specs.Sink.{Put};
ghost use Rattle.source.specs.Source.{rest};
ghost use Rattle.values.specs.ReadValue.{read_value};
ghost use Rattle.jcal.specs.WriteJcal.{value_json};
ghost use Rattle.write_jcal_value.specs.PutPeriod.{start_string, end_string, period_json};

use sink::{put, put_all};
use source::Encoding;
use times::period::{put_period_end, put_period_start, read_period};

// The bracket that opens the array, and the start.
fn put_start_string<E: Encoding>(out: &mut [u8], o: usize, s: &[u8], at: usize) -> usize
    ensures { Put out.old out.new o result (start_string (rest E.encoding s.now at)) }
{
    let p = put_all(out, o, b"[\"");
    let q = put_period_start::<E>(out, p, s, at);
    put(out, q, b'"')
}

// A comma, the end or the duration, and the bracket that closes the array.
fn put_end_string<E: Encoding>(out: &mut [u8], o: usize, s: &[u8], at: usize) -> usize
    ensures { Put out.old out.new o result (end_string (rest E.encoding s.now at)) }
{
    let p = put_all(out, o, b",\"");
    let q = put_period_end::<E>(out, p, s, at);
    put_all(out, q, b"\"]")
}

fn put_both<E: Encoding>(out: &mut [u8], o: usize, s: &[u8], at: usize) -> usize
    ensures { Put out.old out.new o result (period_json (rest E.encoding s.now at)) }
{
    let a = put_start_string::<E>(out, o, s, at);
    put_end_string::<E>(out, a, s, at)
}

// The period from the cursor `at` to the end; nothing where it is none.
pub fn put_period_json<E: Encoding>(out: &mut [u8], o: usize, s: &[u8], at: usize) -> usize
    ensures { Put out.old out.new o result
        (or_nothing value_json (read_value ical PERIOD (rest E.encoding s.now at))) }
{
    match read_period::<E>(s, at) {
        Some(_) => put_both::<E>(out, o, s, at),
        None => o,
    }
}
