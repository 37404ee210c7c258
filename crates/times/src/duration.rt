// DURATION. See specs/Duration.antt and specs/DurationAt.antt.
ghost use Rattle.std.specs.Prelude.{◌≡◌};
ghost use Rattle.octets.specs.Reading.{or_nothing};
ghost use Rattle.octets.specs.Pick.{◌or◌};
ghost use Rattle.octets.specs.Append.{◌⊕◌};
ghost use Rattle.calendar.specs.Calendar.{format_of};
ghost use Rattle.source.specs.Source.{rest};
ghost use Rattle.sink.specs.Sink.{Put};
ghost use Rattle.times.specs.Letters.{cased};
ghost use Rattle.times.specs.Written.{mark_bytes};
ghost use Rattle.times.specs.Duration.{optional, dur_second, dur_minute, dur_hour, dur_time, dur_date, dur_week, unsigned_duration, read_duration, write_duration};
ghost use Rattle.times.specs.DurationAt.{Runs, span_if, span_of};

use crate::letters::{ended, letter};
use crate::written::put_mark;
use octets::is_digit;
use octets::unit::{
    END, HYPHEN, PLUS, UPPER_D, UPPER_H, UPPER_M, UPPER_P, UPPER_S, UPPER_T, UPPER_W,
};
use sink::put;
use source::{Encoding, Unit};

// Whether it is negative, and the cursor after the sign.
#[derive(Clone, Copy, Debug, PartialEq, Eq)]
pub struct Duration {
    pub negative: bool,
    pub at: usize,
}

// Digits at a cursor: the character after them, and the cursor after that.
fn digits<E: Encoding>(exact: bool, s: &[u8], at: usize) -> Option<Unit>
    ensures { Runs exact E.encoding s.now at result }
{
    let mut any = false;
    let mut c = at;
    loop {
        let a = letter::<E>(exact, s, c);
        if !is_digit(a.u) {
            return if any { Some(a) } else { None };
        }
        any = true;
        c = a.next;
    }
}

fn second<E: Encoding>(exact: bool, s: &[u8], at: usize) -> bool
    ensures { result ≡ dur_second (cased exact (rest E.encoding s.now at)) }
{
    match digits::<E>(exact, s, at) {
        Some(a) => a.u == UPPER_S && ended::<E>(s, a.next),
        None => false,
    }
}

fn no_or_second<E: Encoding>(exact: bool, s: &[u8], at: usize) -> bool
    ensures { result ≡ optional dur_second (cased exact (rest E.encoding s.now at)) }
{
    ended::<E>(s, at) || second::<E>(exact, s, at)
}

fn minute<E: Encoding>(exact: bool, s: &[u8], at: usize) -> bool
    ensures { result ≡ dur_minute (cased exact (rest E.encoding s.now at)) }
{
    match digits::<E>(exact, s, at) {
        Some(a) => a.u == UPPER_M && no_or_second::<E>(exact, s, a.next),
        None => false,
    }
}

fn no_or_minute<E: Encoding>(exact: bool, s: &[u8], at: usize) -> bool
    ensures { result ≡ optional dur_minute (cased exact (rest E.encoding s.now at)) }
{
    ended::<E>(s, at) || minute::<E>(exact, s, at)
}

fn hour<E: Encoding>(exact: bool, s: &[u8], at: usize) -> bool
    ensures { result ≡ dur_hour (cased exact (rest E.encoding s.now at)) }
{
    match digits::<E>(exact, s, at) {
        Some(a) => a.u == UPPER_H && no_or_minute::<E>(exact, s, a.next),
        None => false,
    }
}

fn hours<E: Encoding>(exact: bool, s: &[u8], at: usize) -> bool
    ensures { result
        ≡ (dur_hour (cased exact (rest E.encoding s.now at))
        or dur_minute (cased exact (rest E.encoding s.now at))
        or dur_second (cased exact (rest E.encoding s.now at))) }
{
    hour::<E>(exact, s, at) || minute::<E>(exact, s, at) || second::<E>(exact, s, at)
}

fn after_t<E: Encoding>(exact: bool, s: &[u8], at: usize) -> bool
    ensures { result ≡ dur_time (cased exact (rest E.encoding s.now at)) }
{
    let a = letter::<E>(exact, s, at);
    a.u == UPPER_T && hours::<E>(exact, s, a.next)
}

fn no_or_time<E: Encoding>(exact: bool, s: &[u8], at: usize) -> bool
    ensures { result ≡ optional dur_time (cased exact (rest E.encoding s.now at)) }
{
    ended::<E>(s, at) || after_t::<E>(exact, s, at)
}

fn days<E: Encoding>(exact: bool, s: &[u8], at: usize) -> bool
    ensures { result ≡ dur_date (cased exact (rest E.encoding s.now at)) }
{
    match digits::<E>(exact, s, at) {
        Some(a) => a.u == UPPER_D && no_or_time::<E>(exact, s, a.next),
        None => false,
    }
}

fn weeks<E: Encoding>(exact: bool, s: &[u8], at: usize) -> bool
    ensures { result ≡ dur_week (cased exact (rest E.encoding s.now at)) }
{
    match digits::<E>(exact, s, at) {
        Some(a) => a.u == UPPER_W && ended::<E>(s, a.next),
        None => false,
    }
}

fn after_p<E: Encoding>(exact: bool, s: &[u8], at: usize) -> bool
    ensures { result
        ≡ (dur_date (cased exact (rest E.encoding s.now at))
        or dur_time (cased exact (rest E.encoding s.now at))
        or dur_week (cased exact (rest E.encoding s.now at))) }
{
    days::<E>(exact, s, at) || after_t::<E>(exact, s, at) || weeks::<E>(exact, s, at)
}

fn is_unsigned<E: Encoding>(exact: bool, s: &[u8], at: usize) -> bool
    ensures { result ≡ unsigned_duration (cased exact (rest E.encoding s.now at)) }
{
    let a = letter::<E>(exact, s, at);
    a.u == UPPER_P && after_p::<E>(exact, s, a.next)
}

// A duration whose sign ends at the cursor `at`.
fn span_from<E: Encoding>(negative: bool, exact: bool, s: &[u8], at: usize) -> Option<Duration>
    ensures { result
        ≡ span_if (unsigned_duration (cased exact (rest E.encoding s.now at))) negative at }
{
    if is_unsigned::<E>(exact, s, at) {
        Some(Duration { negative, at })
    } else {
        None
    }
}

pub fn read_duration<E: Encoding>(xcal: bool, s: &[u8], at: usize) -> Option<Duration>
    ensures { read_duration (format_of xcal) (rest E.encoding s.now at) ≡ span_of xcal E.encoding s.now result }
{
    let a = letter::<E>(xcal, s, at);
    if a.u == PLUS {
        return span_from::<E>(false, xcal, s, a.next);
    }
    if a.u == HYPHEN {
        return span_from::<E>(true, xcal, s, a.next);
    }
    span_from::<E>(false, xcal, s, at)
}

// The characters from the cursor `at` to the end.
fn put_letters<E: Encoding>(out: &mut [u8], o: usize, exact: bool, s: &[u8], at: usize) -> usize
    ensures { Put out.old out.new o result (cased exact (rest E.encoding s.now at)) }
{
    let mut p = o;
    let mut c = at;
    loop {
        let a = letter::<E>(exact, s, c);
        if a.u == END {
            return p;
        }
        p = put(out, p, a.u as u8);
        c = a.next;
    }
}

fn put_span<E: Encoding>(
    out: &mut [u8],
    o: usize,
    duration: Duration,
    exact: bool,
    s: &[u8],
) -> usize
    ensures { Put out.old out.new o result
        (mark_bytes duration.negative 45 ⊕ cased exact (rest E.encoding s.now duration.at)) }
{
    let p = put_mark(out, o, duration.negative, b'-');
    put_letters::<E>(out, p, exact, s, duration.at)
}

pub fn put_duration<E: Encoding>(
    out: &mut [u8],
    o: usize,
    from: bool,
    to: bool,
    s: &[u8],
    at: usize,
) -> usize
    ensures { Put out.old out.new o result
        (or_nothing (write_duration (format_of to)) (read_duration (format_of from) (rest E.encoding s.now at))) }
{
    match read_duration::<E>(from, s, at) {
        Some(duration) => put_span::<E>(out, o, duration, from, s),
        None => o,
    }
}
