// A list of values in text, written with commas between them. See specs/Pieces.antt.
ghost use Rattle.std.specs.Prelude.{◌≡◌, true, ◌≤◌, length, take};
ghost use Rattle.octets.specs.Words.{cut_at};
ghost use Rattle.octets.specs.Reading.{or_nothing};
ghost use Rattle.calendar.specs.Calendar.{ical};
ghost use Rattle.sink.specs.Sink.{Put};
ghost use Rattle.source.specs.Source.{rest, Within};
ghost use Rattle.schema.specs.Numbers.{type_at};
ghost use Rattle.values.specs.ReadValue.{read_value};
ghost use Rattle.jcal.specs.WriteJcal.{value_json};
ghost use Rattle.write_jcal_property.specs.Pieces.{pieces_json, listed_json, status_json};

use octets::unit::{COMMA, END, SEMICOLON};
use recur::rule::byte_end;
use schema::value_type;
use sink::put;
use source::{Cuttable, Encoding, unit};
use write_jcal_value::{put_texts, put_value_json};

// The value of the type `t` from the cursor `at` to the cursor `e`.
fn put_piece<E: Cuttable>(
    out: &mut [u8],
    o: usize,
    t: usize,
    s: &[u8],
    at: usize,
    e: usize,
) -> usize
    requires { e ≤ length s.now }
    ensures { Put out.old out.new o result
        (or_nothing value_json (read_value ical (type_at t) (rest E.encoding (take e s.now) at))) }
{
    put_value_json::<E>(out, o, t, &s[..e], at)
}

// The values between commas.
fn put_pieces<E: Cuttable>(out: &mut [u8], at: usize, t: usize, s: &[u8], from: usize) -> usize
    requires { Within E.encoding s.now from }
    ensures { Put out.old out.new at result
        (pieces_json (type_at t) (cut_at 44 (rest E.encoding s.now from))) }
{
    let mut o = at;
    let mut c = from;
    loop {
        let e = byte_end::<E>(COMMA, s, c);
        let a = put_piece::<E>(out, o, t, s, c, e);
        let n = unit::<E>(s, e);
        let u = n.u;
        if u == END {
            return a;
        }
        o = put(out, a, b',');
        c = n.next;
    }
}

// A list of values of the type `t`; where it is one of TEXT and against the grammar, nothing.
pub fn put_list<E: Cuttable>(out: &mut [u8], o: usize, t: usize, s: &[u8], at: usize) -> usize
    ensures { Put out.old out.new o result (listed_json t (rest E.encoding s.now at)) }
{
    if t == value_type::TEXT {
        return put_texts::<E>(out, o, COMMA, s, at);
    }
    if s.len() < at {
        return put_pieces::<E>(out, o, t, s, s.len());
    }
    put_pieces::<E>(out, o, t, s, at)
}

// The parts of a REQUEST-STATUS as an array.
pub fn put_status<E: Encoding>(out: &mut [u8], o: usize, s: &[u8], at: usize) -> usize
    ensures { Put out.old out.new o result (status_json (rest E.encoding s.now at)) }
{
    let a = put(out, o, b'[');
    let b = put_texts::<E>(out, a, SEMICOLON, s, at);
    put(out, b, b']')
}
