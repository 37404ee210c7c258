// PERIOD, which is made of elements. See specs/Periods.antt.
ghost use Rattle.std.specs.Prelude.{◌≤◌, length};
ghost use Rattle.octets.specs.Ascii.{ascii};
ghost use Rattle.sink.specs.Sink.{Put};
ghost use Rattle.values.specs.WriteValue.{write_value};
ghost use Rattle.xcal.specs.ValueNodes.{child_named, moment_of, period_of};
ghost use Rattle.xml.specs.NodesAt.{nodes_at};
ghost use Rattle.write_text_values.specs.Periods.{end_of};

use crate::child::{child_inside, find_child};
use markup::element;
use sink::put_all;
use source::XmlCharacters;
use times::date_time::put_date_time;
use times::duration::put_duration;

// The date-time in the child of a name.
fn put_moment(out: &mut [u8], o: usize, s: &[u8], inside: usize, name: &[u8]) -> usize
    requires { length s.now ≤ 65535 }
    ensures { Put out.old out.new o result
        (moment_of name.now (nodes_at s.now inside)) }
{
    let i = child_inside(s, inside, name);
    put_date_time::<XmlCharacters>(out, o, true, false, s, 2 * i)
}

// The duration, or the end.
fn put_end(out: &mut [u8], o: usize, s: &[u8], inside: usize) -> usize
    requires { length s.now ≤ 65535 }
    ensures { Put out.old out.new o result
        (end_of (child_named (ascii "duration") (nodes_at s.now inside)) (nodes_at s.now inside)) }
{
    match find_child(s, inside, &element::DURATION) {
        Some(i) => put_duration::<XmlCharacters>(out, o, true, false, s, 2 * i),
        None => put_moment(out, o, s, inside, &element::END),
    }
}

pub fn put_period(out: &mut [u8], o: usize, s: &[u8], inside: usize) -> usize
    requires { length s.now ≤ 65535 }
    ensures { Put out.old out.new o result (write_value (period_of
        (child_named (ascii "duration") (nodes_at s.now inside))
        (nodes_at s.now inside))) }
{
    let a = put_moment(out, o, s, inside, &element::START);
    let b = put_all(out, a, b"/");
    put_end(out, b, s, inside)
}
