// Names of a rule's parts and of types, by number, as JSON strings. See specs/Labels.antt.
ghost use Rattle.std.specs.Prelude.{◌≤◌, ◌<◌};
ghost use Rattle.sink.specs.Sink.{Put};
ghost use Rattle.write_jcal_value.specs.Labels.{part_label, type_label};

use recur::part;
use schema::value_type;
use sink::put_all;

// The names of the first seven parts.
fn put_part_low(out: &mut [u8], o: usize, p: usize) -> usize
    requires { p < 7 }
    ensures { Put out.old out.new o result (part_label p) }
{
    match p {
        part::FREQ => put_all(out, o, b"\"freq\":"),
        part::UNTIL => put_all(out, o, b"\"until\":"),
        part::COUNT => put_all(out, o, b"\"count\":"),
        part::INTERVAL => put_all(out, o, b"\"interval\":"),
        part::BYSECOND => put_all(out, o, b"\"bysecond\":"),
        part::BYMINUTE => put_all(out, o, b"\"byminute\":"),
        _ => put_all(out, o, b"\"byhour\":"),
    }
}

// The names of the others; none for a number that is no part's.
fn put_part_high(out: &mut [u8], o: usize, p: usize) -> usize
    requires { 7 ≤ p }
    ensures { Put out.old out.new o result (part_label p) }
{
    match p {
        part::BYDAY => put_all(out, o, b"\"byday\":"),
        part::BYMONTHDAY => put_all(out, o, b"\"bymonthday\":"),
        part::BYYEARDAY => put_all(out, o, b"\"byyearday\":"),
        part::BYWEEKNO => put_all(out, o, b"\"byweekno\":"),
        part::BYMONTH => put_all(out, o, b"\"bymonth\":"),
        part::BYSETPOS => put_all(out, o, b"\"bysetpos\":"),
        part::WKST => put_all(out, o, b"\"wkst\":"),
        _ => put_all(out, o, b"\"\":"),
    }
}

// The name of the part of the number `p`, in small letters, and a colon.
pub fn put_part_label(out: &mut [u8], o: usize, p: usize) -> usize
    ensures { Put out.old out.new o result (part_label p) }
{
    if p < part::BYDAY {
        return put_part_low(out, o, p);
    }
    put_part_high(out, o, p)
}

// The names of the first seven types.
fn put_label_low(out: &mut [u8], o: usize, t: usize) -> usize
    requires { t < 7 }
    ensures { Put out.old out.new o result (type_label t) }
{
    match t {
        value_type::BINARY => put_all(out, o, b"\"binary\""),
        value_type::BOOLEAN => put_all(out, o, b"\"boolean\""),
        value_type::CAL_ADDRESS => put_all(out, o, b"\"cal-address\""),
        value_type::DATE => put_all(out, o, b"\"date\""),
        value_type::DATE_TIME => put_all(out, o, b"\"date-time\""),
        value_type::DURATION => put_all(out, o, b"\"duration\""),
        _ => put_all(out, o, b"\"float\""),
    }
}

// The names of the others.
fn put_label_high(out: &mut [u8], o: usize, t: usize) -> usize
    requires { 7 ≤ t }
    ensures { Put out.old out.new o result (type_label t) }
{
    match t {
        value_type::INTEGER => put_all(out, o, b"\"integer\""),
        value_type::PERIOD => put_all(out, o, b"\"period\""),
        value_type::RECUR => put_all(out, o, b"\"recur\""),
        value_type::TEXT => put_all(out, o, b"\"text\""),
        value_type::TIME => put_all(out, o, b"\"time\""),
        value_type::URI => put_all(out, o, b"\"uri\""),
        value_type::UTC_OFFSET => put_all(out, o, b"\"utc-offset\""),
        _ => put_all(out, o, b"\"unknown\""),
    }
}

// The name of the type of the number `t`, in small letters.
pub fn put_type_label(out: &mut [u8], o: usize, t: usize) -> usize
    ensures { Put out.old out.new o result (type_label t) }
{
    if t < value_type::INTEGER {
        return put_label_low(out, o, t);
    }
    put_label_high(out, o, t)
}
