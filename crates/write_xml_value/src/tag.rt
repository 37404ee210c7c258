// Tags of a rule's parts and of types, by number. See specs/Tags.antt.
ghost use Rattle.std.specs.Prelude.{[], ◌≤◌, ◌<◌, get_or};
ghost use Rattle.octets.specs.Class.{lower};
ghost use Rattle.sink.specs.Sink.{Put};
ghost use Rattle.xml.specs.Escape.{start_tag, end_tag};
ghost use Rattle.recur.specs.Parts.{part_names};
ghost use Rattle.write_xml_value.specs.Tags.{type_label};

use recur::part;
use schema::value_type;
use sink::put_all;

// The names of the first seven parts.
fn put_part_low(out: &mut [u8], o: usize, p: usize) -> usize
    requires { p < 7 }
    ensures { Put out.old out.new o result (lower (get_or part_names p [])) }
{
    match p {
        part::FREQ => put_all(out, o, b"freq"),
        part::UNTIL => put_all(out, o, b"until"),
        part::COUNT => put_all(out, o, b"count"),
        part::INTERVAL => put_all(out, o, b"interval"),
        part::BYSECOND => put_all(out, o, b"bysecond"),
        part::BYMINUTE => put_all(out, o, b"byminute"),
        _ => put_all(out, o, b"byhour"),
    }
}

// The names of the others; none for a number that is no part's.
fn put_part_high(out: &mut [u8], o: usize, p: usize) -> usize
    requires { 7 ≤ p }
    ensures { Put out.old out.new o result (lower (get_or part_names p [])) }
{
    match p {
        part::BYDAY => put_all(out, o, b"byday"),
        part::BYMONTHDAY => put_all(out, o, b"bymonthday"),
        part::BYYEARDAY => put_all(out, o, b"byyearday"),
        part::BYWEEKNO => put_all(out, o, b"byweekno"),
        part::BYMONTH => put_all(out, o, b"bymonth"),
        part::BYSETPOS => put_all(out, o, b"bysetpos"),
        part::WKST => put_all(out, o, b"wkst"),
        _ => put_all(out, o, b""),
    }
}

// The name of the part of the number `p`, in small letters.
fn put_part_name(out: &mut [u8], o: usize, p: usize) -> usize
    ensures { Put out.old out.new o result (lower (get_or part_names p [])) }
{
    if p < part::BYDAY {
        return put_part_low(out, o, p);
    }
    put_part_high(out, o, p)
}

// The names of the first seven types.
fn put_label_low(out: &mut [u8], o: usize, t: usize) -> usize
    requires { t < 7 }
    ensures { Put out.old out.new o result (type_label t) }
{
    match t {
        value_type::BINARY => put_all(out, o, b"binary"),
        value_type::BOOLEAN => put_all(out, o, b"boolean"),
        value_type::CAL_ADDRESS => put_all(out, o, b"cal-address"),
        value_type::DATE => put_all(out, o, b"date"),
        value_type::DATE_TIME => put_all(out, o, b"date-time"),
        value_type::DURATION => put_all(out, o, b"duration"),
        _ => put_all(out, o, b"float"),
    }
}

// The names of the others.
fn put_label_high(out: &mut [u8], o: usize, t: usize) -> usize
    requires { 7 ≤ t }
    ensures { Put out.old out.new o result (type_label t) }
{
    match t {
        value_type::INTEGER => put_all(out, o, b"integer"),
        value_type::PERIOD => put_all(out, o, b"period"),
        value_type::RECUR => put_all(out, o, b"recur"),
        value_type::TEXT => put_all(out, o, b"text"),
        value_type::TIME => put_all(out, o, b"time"),
        value_type::URI => put_all(out, o, b"uri"),
        value_type::UTC_OFFSET => put_all(out, o, b"utc-offset"),
        _ => put_all(out, o, b"unknown"),
    }
}

// The name of the type of the number `t`, in small letters.
fn put_type_label(out: &mut [u8], o: usize, t: usize) -> usize
    ensures { Put out.old out.new o result (type_label t) }
{
    if t < value_type::INTEGER {
        return put_label_low(out, o, t);
    }
    put_label_high(out, o, t)
}

pub fn put_part_start(out: &mut [u8], o: usize, p: usize) -> usize
    ensures { Put out.old out.new o result (start_tag (lower (get_or part_names p []))) }
{
    let a = put_all(out, o, b"<");
    let b = put_part_name(out, a, p);
    put_all(out, b, b">")
}

pub fn put_part_end(out: &mut [u8], o: usize, p: usize) -> usize
    ensures { Put out.old out.new o result (end_tag (lower (get_or part_names p []))) }
{
    let a = put_all(out, o, b"</");
    let b = put_part_name(out, a, p);
    put_all(out, b, b">")
}

pub fn put_type_start(out: &mut [u8], o: usize, t: usize) -> usize
    ensures { Put out.old out.new o result (start_tag (type_label t)) }
{
    let a = put_all(out, o, b"<");
    let b = put_type_label(out, a, t);
    put_all(out, b, b">")
}

pub fn put_type_end(out: &mut [u8], o: usize, t: usize) -> usize
    ensures { Put out.old out.new o result (end_tag (type_label t)) }
{
    let a = put_all(out, o, b"</");
    let b = put_type_label(out, a, t);
    put_all(out, b, b">")
}
