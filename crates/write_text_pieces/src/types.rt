// VALUE, where the type of a property's values is not its default. See specs/Typing.antt.
ghost use Rattle.std.specs.Prelude.{◌≤◌, ◌<◌};
ghost use Rattle.sink.specs.Sink.{Put};
ghost use Rattle.schema.specs.Types.{type_name};
ghost use Rattle.schema.specs.Numbers.{type_at};
ghost use Rattle.write_text_pieces.specs.Typing.{value_at};

use schema::value_type;
use sink::put_all;

// The names of the first seven types.
fn put_type_low(out: &mut [u8], o: usize, t: usize) -> usize
    requires { t < 7 }
    ensures { Put out.old out.new o result (type_name (type_at t)) }
{
    match t {
        value_type::BINARY => put_all(out, o, b"BINARY"),
        value_type::BOOLEAN => put_all(out, o, b"BOOLEAN"),
        value_type::CAL_ADDRESS => put_all(out, o, b"CAL-ADDRESS"),
        value_type::DATE => put_all(out, o, b"DATE"),
        value_type::DATE_TIME => put_all(out, o, b"DATE-TIME"),
        value_type::DURATION => put_all(out, o, b"DURATION"),
        _ => put_all(out, o, b"FLOAT"),
    }
}

// The names of the others.
fn put_type_high(out: &mut [u8], o: usize, t: usize) -> usize
    requires { 7 ≤ t }
    ensures { Put out.old out.new o result (type_name (type_at t)) }
{
    match t {
        value_type::INTEGER => put_all(out, o, b"INTEGER"),
        value_type::PERIOD => put_all(out, o, b"PERIOD"),
        value_type::RECUR => put_all(out, o, b"RECUR"),
        value_type::TEXT => put_all(out, o, b"TEXT"),
        value_type::TIME => put_all(out, o, b"TIME"),
        value_type::URI => put_all(out, o, b"URI"),
        value_type::UTC_OFFSET => put_all(out, o, b"UTC-OFFSET"),
        _ => put_all(out, o, b"UNKNOWN"),
    }
}

// The name of the type of the number `t`, in capitals.
fn put_type_name(out: &mut [u8], o: usize, t: usize) -> usize
    ensures { Put out.old out.new o result (type_name (type_at t)) }
{
    if t < value_type::INTEGER {
        return put_type_low(out, o, t);
    }
    put_type_high(out, o, t)
}

// The parameter VALUE, where `t` is not the property's default type.
pub fn put_value_parameter(out: &mut [u8], o: usize, default: usize, t: usize) -> usize
    ensures { Put out.old out.new o result (value_at default t) }
{
    if t == default {
        return o;
    }
    let a = put_all(out, o, b";VALUE=");
    put_type_name(out, a, t)
}
