// A value of any type. See crate jcal, specs/Values.antt.
ghost use Rattle.std.specs.Prelude.{◌≡◌, ◌≤◌, length, Some};
ghost use Rattle.calendar.specs.Calendar.{Value};
ghost use Rattle.sink.specs.Sink.{Put};
ghost use Rattle.schema.specs.Numbers.{type_at};
ghost use Rattle.values.specs.WriteValue.{write_value};
ghost use Rattle.jcal.specs.Values.{read_typed};
ghost use Rattle.read_json.specs.Heads.{value_of_head};
ghost use Rattle.write_text_jcal_values.specs.laws.Elements.{Spans};

use crate::period::put_period;
use crate::rule::put_rule;
use crate::scalar::put_scalar;
use read_json::Head;
use schema::value_type;

// The value of the type of the number `t` that the element `h` states, where it states one.
pub fn put_typed(out: &mut [u8], o: usize, t: usize, s: &[u8], h: Head) -> usize
    requires { (length s.now ≤ 65535) × Spans s.now h × (t ≤ 14) }
    ensures { (v : Value) →
        read_typed (type_at t) (value_of_head s.now h) ≡ Some v →
        Put out.old out.new o result (write_value v) }
{
    if t == value_type::PERIOD {
        return put_period(out, o, s, h.next);
    }
    if t == value_type::RECUR {
        return put_rule(out, o, s, h.next);
    }
    put_scalar(out, o, t, s, h)
}
