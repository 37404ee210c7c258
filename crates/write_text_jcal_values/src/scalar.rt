// Values of one scalar: a string, a number, a literal. See specs/laws/Scalars.antt.
ghost use Rattle.std.specs.Prelude.{◌≡◌, ◌≤◌, length, Some};
ghost use Rattle.calendar.specs.Calendar.{Value, Whole};
ghost use Rattle.sink.specs.Sink.{Put};
ghost use Rattle.schema.specs.Numbers.{type_at};
ghost use Rattle.numbers.specs.Integer.{write_whole};
ghost use Rattle.values.specs.WriteValue.{write_value};
ghost use Rattle.jcal.specs.Integer.{read_number};
ghost use Rattle.jcal.specs.Values.{read_typed};
ghost use Rattle.read_json.specs.TreeAt.{word_at};
ghost use Rattle.read_json.specs.Heads.{value_of_head};
ghost use Rattle.write_text_jcal_values.specs.laws.Elements.{Spans};

use numbers::integer::put_whole;
use read_jcal_value::read_number;
use read_json::Head;
use schema::value_type;
use source::{JsonCharacters, Plain};
use texts::put_binary;
use write_text_pieces::put_leaf;

// The INTEGER that the number from `place` to `next` resolves to.
fn put_number(out: &mut [u8], o: usize, s: &[u8], place: usize, next: usize) -> usize
    requires { (place ≤ next) × (next ≤ length s.now) }
    ensures { (w : Whole) →
        read_number (word_at s.now place next) ≡ Some w →
        Put out.old out.new o result (write_whole w) }
{
    let Some(number) = read_number(&s[..next], place) else {
        return o;
    };
    put_whole(out, o, number.negative, number.magnitude)
}

// A value of the type of the number `t`, which is neither PERIOD nor RECUR.
pub fn put_scalar(out: &mut [u8], o: usize, t: usize, s: &[u8], h: Head) -> usize
    requires { (length s.now ≤ 65535) × Spans s.now h × (t ≤ 14) }
    ensures { (t ≡ 8 → ⊥) →
        (t ≡ 9 → ⊥) →
        (v : Value) →
        read_typed (type_at t) (value_of_head s.now h) ≡ Some v →
        Put out.old out.new o result (write_value v) }
{
    if t == value_type::BINARY {
        return put_binary::<JsonCharacters>(out, o, false, s, 2 * (h.place + 1));
    }
    if t == value_type::BOOLEAN {
        return put_leaf::<Plain>(out, o, t, &s[..h.next], h.place);
    }
    if t == value_type::FLOAT {
        return put_leaf::<Plain>(out, o, t, &s[..h.next], h.place);
    }
    if t == value_type::INTEGER {
        return put_number(out, o, s, h.place, h.next);
    }
    put_leaf::<JsonCharacters>(out, o, t, s, 2 * (h.place + 1))
}
