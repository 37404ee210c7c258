// The values of a property: all that stand behind its type. See specs/Property.antt.
ghost use Rattle.std.specs.Prelude.{◌≡◌, List, [], ◌∷◌, map, ℕ, ◌≤◌, length, Some};
ghost use Rattle.octets.specs.Pick.{pick};
ghost use Rattle.octets.specs.Append.{◌⊕◌};
ghost use Rattle.octets.specs.Words.{joined_by};
ghost use Rattle.octets.specs.Reading.{read_each};
ghost use Rattle.calendar.specs.Calendar.{Value};
ghost use Rattle.sink.specs.Sink.{Put};
ghost use Rattle.schema.specs.Numbers.{type_at};
ghost use Rattle.values.specs.WriteValue.{write_value, write_values, type_of_all};
ghost use Rattle.read_json.specs.Heads.{value_of_head};
ghost use Rattle.write_text_jcal_values.specs.Elements.{list_at};
ghost use Rattle.write_text_jcal_values.specs.Property.{one_at, written_at, ReadAs, stated_as};
ghost use Rattle.write_text_jcal_values.specs.laws.Elements.{Spans};

use crate::own::{put_geo, put_status};
use crate::typed::put_typed;
use read_json::kinds::is_there;
use read_json::{Head, element_at, element_next};
use schema::{Context, has_words, property, value_type};
use write_text_pieces::put_between;

// A value of the property of the number `p`, of the type of the number `t`.
fn put_value(out: &mut [u8], o: usize, p: usize, t: usize, s: &[u8], h: Head) -> usize
    requires { (length s.now ≤ 65535) × Spans s.now h × (t ≤ 14) }
    ensures { (v : Value) →
        one_at p t (value_of_head s.now h) ≡ Some v →
        Put out.old out.new o result (write_value v) }
{
    if p == property::GEO {
        return put_geo(out, o, s, h.next);
    }
    if p == property::REQUEST_STATUS {
        return put_status(out, o, s, h.next);
    }
    put_typed(out, o, t, s, h)
}

// The same, behind a comma where it is not the first.
fn put_one_value(
    out: &mut [u8],
    o: usize,
    started: bool,
    p: usize,
    t: usize,
    s: &[u8],
    h: Head,
) -> usize
    requires { (length s.now ≤ 65535) × Spans s.now h × (t ≤ 14) }
    ensures { (v : Value) →
        one_at p t (value_of_head s.now h) ≡ Some v →
        Put out.old out.new o result (pick started (44 ∷ []) [] ⊕ write_value v) }
{
    let a = put_between(out, o, started, b',');
    put_value(out, a, p, t, s, h)
}

// All of them, from `from` on.
fn put_each(out: &mut [u8], o: usize, p: usize, t: usize, s: &[u8], from: usize) -> usize
    requires { (length s.now ≤ 65535) × (t ≤ 14) }
    ensures { (vs : List Value) →
        read_each (one_at p t) (list_at s.now from) ≡ Some vs →
        Put out.old out.new o result (joined_by 44 (map write_value vs)) }
{
    let mut q = o;
    let mut at = from;
    let mut started = false;
    loop {
        let h = element_at(s, at);
        let kind = h.kind;
        let there = is_there(kind);
        if there {
            q = put_one_value(out, q, started, p, t, s, h);
            started = true;
            at = element_next(s, h);
        } else {
            return q;
        }
    }
}

// The number of the type that values have that are stated there.
fn written_type(context: Context) -> usize
    requires { context.value_type ≤ 14 }
    ensures { (result ≡ written_at context.component context.row.number context.value_type) × (result ≤ 14) }
{
    let p = context.row.number;
    if p == property::GEO {
        return value_type::FLOAT;
    }
    if p == property::REQUEST_STATUS {
        return value_type::TEXT;
    }
    let words = has_words(context.component, p);
    if words {
        return value_type::TEXT;
    }
    context.value_type
}

// The values from `from` on, as iCalendar text, where `read` says that they can be read.
pub fn put_values(
    out: &mut [u8],
    o: usize,
    context: Context,
    read: bool,
    s: &[u8],
    from: usize,
) -> usize
    requires { (length s.now ≤ 65535) × (context.value_type ≤ 14) }
    ensures { (c w : List ℕ) →
        ReadAs context c w (list_at s.now from) read →
        Put out.old out.new o result
        (write_values (stated_as context c w (list_at s.now from))) }
{
    let t = written_type(context);
    if read {
        return put_each(out, o, context.row.number, t, s, from);
    }
    o
}

// The number of their type, UNKNOWN where there is none.
pub fn type_of_values(context: Context, read: bool, s: &[u8], from: usize) -> usize
    requires { context.value_type ≤ 14 }
    ensures { (c w : List ℕ) →
        ReadAs context c w (list_at s.now from) read →
        (type_at result ≡ type_of_all (stated_as context c w (list_at s.now from))) × (result ≤ 14) }
{
    let t = written_type(context);
    let h = element_at(s, from);
    let kind = h.kind;
    let there = is_there(kind);
    if read {
        if there {
            return t;
        }
    }
    value_type::UNKNOWN
}
