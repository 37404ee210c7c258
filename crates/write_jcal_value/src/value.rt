// A value of any type as JSON. See specs/Scalars.antt and specs/laws/PutValue.antt.
ghost use Rattle.std.specs.Prelude.{◌≡◌, true};
ghost use Rattle.octets.specs.Words.{cut_at};
ghost use Rattle.octets.specs.Reading.{or_nothing};
ghost use Rattle.calendar.specs.Calendar.{ical, RECUR};
ghost use Rattle.sink.specs.Sink.{Put};
ghost use Rattle.source.specs.Source.{rest, cuts};
ghost use Rattle.schema.specs.Numbers.{type_at};
ghost use Rattle.recur.specs.Parts.{part_names};
ghost use Rattle.recur.specs.Noted.{Standing};
ghost use Rattle.values.specs.ReadValue.{read_value};
ghost use Rattle.values.specs.WriteValue.{value_characters};
ghost use Rattle.json_text.specs.Write.{escaped, object_of};
ghost use Rattle.jcal.specs.WriteJcal.{value_json};
ghost use Rattle.write_jcal_value.specs.Rules.{plain_json, named_shown};
ghost use Rattle.write_jcal_value.specs.Scalars.{stands_bare};

use crate::characters::put_characters;
use crate::period::put_period_json;
use crate::rule::put_parts_json;
use recur::rule::read_parts;
use schema::value_type;
use sink::put;
use source::{Cut, Cuttable, Encoding, Folded, Plain};
use values::read_value;

// The rule from the cursor `at` to the end, whose parts stand where `begins` says.
fn put_rule_json<E: Cuttable>(
    out: &mut [u8],
    o: usize,
    s: &[u8],
    at: usize,
    begins: [Option<usize>; 14],
) -> usize
    requires { Standing E.encoding s.now at begins }
    ensures { Put out.old out.new o result
        (object_of (named_shown part_names (cut_at 59 (rest E.encoding s.now at)))) }
{
    let p = put(out, o, b'{');
    let q = put_parts_json::<E>(out, p, s, at, begins);
    put(out, q, b'}')
}

fn put_recur_json<E: Cuttable>(out: &mut [u8], o: usize, s: &[u8], at: usize) -> usize
    ensures { Put out.old out.new o result
        (or_nothing value_json (read_value ical RECUR (rest E.encoding s.now at))) }
{
    match read_parts::<E>(s, at) {
        Some(begins) => put_rule_json::<E>(out, o, s, at, begins),
        None => o,
    }
}

// A type whose values stand with no quotation marks: BOOLEAN, FLOAT, INTEGER.
fn stands_bare(t: usize) -> bool
    ensures { result ≡ stands_bare t }
{
    if t == value_type::BOOLEAN {
        return true;
    }
    if t == value_type::FLOAT {
        return true;
    }
    t == value_type::INTEGER
}

// The characters of a value, as they stand or as a string.
fn put_scalar<E: Encoding>(out: &mut [u8], o: usize, t: usize, s: &[u8], at: usize) -> usize
    ensures { Put out.old out.new o result (plain_json (stands_bare t)
        (or_nothing (λ v. escaped (value_characters v)) (read_value ical (type_at t) (rest E.encoding s.now at)))) }
{
    let bare = stands_bare(t);
    if bare {
        return put_characters::<E>(out, o, t, s, at);
    }
    let a = put(out, o, b'"');
    let b = put_characters::<E>(out, a, t, s, at);
    put(out, b, b'"')
}

// A value of a type that has characters: not PERIOD, not RECUR.
fn put_plain_json<E: Encoding>(out: &mut [u8], o: usize, t: usize, s: &[u8], at: usize) -> usize
    requires { (t ≡ 8 → ⊥) × (t ≡ 9 → ⊥) }
    ensures { Put out.old out.new o result
        (or_nothing value_json (read_value ical (type_at t) (rest E.encoding s.now at))) }
{
    match read_value::<E>(false, t, s, at) {
        Some(_) => put_scalar::<E>(out, o, t, s, at),
        None => o,
    }
}

// A rule, in an encoding that can be cut.
fn put_cut_rule_json<E: Encoding>(out: &mut [u8], o: usize, s: &[u8], at: usize) -> usize
    requires { cuts E.encoding ≡ true }
    ensures { Put out.old out.new o result
        (or_nothing value_json (read_value ical RECUR (rest E.encoding s.now at))) }
{
    match E::cut() {
        Some(Cut::Plain) => put_recur_json::<Plain>(out, o, s, at),
        Some(Cut::Folded) => put_recur_json::<Folded>(out, o, s, at),
        None => o,
    }
}

// The value of the type at the place `t`, from the cursor `at` to the end; nothing where it is none. A rule is written only in an encoding that can be cut.
pub fn put_value_json<E: Encoding>(out: &mut [u8], o: usize, t: usize, s: &[u8], at: usize) -> usize
    requires { t ≡ 9 → cuts E.encoding ≡ true }
    ensures { Put out.old out.new o result
        (or_nothing value_json (read_value ical (type_at t) (rest E.encoding s.now at))) }
{
    if t == value_type::PERIOD {
        return put_period_json::<E>(out, o, s, at);
    }
    if t == value_type::RECUR {
        return put_cut_rule_json::<E>(out, o, s, at);
    }
    put_plain_json::<E>(out, o, t, s, at)
}
