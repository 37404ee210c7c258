// A value of any type as its element. See specs/laws/PutElement.antt.
ghost use Rattle.std.specs.Prelude.{◌≡◌, true};
ghost use Rattle.octets.specs.Ascii.{ascii};
ghost use Rattle.octets.specs.Words.{cut_at};
ghost use Rattle.octets.specs.Reading.{or_nothing};
ghost use Rattle.calendar.specs.Calendar.{ical, RECUR};
ghost use Rattle.sink.specs.Sink.{Put};
ghost use Rattle.source.specs.Source.{rest, cuts};
ghost use Rattle.schema.specs.Numbers.{type_at};
ghost use Rattle.recur.specs.Parts.{part_names};
ghost use Rattle.recur.specs.Noted.{Standing};
ghost use Rattle.values.specs.ReadValue.{read_value};
ghost use Rattle.values.specs.WriteValue.{value_characters};
ghost use Rattle.xml.specs.Escape.{escaped, element_of};
ghost use Rattle.xcal.specs.WriteXml.{value_xml};
ghost use Rattle.write_xml_value.specs.Rules.{named_xml};
ghost use Rattle.write_xml_value.specs.Tags.{type_label};

use crate::period::put_period_element;
use crate::rule::put_parts_xml;
use crate::tag::{put_type_end, put_type_start};
use markup::element;
use recur::rule::read_parts;
use schema::value_type;
use source::{Cut, Cuttable, Encoding, Folded, Plain};
use tags::{put_end_tag, put_start_tag};
use values::{put_value_xml, read_value};

// The rule from the cursor `at` to the end, whose parts stand where `begins` says.
fn put_recur_xml<E: Cuttable>(
    out: &mut [u8],
    o: usize,
    s: &[u8],
    at: usize,
    begins: [Option<usize>; 14],
) -> usize
    requires { Standing E.encoding s.now at begins }
    ensures { Put out.old out.new o result
        (element_of (ascii "recur") (named_xml part_names (cut_at 59 (rest E.encoding s.now at)))) }
{
    let p = put_start_tag(out, o, &element::RECUR);
    let q = put_parts_xml::<E>(out, p, s, at, begins);
    put_end_tag(out, q, &element::RECUR)
}

fn put_recur_element<E: Cuttable>(out: &mut [u8], o: usize, s: &[u8], at: usize) -> usize
    ensures { Put out.old out.new o result
        (or_nothing value_xml (read_value ical RECUR (rest E.encoding s.now at))) }
{
    match read_parts::<E>(s, at) {
        Some(begins) => put_recur_xml::<E>(out, o, s, at, begins),
        None => o,
    }
}

fn put_plain_xml<E: Encoding>(out: &mut [u8], o: usize, t: usize, s: &[u8], at: usize) -> usize
    ensures { Put out.old out.new o result (element_of (type_label t)
        (or_nothing (λ v. escaped (value_characters v)) (read_value ical (type_at t) (rest E.encoding s.now at)))) }
{
    let p = put_type_start(out, o, t);
    let q = put_value_xml::<E>(out, p, t, s, at);
    put_type_end(out, q, t)
}

// A value of a type that has character data: not PERIOD, not RECUR.
fn put_plain_element<E: Encoding>(out: &mut [u8], o: usize, t: usize, s: &[u8], at: usize) -> usize
    requires { (t ≡ 8 → ⊥) × (t ≡ 9 → ⊥) }
    ensures { Put out.old out.new o result
        (or_nothing value_xml (read_value ical (type_at t) (rest E.encoding s.now at))) }
{
    match read_value::<E>(false, t, s, at) {
        Some(_) => put_plain_xml::<E>(out, o, t, s, at),
        None => o,
    }
}

// A rule, in an encoding that can be cut.
fn put_rule_element<E: Encoding>(out: &mut [u8], o: usize, s: &[u8], at: usize) -> usize
    requires { cuts E.encoding ≡ true }
    ensures { Put out.old out.new o result
        (or_nothing value_xml (read_value ical RECUR (rest E.encoding s.now at))) }
{
    match E::cut() {
        Some(Cut::Plain) => put_recur_element::<Plain>(out, o, s, at),
        Some(Cut::Folded) => put_recur_element::<Folded>(out, o, s, at),
        None => o,
    }
}

// The value of the type at the place `t`, from the cursor `at` to the end; nothing where it is none. A rule is written only in an encoding that can be cut.
pub fn put_value_element<E: Encoding>(
    out: &mut [u8],
    o: usize,
    t: usize,
    s: &[u8],
    at: usize,
) -> usize
    requires { t ≡ 9 → cuts E.encoding ≡ true }
    ensures { Put out.old out.new o result
        (or_nothing value_xml (read_value ical (type_at t) (rest E.encoding s.now at))) }
{
    if t == value_type::PERIOD {
        return put_period_element::<E>(out, o, s, at);
    }
    if t == value_type::RECUR {
        return put_rule_element::<E>(out, o, s, at);
    }
    put_plain_element::<E>(out, o, t, s, at)
}
