// An element of character data. See crate xcal, specs/Layout.antt.
ghost use Rattle.std.specs.Prelude.{◌≡◌, [], ◌≤◌, ◌*◌, length, get_or};
ghost use Rattle.octets.specs.Pick.{pick};
ghost use Rattle.octets.specs.Reading.{is_read};
ghost use Rattle.calendar.specs.Calendar.{xcal};
ghost use Rattle.calendar.specs.Refusal.{fine, refuse};
ghost use Rattle.calendar.specs.Refusal as spec;
ghost use Rattle.source.specs.Source.{rest};
ghost use Rattle.schema.specs.Numbers.{type_at};
ghost use Rattle.schema.specs.Sets.{is_word_of, words_at};
ghost use Rattle.recur.specs.Parts.{part_names};
ghost use Rattle.recur.specs.Item.{read_item};
ghost use Rattle.values.specs.ReadValue.{read_value};
ghost use Rattle.xcal.specs.Layout.{leaf};
ghost use Rattle.xml.specs.NodesAt.{nodes_at};
ghost use Rattle.refusals.specs.Fault.{judged_as};
ghost use Rattle.read_xml_value.specs.Leaves.{leaf_by};

use read_xml_nodes::inner_element;
use recur::item::read_item;
use refusals::{Fault, Refusal};
use schema::read_word_of;
use source::XmlCharacters;
use values::read_value;

// The element whose content begins at `inside`: no element stands there, and its characters are judged already.
pub fn leaf(chars: Result<(), Fault>, s: &[u8], inside: usize) -> Result<(), Fault>
    ensures { judged_as result ≡ leaf_by (judged_as chars) (nodes_at s.now inside) }
{
    inner_element(s, inside)?;
    chars
}

// The characters are a value of the type of the number `t`.
fn value_chars(t: usize, s: &[u8], place: usize, inside: usize) -> Result<(), Fault>
    requires { (length s.now ≤ 65535) × (inside ≤ length s.now) }
    ensures { judged_as result
        ≡ pick (is_read (read_value xcal (type_at t) (rest 1 s.now (2 * inside)))) fine (refuse spec.VALUE place) }
{
    match read_value::<XmlCharacters>(true, t, s, 2 * inside) {
        Some(_) => Ok(()),
        None => Err(Refusal::Value.at(place)),
    }
}

// The element whose start tag is at `place` and whose content begins at `inside`: a value of the type of the number `t`.
pub fn leaf_value(t: usize, s: &[u8], place: usize, inside: usize) -> Result<(), Fault>
    requires { (length s.now ≤ 65535) × (inside ≤ length s.now) }
    ensures { judged_as result ≡ leaf (λ l. is_read (read_value xcal (type_at t) l)) place (nodes_at s.now inside) }
{
    leaf(value_chars(t, s, place, inside), s, inside)
}

// The characters are a word of the closed set of a property in a component.
fn word_chars(k: usize, p: usize, s: &[u8], place: usize, inside: usize) -> Result<(), Fault>
    requires { (length s.now ≤ 65535) × (inside ≤ length s.now) }
    ensures { judged_as result
        ≡ pick (is_word_of (words_at k p) (rest 1 s.now (2 * inside))) fine (refuse spec.VALUE place) }
{
    match read_word_of::<XmlCharacters>(k, p, true, s, 2 * inside) {
        Some(_) => Ok(()),
        None => Err(Refusal::Value.at(place)),
    }
}

pub fn leaf_word(k: usize, p: usize, s: &[u8], place: usize, inside: usize) -> Result<(), Fault>
    requires { (length s.now ≤ 65535) × (inside ≤ length s.now) }
    ensures { judged_as result ≡ leaf (λ l. is_word_of (words_at k p) l) place (nodes_at s.now inside) }
{
    leaf(word_chars(k, p, s, place, inside), s, inside)
}

// The characters are an item of the rule part of the number `i`.
fn item_chars(i: usize, s: &[u8], place: usize, inside: usize) -> Result<(), Fault>
    requires { (length s.now ≤ 65535) × (inside ≤ length s.now) }
    ensures { judged_as result
        ≡ pick (is_read (read_item xcal (get_or part_names i []) (rest 1 s.now (2 * inside)))) fine
        (refuse spec.VALUE place) }
{
    match read_item::<XmlCharacters>(i, true, s, 2 * inside) {
        Some(_) => Ok(()),
        None => Err(Refusal::Value.at(place)),
    }
}

pub fn leaf_item(i: usize, s: &[u8], place: usize, inside: usize) -> Result<(), Fault>
    requires { (length s.now ≤ 65535) × (inside ≤ length s.now) }
    ensures { judged_as result
        ≡ leaf (λ l. is_read (read_item xcal (get_or part_names i []) l)) place (nodes_at s.now inside) }
{
    leaf(item_chars(i, s, place, inside), s, inside)
}
