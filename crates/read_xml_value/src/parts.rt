// The children of PERIOD and RECUR, by the numbers of their names. `rule` is true for RECUR. See specs/Parts.antt.
ghost use Rattle.std.specs.Prelude.{◌≡◌, ◌≤◌, eqb, length, take, not};
ghost use Rattle.octets.specs.Pick.{pick, ◌or◌};
ghost use Rattle.calendar.specs.Refusal.{fine, refuse};
ghost use Rattle.calendar.specs.Refusal as spec;
ghost use Rattle.source.specs.Source.{rest};
ghost use Rattle.names.specs.Table.{place_of};
ghost use Rattle.xml.specs.NodesAt.{nodes_at};
ghost use Rattle.refusals.specs.Fault.{judged_as};
ghost use Rattle.read_xml_value.specs.Sequencing.{is_short};
ghost use Rattle.read_xml_value.specs.Parts.{period_names, names_of, count_of, slot_number, after_at};
ghost use Rattle.read_xml_value.specs.PartContents.{inside_at, flags_of};

use crate::leaves::{leaf_item, leaf_value};
use markup::{element, table};
use names::{find_word, is_word};
use octets::is_within;
use recur::part;
use refusals::{Fault, Refusal};
use schema::value_type;
use source::Plain;

// The number of the name of a child of PERIOD, from the cursor on.
fn period_word(s: &[u8], at: usize) -> usize
    ensures { result ≡ place_of (rest 0 s.now at) period_names }
{
    if is_word::<Plain>(s, at, &element::START) {
        0
    } else if is_word::<Plain>(s, at, &element::END) {
        1
    } else if is_word::<Plain>(s, at, &element::DURATION) {
        2
    } else {
        3
    }
}

// The same of PERIOD or RECUR.
fn part_word(rule: bool, s: &[u8], at: usize) -> usize
    ensures { result ≡ place_of (rest 0 s.now at) (names_of rule) }
{
    if rule {
        find_word::<Plain>(true, s, at, &table::PARTS)
    } else {
        period_word(s, at)
    }
}

// The same of the name from `name` to `name_end`.
pub fn part_place(rule: bool, s: &[u8], name: usize, name_end: usize) -> usize
    ensures { result ≡ place_of (rest 0 (take name_end s.now) name) (names_of rule) }
{
    if name_end <= s.len() {
        part_word(rule, &s[..name_end], name)
    } else {
        part_word(rule, s, name)
    }
}

// The slot of the child of the number `i`.
fn slot_number(i: usize) -> usize
    ensures { (result ≡ slot_number i) × (result ≤ i) }
{
    if i < 2 { i } else { i - 1 }
}

// How many names there are.
fn part_count(rule: bool) -> usize
    ensures { result ≡ count_of rule }
{
    if rule { part::KNOWN } else { 3 }
}

// The slot after the child of the number `i`, where slots before `next` have passed. The BY parts of a rule may stand several times.
pub fn part_after(rule: bool, i: usize, next: usize) -> Option<usize>
    ensures { result ≡ after_at rule i next }
{
    if i < part_count(rule) {
        let k = slot_number(i);
        if k < next {
            None
        } else if is_within(part::BYSECOND, part::BYSETPOS, i) {
            Some(k)
        } else {
            Some(k + 1)
        }
    } else {
        None
    }
}

// What stands in the child of the number `i`: an item of a rule part, or a DURATION or DATE-TIME.
pub fn part_inside(rule: bool, i: usize, s: &[u8], place: usize, inside: usize) -> Result<(), Fault>
    requires { (length s.now ≤ 65535) × (inside ≤ length s.now) }
    ensures { judged_as result ≡ inside_at rule i place (nodes_at s.now inside) }
{
    if rule {
        leaf_item(i, s, place, inside)
    } else if i == 2 {
        leaf_value(value_type::DURATION, s, place, inside)
    } else {
        leaf_value(value_type::DATE_TIME, s, place, inside)
    }
}

// The first slot is filled, with the child of the number `i`.
#[tactic(auto, using(octets::specs::laws::Pick::branching_joined))]
pub fn fills_first(i: usize, first: bool) -> bool
    ensures { result ≡ (eqb i 0 or first) }
{
    i == 0 || first
}

// The same of the second slot of PERIOD.
#[tactic(auto, using(octets::specs::laws::Pick::branching_joined))]
pub fn fills_second(i: usize, second: bool) -> bool
    ensures { result ≡ (eqb i 1 or eqb i 2 or second) }
{
    i == 1 || i == 2 || second
}

// The slots that must be filled are.
fn is_filled(rule: bool, first: bool, second: bool) -> bool
    ensures { is_short (flags_of rule first second) ≡ not result }
{
    first && (rule || second)
}

// At the end tag at `e`, by the slots that are filled.
pub fn at_end(rule: bool, first: bool, second: bool, e: usize) -> Result<(), Fault>
    ensures { judged_as result ≡ pick (is_short (flags_of rule first second)) (refuse spec.FRAME e) fine }
{
    if is_filled(rule, first, second) {
        Ok(())
    } else {
        Err(Refusal::Frame.at(e))
    }
}
