// The items of a part of a rule, by the part's number. See specs/Items.antt.
ghost use Rattle.std.specs.Prelude.{◌≡◌, [], ◌≤◌, ◌<◌, length, get_or};
ghost use Rattle.octets.specs.Lists.{every};
ghost use Rattle.octets.specs.Reading.{and_then, is_read};
ghost use Rattle.calendar.specs.Calendar.{xcal};
ghost use Rattle.recur.specs.Parts.{part_names, part_of, is_listed};
ghost use Rattle.recur.specs.Item.{read_item};
ghost use Rattle.json_text.specs.Tree.{first_of, element_list};
ghost use Rattle.read_json.specs.TreeAt.{elements_at, string_at, word_at};
ghost use Rattle.read_json.specs.Heads.{value_of_head};
ghost use Rattle.read_jcal_value.specs.Elements.{Stands, string_of, number_of};
ghost use Rattle.read_jcal_value.specs.Items.{is_numbered, item_in, amounts, items_in, part_in, part_place};

use crate::elements::is_end;
use markup::table;
use names::find_word;
use read_json::kinds::{is_array, is_number, is_string, is_there};
use read_json::{Head, element_at, element_next};
use recur::item::read_item;
use recur::part;
use recur::rule::is_list_part;
use source::{JsonCharacters, Plain};

const NUMBERED: [u8; 14] = [0, 0, 1, 1, 1, 1, 1, 0, 1, 1, 1, 1, 1, 0];

// The number of the part whose name, in small letters, is the string at `p`; part::KNOWN where no part has that name.
pub fn part_at(s: &[u8], p: usize) -> usize
    requires { p < length s.now }
    ensures { result ≡ part_place (string_at s.now p) }
{
    find_word::<JsonCharacters>(true, s, 2 * (p + 1), &table::PARTS)
}

// Items of the part are numbers.
fn is_number_part(i: usize) -> bool
    ensures { result ≡ is_numbered (part_of (get_or part_names i [])) }
{
    i < part::KNOWN && NUMBERED[i] == 1
}

// The string at `p` is an item.
fn is_string_item(i: usize, s: &[u8], p: usize) -> bool
    requires { p < length s.now }
    ensures { result ≡ is_read (read_item xcal (get_or part_names i []) (string_at s.now p)) }
{
    read_item::<JsonCharacters>(i, true, s, 2 * (p + 1)).is_some()
}

// The number from `p` to `n` is an item.
fn is_number_item(i: usize, s: &[u8], p: usize, n: usize) -> bool
    requires { n ≤ length s.now }
    ensures { result ≡ is_read (read_item xcal (get_or part_names i []) (word_at s.now p n)) }
{
    read_item::<Plain>(i, true, &s[..n], p).is_some()
}

// An element that must be a string.
fn string_item(i: usize, s: &[u8], h: Head) -> bool
    requires { Stands s.now h }
    ensures { result ≡ is_read (and_then (string_of s.now h) (read_item xcal (get_or part_names i []))) }
{
    is_string(h.kind) && is_string_item(i, s, h.place)
}

// An element that must be a number.
fn number_item(i: usize, s: &[u8], h: Head) -> bool
    requires { Stands s.now h }
    ensures { result ≡ is_read (and_then (number_of s.now h) (read_item xcal (get_or part_names i []))) }
{
    is_number(h.kind) && is_number_item(i, s, h.place, h.next)
}

// The element is an item.
fn is_item(i: usize, s: &[u8], h: Head) -> bool
    requires { Stands s.now h }
    ensures { result ≡ item_in i (value_of_head s.now h) }
{
    if is_number_part(i) {
        number_item(i, s, h)
    } else {
        string_item(i, s, h)
    }
}

// Each element from `from` on is an item.
fn all_items(i: usize, s: &[u8], from: usize) -> bool
    ensures { result ≡ every (item_in i) (element_list (elements_at s.now from)) }
{
    let mut c = from;
    loop {
        let h = element_at(s, c);
        if !is_there(h.kind) {
            return true;
        }
        if !is_item(i, s, h) {
            return false;
        }
        c = element_next(s, h);
    }
}

// There is an element from `from` on, and one only where the part has no list.
fn is_amount(i: usize, s: &[u8], from: usize) -> bool
    ensures { result ≡ amounts (is_listed (part_of (get_or part_names i []))) (element_list (elements_at s.now from)) }
{
    let h = element_at(s, from);
    is_there(h.kind) && (is_list_part(i) || is_end(s, element_next(s, h)))
}

// The items of the array whose content begins at `from`.
fn are_items(i: usize, s: &[u8], from: usize) -> bool
    ensures { result ≡ items_in i (element_list (elements_at s.now from)) }
{
    all_items(i, s, from) && is_amount(i, s, from)
}

// The value from `at` on has the items of the part, in an array or alone.
pub fn is_part(i: usize, s: &[u8], at: usize) -> bool
    ensures { result ≡ part_in i (first_of (elements_at s.now at)) }
{
    let h = element_at(s, at);
    if is_array(h.kind) {
        are_items(i, s, h.next)
    } else {
        is_item(i, s, h)
    }
}
