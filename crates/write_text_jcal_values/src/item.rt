// The items of a part of a RECUR: an item alone, or an array of them. See specs/Rules.antt.
ghost use Rattle.std.specs.Prelude.{◌≡◌, List, [], ◌∷◌, map, ◌≤◌, length, Some};
ghost use Rattle.octets.specs.Pick.{pick};
ghost use Rattle.octets.specs.Append.{◌⊕◌};
ghost use Rattle.octets.specs.Words.{joined_by};
ghost use Rattle.octets.specs.Reading.{read_each};
ghost use Rattle.calendar.specs.Calendar.{ical, RuleItem};
ghost use Rattle.sink.specs.Sink.{Put};
ghost use Rattle.recur.specs.Item.{write_item};
ghost use Rattle.json_text.specs.Tree.{first_of};
ghost use Rattle.json_text.specs.Kinds.{or_alone};
ghost use Rattle.read_json.specs.TreeAt.{elements_at};
ghost use Rattle.read_json.specs.Heads.{value_of_head};
ghost use Rattle.write_text_jcal_values.specs.Elements.{list_at};
ghost use Rattle.write_text_jcal_values.specs.Rules.{item_of};
ghost use Rattle.write_text_jcal_values.specs.laws.Elements.{Strung};

use read_json::kinds::{is_array, is_string, is_there};
use read_json::{Head, element_at, element_next};
use recur::written::put_item;
use source::{JsonCharacters, Plain};
use write_text_pieces::put_between;

// An item of the part of the number `p`: a string, or a number.
fn put_item_of(out: &mut [u8], o: usize, p: usize, s: &[u8], h: Head) -> usize
    requires { (length s.now ≤ 65535) × Strung s.now h }
    ensures { (i : RuleItem) →
        item_of p (value_of_head s.now h) ≡ Some i →
        Put out.old out.new o result (write_item ical i) }
{
    let kind = h.kind;
    let string = is_string(kind);
    if string {
        return put_item::<JsonCharacters>(out, o, p, true, false, s, 2 * (h.place + 1));
    }
    put_item::<Plain>(out, o, p, true, false, &s[..h.next], h.place)
}

// The same, behind a comma where it is not the first.
fn put_one_item(out: &mut [u8], o: usize, started: bool, p: usize, s: &[u8], h: Head) -> usize
    requires { (length s.now ≤ 65535) × Strung s.now h }
    ensures { (i : RuleItem) →
        item_of p (value_of_head s.now h) ≡ Some i →
        Put out.old out.new o result (pick started (44 ∷ []) [] ⊕ write_item ical i) }
{
    let a = put_between(out, o, started, b',');
    put_item_of(out, a, p, s, h)
}

// All of them, from `from` on.
fn put_listed(out: &mut [u8], o: usize, p: usize, s: &[u8], from: usize) -> usize
    requires { length s.now ≤ 65535 }
    ensures { (is : List RuleItem) →
        read_each (item_of p) (list_at s.now from) ≡ Some is →
        Put out.old out.new o result (joined_by 44 (map (write_item ical) is)) }
{
    let mut q = o;
    let mut at = from;
    let mut started = false;
    loop {
        let h = element_at(s, at);
        let kind = h.kind;
        let there = is_there(kind);
        if there {
            q = put_one_item(out, q, started, p, s, h);
            started = true;
            at = element_next(s, h);
        } else {
            return q;
        }
    }
}

// The items in the value that stands first from `at` on.
pub fn put_items(out: &mut [u8], o: usize, p: usize, s: &[u8], at: usize) -> usize
    requires { length s.now ≤ 65535 }
    ensures { (is : List RuleItem) →
        read_each (item_of p) (or_alone (first_of (elements_at s.now at))) ≡ Some is →
        Put out.old out.new o result (joined_by 44 (map (write_item ical) is)) }
{
    let h = element_at(s, at);
    let kind = h.kind;
    let array = is_array(kind);
    if array {
        return put_listed(out, o, p, s, h.next);
    }
    put_item_of(out, o, p, s, h)
}
