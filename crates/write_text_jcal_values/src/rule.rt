// RECUR, an object: for each part in the schema's order the member of its name. See specs/Rules.antt.
ghost use Rattle.std.specs.Prelude.{◌≡◌, List, [], ◌∷◌, map, ◌≤◌, ◌<◌, length, get_or, Some};
ghost use Rattle.octets.specs.Ascii.{ascii};
ghost use Rattle.octets.specs.Pick.{pick};
ghost use Rattle.octets.specs.Append.{◌⊕◌};
ghost use Rattle.octets.specs.Class.{upper};
ghost use Rattle.octets.specs.Words.{same, joined_by};
ghost use Rattle.octets.specs.Reading.{and_then, read_each};
ghost use Rattle.calendar.specs.Calendar.{ical, RuleItem, RulePart};
ghost use Rattle.sink.specs.Sink.{Put};
ghost use Rattle.recur.specs.Parts.{part_names};
ghost use Rattle.recur.specs.Item.{write_item};
ghost use Rattle.recur.specs.Rule.{in_order, ruled, write_part, write_rule};
ghost use Rattle.json_text.specs.Tree.{first_of};
ghost use Rattle.json_text.specs.Kinds.{or_alone};
ghost use Rattle.jcal.specs.Values.{read_part};
ghost use Rattle.read_json.specs.TreeAt.{elements_at, string_at};
ghost use Rattle.write_text_jcal_values.specs.Elements.{member_list_at};
ghost use Rattle.write_text_jcal_values.specs.Rules.{item_of, PartAt};

use crate::item::put_items;
use names::{find_word, put_upper};
use read_json::{MemberHead, member_at};
use recur::part;
use sink::put_all;
use source::JsonCharacters;
use write_text_pieces::put_between;

// The string at `place` is the name of the part of the number `p`.
fn is_part(p: usize, s: &[u8], place: usize) -> bool
    requires { (p < 14) × (place < length s.now) × (length s.now ≤ 65535) }
    ensures { result ≡ same (get_or part_names p []) (upper (string_at s.now place)) }
{
    let n = find_word::<JsonCharacters>(
        false,
        s,
        2 * (place + 1),
        b"FREQ\nUNTIL\nCOUNT\nINTERVAL\nBYSECOND\nBYMINUTE\nBYHOUR\nBYDAY\nBYMONTHDAY\nBYYEARDAY\nBYWEEKNO\nBYMONTH\nBYSETPOS\nWKST\n",
    );
    n == p
}

// The first member, from `from` on, of the part of the number `p`.
fn find_part(p: usize, s: &[u8], from: usize) -> Option<MemberHead>
    requires { (p < 14) × (length s.now ≤ 65535) }
    ensures { PartAt p s.now from result }
{
    let mut c = from;
    while let Some(m) = member_at(s, c) {
        if is_part(p, s, m.name) {
            return Some(m);
        }
        c = m.next;
    }
    None
}

// A part, behind a semicolon where it is not the first: its name stands at `name`, its value from `value` on.
fn put_part(
    out: &mut [u8],
    o: usize,
    started: bool,
    p: usize,
    s: &[u8],
    name: usize,
    value: usize,
) -> usize
    requires { (length s.now ≤ 65535) × (name < length s.now) }
    ensures { (is : List RuleItem) →
        read_each (item_of p) (or_alone (first_of (elements_at s.now value))) ≡ Some is →
        Put out.old out.new o result
        (pick started (59 ∷ []) [] ⊕ upper (string_at s.now name) ⊕ ascii "=" ⊕ joined_by 44
        (map (write_item ical) is)) }
{
    let a = put_between(out, o, started, b';');
    let b = put_upper::<JsonCharacters>(out, a, s, 2 * (name + 1));
    let c = put_all(out, b, b"=");
    put_items(out, c, p, s, value)
}

// The parts among the members from `inside` on.
fn put_parts(out: &mut [u8], o: usize, s: &[u8], inside: usize) -> usize
    requires { length s.now ≤ 65535 }
    ensures { (ps : List RulePart) →
        read_each read_part (member_list_at s.now inside) ≡ Some ps →
        Put out.old out.new o result (joined_by 59 (map write_part (in_order part_names ps))) }
{
    let mut q = o;
    let mut started = false;
    let mut p = 0;
    while p < part::KNOWN {
        if let Some(member) = find_part(p, s, inside) {
            q = put_part(out, q, started, p, s, member.name, member.next);
            started = true;
        }
        p += 1;
    }
    q
}

// The rule whose object's content begins at `inside`.
pub fn put_rule(out: &mut [u8], o: usize, s: &[u8], inside: usize) -> usize
    requires { length s.now ≤ 65535 }
    ensures { (ps : List RulePart) →
        and_then (read_each read_part (member_list_at s.now inside)) ruled ≡ Some ps →
        Put out.old out.new o result (write_rule ps) }
{
    put_parts(out, o, s, inside)
}
