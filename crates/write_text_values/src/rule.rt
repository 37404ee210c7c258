// RECUR, which is made of elements: for each part in the schema's order its items, with commas between them. See specs/Rules.antt and specs/PutRule.antt.
ghost use Rattle.std.specs.Prelude.{◌≡◌, [], ◌∷◌, map, ◌≤◌, ◌<◌, length, take, get_or};
ghost use Rattle.octets.specs.Ascii.{ascii};
ghost use Rattle.octets.specs.Pick.{pick};
ghost use Rattle.octets.specs.Append.{◌⊕◌};
ghost use Rattle.octets.specs.Class.{upper};
ghost use Rattle.octets.specs.Words.{joined_by};
ghost use Rattle.calendar.specs.Calendar.{ical};
ghost use Rattle.sink.specs.Sink.{Put};
ghost use Rattle.source.specs.Source.{rest};
ghost use Rattle.names.specs.Table.{place_of};
ghost use Rattle.recur.specs.Parts.{part_names};
ghost use Rattle.recur.specs.Item.{write_item};
ghost use Rattle.recur.specs.Rule.{write_rule};
ghost use Rattle.xcal.specs.ValueNodes.{items_of, parts_of};
ghost use Rattle.xml.specs.NodesAt.{nodes_at};
ghost use Rattle.read_xml_value.specs.Parts.{recur_names};
ghost use Rattle.write_text_values.specs.Rules.{ItemAt};
ghost use Rattle.write_text_values.specs.PutRule.{item_text};

use markup::table;
use names::{find_word, put_upper};
use read_xml_nodes::{NodeKind, next_node};
use recur::part;
use recur::written::put_item;
use sink::put_all;
use source::{Plain, XmlCharacters};
use write_text_pieces::put_between;

// An item's element: its name, where its content begins, and the place of the next node.
#[derive(Clone, Copy, Debug, PartialEq, Eq)]
pub struct Item {
    pub name: usize,
    pub name_end: usize,
    pub inside: usize,
    pub next: usize,
}

// The number of the part that an element's name names, part::KNOWN where it names none.
fn part_number(s: &[u8], name: usize, name_end: usize) -> usize
    requires { name_end ≤ length s.now }
    ensures { result ≡ place_of (rest 0 (take name_end s.now) name) recur_names }
{
    find_word::<Plain>(true, &s[..name_end], name, &table::PARTS)
}

// The first item, from `at` on, of the part of the number `p`.
fn find_item(p: usize, s: &[u8], at: usize) -> Option<Item>
    requires { p < 14 }
    ensures { ItemAt p s.now at result }
{
    let mut c = at;
    'items: loop {
        let n = next_node(s, c);
        match n.kind {
            NodeKind::Absent => return None,
            NodeKind::Element => {
                if part_number(s, n.name, n.name_end) == p {
                    return Some(Item {
                        name: n.name,
                        name_end: n.name_end,
                        inside: n.inside,
                        next: n.next,
                    });
                }
                c = n.next;
            }
            NodeKind::Literal | NodeKind::Referred => c = n.next,
        }
    }
}

// An item, behind a comma where it is not the first.
fn put_one_item(out: &mut [u8], o: usize, started: bool, p: usize, s: &[u8], i: usize) -> usize
    requires { (length s.now ≤ 65535) × (i ≤ length s.now) }
    ensures { Put out.old out.new o result (pick started (44 ∷ []) [] ⊕ item_text p s.now i) }
{
    let a = put_between(out, o, started, b',');
    put_item::<XmlCharacters>(out, a, p, true, false, s, 2 * i)
}

// The items of the part of the number `p`.
fn put_items(out: &mut [u8], o: usize, p: usize, s: &[u8], inside: usize) -> usize
    requires { (p < 14) × (length s.now ≤ 65535) }
    ensures { Put out.old out.new o result
        (joined_by 44 (map (write_item ical) (items_of (get_or part_names p []) (nodes_at s.now inside)))) }
{
    let mut q = o;
    let mut c = inside;
    let mut started = false;
    while let Some(item) = find_item(p, s, c) {
        q = put_one_item(out, q, started, p, s, item.inside);
        started = true;
        c = item.next;
    }
    q
}

// A part, behind a semicolon where it is not the first. Its name is that of an element of its, in capitals.
fn put_part(
    out: &mut [u8],
    o: usize,
    started: bool,
    p: usize,
    s: &[u8],
    name: usize,
    name_end: usize,
    inside: usize,
) -> usize
    requires { (p < 14) × (length s.now ≤ 65535) × (name_end ≤ length s.now) }
    ensures { Put out.old out.new o result (pick started (59 ∷ []) [] ⊕ upper
        (rest 0 (take name_end s.now) name) ⊕ ascii "=" ⊕ joined_by 44
        (map (write_item ical) (items_of (get_or part_names p []) (nodes_at s.now inside)))) }
{
    let a = put_between(out, o, started, b';');
    let b = put_upper::<Plain>(out, a, &s[..name_end], name);
    let c = put_all(out, b, b"=");
    put_items(out, c, p, s, inside)
}

// The rule whose content begins at `inside`.
pub fn put_rule(out: &mut [u8], o: usize, s: &[u8], inside: usize) -> usize
    requires { length s.now ≤ 65535 }
    ensures { Put out.old out.new o result
        (write_rule (parts_of part_names (nodes_at s.now inside))) }
{
    let mut q = o;
    let mut started = false;
    let mut p = 0;
    while p < part::KNOWN {
        if let Some(item) = find_item(p, s, inside) {
            q = put_part(out, q, started, p, s, item.name, item.name_end, inside);
            started = true;
        }
        p += 1;
    }
    q
}
