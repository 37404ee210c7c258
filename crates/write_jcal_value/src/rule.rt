// A recurrence rule as an object: a member for each part, in the schema's order. See specs/Rules.antt and specs/laws/PutRule.antt.
ghost use Rattle.std.specs.Prelude.{◌≡◌, true, [], map, eqb, get_or};
ghost use Rattle.octets.specs.Append.{◌⊕◌};
ghost use Rattle.octets.specs.Front.{up_to};
ghost use Rattle.octets.specs.Words.{cut_at, joined_by};
ghost use Rattle.sink.specs.Sink.{Put};
ghost use Rattle.source.specs.Source.{rest, Within};
ghost use Rattle.recur.specs.Parts.{part_of, part_names};
ghost use Rattle.recur.specs.Rule.{items_of};
ghost use Rattle.recur.specs.Noted.{Standing};
ghost use Rattle.json_text.specs.Bytes.{value_separator};
ghost use Rattle.write_json.specs.Separated.{separator};
ghost use Rattle.write_jcal_value.specs.Rules.{has_numbers, item_shown, items_shown, piece_shown, named_shown};

use crate::label::put_part_label;
use octets::unit::{COMMA, END, SEMICOLON};
use recur::part;
use recur::rule::{byte_end, is_list_part, value_at};
use recur::written::put_shown;
use sink::put;
use source::{Cuttable, Encoding, unit};
use write_json::put_separator;

// For each part, whether its items are numbers.
const NUMBERS: [bool; 14] = [
    false, false, true, true, true, true, true, false, true, true, true, true, true, false,
];

// The items of the part at the place `p` are numbers.
fn has_numbers(p: usize) -> bool
    ensures { result ≡ has_numbers (part_of (get_or part_names p [])) }
{
    p < part::KNOWN && NUMBERS[p]
}

// An item of the part at the place `p`.
fn put_item_json<E: Encoding>(out: &mut [u8], o: usize, p: usize, s: &[u8], at: usize) -> usize
    ensures { Put out.old out.new o result
        (item_shown (get_or part_names p []) (rest E.encoding s.now at)) }
{
    let number = has_numbers(p);
    if number {
        return put_shown::<E>(out, o, p, false, true, s, at);
    }
    let a = put(out, o, b'"');
    let b = put_shown::<E>(out, a, p, false, true, s, at);
    put(out, b, b'"')
}

// The items between commas.
fn put_each_item<E: Encoding>(out: &mut [u8], o: usize, p: usize, s: &[u8], at: usize) -> usize
    requires { Within E.encoding s.now at }
    ensures { Put out.old out.new o result
        (joined_by value_separator (map (item_shown (get_or part_names p [])) (cut_at 44 (rest E.encoding s.now at)))) }
{
    let mut q = o;
    let mut c = at;
    loop {
        let e = byte_end::<E>(COMMA, s, c);
        let a = put_item_json::<E>(out, q, p, &s[..e], c);
        let n = unit::<E>(s, e);
        let u = n.u;
        if u == END {
            return a;
        }
        q = put(out, a, b',');
        c = n.next;
    }
}

// The same in an array, but one item alone.
fn put_items_json<E: Encoding>(out: &mut [u8], o: usize, p: usize, s: &[u8], at: usize) -> usize
    requires { Within E.encoding s.now at }
    ensures { Put out.old out.new o result
        (items_shown (get_or part_names p []) (cut_at 44 (rest E.encoding s.now at))) }
{
    let e = byte_end::<E>(COMMA, s, at);
    let n = unit::<E>(s, e);
    let u = n.u;
    if u == END {
        return put_item_json::<E>(out, o, p, &s[..e], at);
    }
    let a = put(out, o, b'[');
    let b = put_each_item::<E>(out, a, p, s, at);
    put(out, b, b']')
}

// The items of the part at the place `p`, from behind = on.
fn put_part_items<E: Encoding>(out: &mut [u8], o: usize, p: usize, s: &[u8], at: usize) -> usize
    requires { Within E.encoding s.now at }
    ensures { Put out.old out.new o result
        (items_shown (get_or part_names p []) (items_of (get_or part_names p []) (rest E.encoding s.now at))) }
{
    let listed = is_list_part(p);
    if listed {
        return put_items_json::<E>(out, o, p, s, at);
    }
    put_item_json::<E>(out, o, p, s, at)
}

// A piece that has the name at the place `p`.
fn put_piece_json<E: Encoding>(out: &mut [u8], o: usize, p: usize, s: &[u8], at: usize) -> usize
    requires { Within E.encoding s.now at }
    ensures { Put out.old out.new o result
        (piece_shown (get_or part_names p []) (rest E.encoding s.now at)) }
{
    let v = value_at::<E>(s, at);
    let a = put_part_label(out, o, p);
    put_part_items::<E>(out, a, p, s, v)
}

// The part at the place `p`, whose piece begins at the cursor `at`, behind what separates it from another.
fn put_part_json<E: Encoding>(
    out: &mut [u8],
    o: usize,
    started: bool,
    p: usize,
    s: &[u8],
    at: usize,
) -> usize
    requires { Within E.encoding s.now at }
    ensures { Put out.old out.new o result
        (separator started ⊕
        piece_shown (get_or part_names p []) (up_to (λ x. eqb x 59) (rest E.encoding s.now at))) }
{
    let e = byte_end::<E>(SEMICOLON, s, at);
    let a = put_separator(out, o, started);
    put_piece_json::<E>(out, a, p, &s[..e], at)
}

// The parts of the rule from the cursor `at` to the end, which stand where `begins` says: the cursor at its piece, if it is there.
pub fn put_parts_json<E: Cuttable>(
    out: &mut [u8],
    o: usize,
    s: &[u8],
    at: usize,
    begins: [Option<usize>; 14],
) -> usize
    requires { Standing E.encoding s.now at begins }
    ensures { Put out.old out.new o result
        (joined_by value_separator (named_shown part_names (cut_at 59 (rest E.encoding s.now at)))) }
{
    let mut q = o;
    let mut started = false;
    let mut p = 0;
    while p < part::KNOWN {
        if let Some(c) = begins[p] {
            q = put_part_json::<E>(out, q, started, p, s, c);
            started = true;
        }
        p += 1;
    }
    q
}
