// A recurrence rule as elements: each part in the schema's order, an element for each of its items. See specs/Rules.antt and specs/laws/PutRule.antt.
ghost use Rattle.std.specs.Prelude.{◌≡◌, true, [], ◌≤◌, length, get_or, IfSome};
ghost use Rattle.octets.specs.Words.{cut_at};
ghost use Rattle.octets.specs.Reading.{or_nothing};
ghost use Rattle.sink.specs.Sink.{Put};
ghost use Rattle.source.specs.Source.{rest, Within};
ghost use Rattle.recur.specs.Parts.{part_names};
ghost use Rattle.recur.specs.Noted.{piece_from, Standing};
ghost use Rattle.write_xml_value.specs.Rules.{item_xml, each_xml, piece_xml, named_xml};

use crate::tag::{put_part_end, put_part_start};
use octets::unit::{COMMA, END, SEMICOLON};
use recur::part;
use recur::rule::{byte_end, is_list_part, value_at};
use recur::written::put_shown;
use source::{Cuttable, Encoding, unit};

// An item of the part at the place `p`.
fn put_item_xml<E: Encoding>(out: &mut [u8], o: usize, p: usize, s: &[u8], at: usize) -> usize
    ensures { Put out.old out.new o result (item_xml (get_or part_names p []) (rest E.encoding s.now at)) }
{
    let a = put_part_start(out, o, p);
    let b = put_shown::<E>(out, a, p, false, true, s, at);
    put_part_end(out, b, p)
}

// The items between commas.
fn put_items_xml<E: Encoding>(out: &mut [u8], o: usize, p: usize, s: &[u8], at: usize) -> usize
    requires { Within E.encoding s.now at }
    ensures { Put out.old out.new o result
        (each_xml (get_or part_names p []) (cut_at 44 (rest E.encoding s.now at))) }
{
    let mut q = o;
    let mut c = at;
    loop {
        let e = byte_end::<E>(COMMA, s, c);
        q = put_item_xml::<E>(out, q, p, &s[..e], c);
        let n = unit::<E>(s, e);
        let u = n.u;
        if u == END {
            return q;
        }
        c = n.next;
    }
}

// A piece that has the name at the place `p`.
fn put_piece_xml<E: Encoding>(out: &mut [u8], o: usize, p: usize, s: &[u8], at: usize) -> usize
    requires { Within E.encoding s.now at }
    ensures { Put out.old out.new o result
        (piece_xml (get_or part_names p []) (rest E.encoding s.now at)) }
{
    let v = value_at::<E>(s, at);
    let listed = is_list_part(p);
    if listed {
        return put_items_xml::<E>(out, o, p, s, v);
    }
    put_item_xml::<E>(out, o, p, s, v)
}

// The part at the place `p`, whose piece begins at the cursor `begin`, if it is there.
fn put_part_xml<E: Cuttable>(
    out: &mut [u8],
    o: usize,
    p: usize,
    s: &[u8],
    begin: Option<usize>,
) -> usize
    requires { IfSome begin (λ c. c ≤ length s.now) }
    ensures { Put out.old out.new o result
        (or_nothing (piece_xml (get_or part_names p [])) (piece_from E.encoding s.now begin)) }
{
    let Some(c) = begin else {
        return o;
    };
    let e = byte_end::<E>(SEMICOLON, s, c);
    put_piece_xml::<E>(out, o, p, &s[..e], c)
}

// The parts of the rule from the cursor `at` to the end, which stand where `begins` says.
pub fn put_parts_xml<E: Cuttable>(
    out: &mut [u8],
    o: usize,
    s: &[u8],
    at: usize,
    begins: [Option<usize>; 14],
) -> usize
    requires { Standing E.encoding s.now at begins }
    ensures { Put out.old out.new o result (named_xml part_names (cut_at 59 (rest E.encoding s.now at))) }
{
    let mut q = o;
    let mut p = 0;
    while p < part::KNOWN {
        q = put_part_xml::<E>(out, q, p, s, begins[p]);
        p += 1;
    }
    q
}
