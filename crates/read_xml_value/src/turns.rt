// PERIOD and RECUR, which are made of elements in a fixed order. `rule` is true for RECUR. See specs/Turning.antt.
ghost use Rattle.std.specs.Prelude.{◌≡◌, [], ◌≤◌, length};
ghost use Rattle.names.specs.Table.{place_of};
ghost use Rattle.xcal.specs.Layout.{sequence};
ghost use Rattle.xml.specs.NodesAt.{nodes_at};
ghost use Rattle.refusals.specs.Fault.{judged_as};
ghost use Rattle.read_xml_nodes.specs.Elements.{name_at};
ghost use Rattle.read_xml_value.specs.Parts.{names_of, slots_of};
ghost use Rattle.read_xml_value.specs.PartContents.{inside_of};
ghost use Rattle.read_xml_value.specs.Turning.{ChildAt, Turns};

use crate::Turn;
use crate::parts::{at_end, fills_first, fills_second, part_after, part_inside, part_place};
use octets::is_space;
use read_xml_nodes::{Element, NodeKind, next_node, unexpected};
use refusals::{Fault, Refusal};

// The child of the number `i`, where slots before `next` have passed: the slot after it.
fn child(rule: bool, i: usize, next: usize, s: &[u8], e: Element) -> Result<usize, Fault>
    requires { (length s.now ≤ 65535) × (e.inside ≤ length s.now) }
    ensures { i ≡ place_of (name_at s.now e) (names_of rule) →
        ChildAt rule (name_at s.now e) next e.place (nodes_at s.now e.inside) result }
{
    let Some(k) = part_after(rule, i, next) else {
        return Err(unexpected(s, e.place, e.name, e.name_end));
    };
    part_inside(rule, i, s, e.place, e.inside)?;
    Ok(k)
}

// One node of the content: where the walk goes on, if it does. The parent's end tag is at `e`.
fn turn(rule: bool, s: &[u8], t: Turn, e: usize) -> Result<Option<Turn>, Fault>
    requires { length s.now ≤ 65535 }
    ensures { Turns rule s.now e t result }
{
    let n = next_node(s, t.at);
    match n.kind {
        NodeKind::Absent => {
            at_end(rule, t.first, t.second, e)?;
            Ok(None)
        }
        NodeKind::Element => {
            let i = part_place(rule, s, n.name, n.name_end);
            let element = Element {
                place: t.at,
                name: n.name,
                name_end: n.name_end,
                inside: n.inside,
                end: n.end,
            };
            let slot = child(rule, i, t.slot, s, element)?;
            Ok(Some(Turn {
                at: n.next,
                slot,
                first: fills_first(i, t.first),
                second: fills_second(i, t.second),
            }))
        }
        NodeKind::Literal => {
            if is_space(n.unit) {
                Ok(Some(Turn { at: n.next, ..t }))
            } else {
                Err(Refusal::Frame.at(t.at))
            }
        }
        NodeKind::Referred => Err(Refusal::Frame.at(t.at)),
    }
}

// The children of a PERIOD or RECUR whose content begins at `inside`, and whose end tag is at `e`.
pub fn parts_verdict(rule: bool, s: &[u8], inside: usize, e: usize) -> Result<(), Fault>
    requires { length s.now ≤ 65535 }
    ensures { judged_as result ≡ sequence (slots_of rule) (inside_of rule) (nodes_at s.now inside) 0 [] e }
{
    let mut t = Turn {
        at: inside,
        slot: 0,
        first: false,
        second: false,
    };
    'children: while let Some(next) = turn(rule, s, t, e)? {
        t = next;
    }
    Ok(())
}
