// The calendars of a document, and its root. See crate xcal, specs/ComponentNodes.antt.
ghost use Rattle.std.specs.Prelude.{◌≡◌, ◌≤◌, length, take};
ghost use Rattle.octets.specs.Ascii.{ascii};
ghost use Rattle.octets.specs.Words.{same};
ghost use Rattle.source.specs.Source.{rest};
ghost use Rattle.read_xml.specs.Roots.{StreamAt, RootAt};

use crate::subcomponents::{component_verdict, no_component};
use edition::Edition;
use markup::element;
use names::is_word;
use octets::is_space;
use read_xml_nodes::{Element, NodeKind, next_node, unexpected};
use refusals::{Fault, Refusal};
use schema::component;
use source::Plain;

// The name is `vcalendar`.
fn is_calendar(s: &[u8], name: usize, name_end: usize) -> bool
    requires { name_end ≤ length s.now }
    ensures { result ≡ same (rest 0 (take name_end s.now) name) (ascii "vcalendar") }
{
    is_word::<Plain>(&s[..name_end], name, &element::VCALENDAR)
}

// The children of `icalendar`, whose content begins at `inside`, and whose end tag is at `e`.
fn stream_verdict(edition: Edition, s: &[u8], inside: usize, e: usize) -> Result<(), Fault>
    requires { length s.now ≤ 65535 }
    ensures { StreamAt edition s.now inside e result }
{
    let mut at = inside;
    let mut any = false;
    'nodes: loop {
        let n = next_node(s, at);
        match n.kind {
            NodeKind::Absent => {
                return if any {
                    Ok(())
                } else {
                    Err(Refusal::Frame.at(e))
                };
            }
            NodeKind::Element => {
                if is_calendar(s, n.name, n.name_end) {
                    component_verdict(
                        edition,
                        s,
                        n.inside,
                        component::VCALENDAR,
                        component::BELOW,
                        false,
                        n.end,
                    )?;
                    any = true;
                    at = n.next;
                } else {
                    return Err(no_component(s, at, n.name, n.name_end));
                }
            }
            NodeKind::Literal => {
                if is_space(n.unit) {
                    at = n.next;
                } else {
                    return Err(Refusal::Frame.at(at));
                }
            }
            NodeKind::Referred => {
                return Err(Refusal::Frame.at(at));
            }
        }
    }
}

// The root of a document.
pub fn root_verdict(edition: Edition, s: &[u8], root: Element) -> Result<(), Fault>
    requires { (length s.now ≤ 65535) × (root.name_end ≤ length s.now) }
    ensures { RootAt edition s.now root result }
{
    if is_word::<Plain>(&s[..root.name_end], root.name, &element::ICALENDAR) {
        stream_verdict(edition, s, root.inside, root.end)
    } else {
        Err(unexpected(s, root.place, root.name, root.name_end))
    }
}
