// xCal to canonical iCalendar text. See specs/ToText.antt.
#![tactic(auto)]

ghost use Rattle.std.specs.Prelude.{◌≡◌, ◌*◌, ◌≤◌, length};
ghost use Rattle.calendar.specs.Refusal.{characters, fine, answer, ◌otherwise◌};
ghost use Rattle.utf8.specs.Utf8.{first_bad};
ghost use Rattle.xml.specs.WellFormed.{xml_verdict};
ghost use Rattle.xml.specs.Nodes.{document_nodes};
ghost use Rattle.xml.specs.NodesAt.{nodes_at};
ghost use Rattle.text.specs.WriteText.{write_calendar};
ghost use Rattle.xcal.specs.ComponentNodes.{root_verdict, read_calendars};
ghost use Rattle.calls.specs.Conversion.{converted};
ghost use Rattle.calls.specs.ToText.{to_text_outcome, to_text_output};
ghost use Rattle.calls.specs.Answered.{outcome_of, Done};
ghost use Rattle.xml_to_text.specs.Steps.{nodes_give};

use calls::Answer;
use edition::{Edition, edition_of};
use read_xml::root_verdict;
use read_xml_nodes::root_node;
use read_xml_tokens::well_formed;
use refusals::Refusal;
use utf8::first_bad;
use write_text::put_calendar;

// The text of the components from `from` on, where there is certainly room for it. `line` is the room for a line.
fn written_at_once(
    edition: Edition,
    s: &[u8],
    from: usize,
    line: &mut [u8],
    out: &mut [u8],
) -> Answer
    requires { (length s.now ≤ 65535)
        × (length line.old ≡ 262144)
        × (length (write_calendar edition (read_calendars (nodes_at s.now from))) ≤ 6 * length s.now)
        × (6 * length s.now ≤ length out.old) }
    ensures { Done (converted (write_calendar edition) (answer fine (read_calendars (nodes_at s.now from))))
        out.old out.new result }
{
    Answer::Written(put_calendar(out, 0, edition, line, s, from))
}

// The text of the components from `from` on: first how long it is, then, if there is room, all of it.
fn measured(edition: Edition, s: &[u8], from: usize, line: &mut [u8], out: &mut [u8]) -> Answer
    requires { (length s.now ≤ 65535)
        × (length line.old ≡ 262144)
        × (length (write_calendar edition (read_calendars (nodes_at s.now from))) ≤ 6 * length s.now) }
    ensures { Done (converted (write_calendar edition) (answer fine (read_calendars (nodes_at s.now from))))
        out.old out.new result }
{
    let need = put_calendar(&mut out[..0], 0, edition, line, s, from);
    if need <= out.len() {
        put_calendar(out, 0, edition, line, s, from);
        return Answer::Written(need);
    }
    Answer::Needs(need)
}

// The text of the components from `from` on: it has no more than 6 bytes for each byte of the document.
fn written(edition: Edition, s: &[u8], from: usize, line: &mut [u8], out: &mut [u8]) -> Answer
    requires { (length s.now ≤ 65535)
        × (length line.old ≡ 262144)
        × (length (write_calendar edition (read_calendars (nodes_at s.now from))) ≤ 6 * length s.now) }
    ensures { Done (converted (write_calendar edition) (answer fine (read_calendars (nodes_at s.now from))))
        out.old out.new result }
{
    let most = 6 * s.len();
    if most <= out.len() {
        return written_at_once(edition, s, from, line, out);
    }
    measured(edition, s, from, line, out)
}

// The same with a room for a line of its own: a content line of a document within the limit is shorter.
fn lined(edition: Edition, s: &[u8], from: usize, out: &mut [u8]) -> Answer
    requires { (length s.now ≤ 65535)
        × (length (write_calendar edition (read_calendars (nodes_at s.now from))) ≤ 6 * length s.now) }
    ensures { Done (converted (write_calendar edition) (answer fine (read_calendars (nodes_at s.now from))))
        out.old out.new result }
{
    let mut line = [0u8; 262144];
    written(edition, s, from, &mut line, out)
}

// The first fault in a document that is within the XML profile; or its text.
fn judged(edition: Edition, s: &[u8], out: &mut [u8]) -> Answer
    requires { (length s.now ≤ 65535) × (xml_verdict s.now ≡ fine) }
    ensures { Done (nodes_give edition s.now (root_verdict edition (document_nodes s.now)))
        out.old out.new result }
{
    let t = root_node(s);
    match root_verdict(edition, s, t) {
        Err(fault) => Answer::from(fault),
        Ok(()) => lined(edition, s, t.inside, out),
    }
}

// Where a document leaves the XML profile; or its first fault; or its text.
fn formed(edition: Edition, s: &[u8], out: &mut [u8]) -> Answer
    requires { length s.now ≤ 65535 }
    ensures { Done (nodes_give edition s.now
        (xml_verdict s.now otherwise root_verdict edition (document_nodes s.now))) out.old
        out.new result }
{
    match well_formed(s) {
        Err(fault) => Answer::from(fault),
        Ok(()) => judged(edition, s, out),
    }
}

// The first byte of a document that begins no character; or where it leaves the XML profile; or its first fault; or its text.
fn in_edition(edition: Edition, s: &[u8], out: &mut [u8]) -> Answer
    requires { length s.now ≤ 65535 }
    ensures { Done (nodes_give edition s.now
        (characters (first_bad s.now)
        otherwise xml_verdict s.now
        otherwise root_verdict edition (document_nodes s.now))) out.old
        out.new result }
{
    match first_bad(s) {
        Some(p) => Answer::Refused(Refusal::Character, p),
        None => formed(edition, s, out),
    }
}

// Converts the xCal document `input` to canonical iCalendar text in `out`, in the edition of the number `edition`.
pub fn to_text(input: &[u8], out: &mut [u8], edition: u32) -> Answer
    ensures { (outcome_of result ≡ to_text_outcome input.now out.old edition)
        × (out.new ≡ to_text_output input.now out.old edition) }
{
    if 65535 < input.len() {
        return Answer::Refused(Refusal::Length, 0);
    }
    match edition_of(edition) {
        Some(e) => in_edition(e, input, out),
        None => Answer::Refused(Refusal::Edition, 0),
    }
}
