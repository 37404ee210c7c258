// Components as lines: BEGIN, the properties, the components inside, END. See specs/Walks.antt.
ghost use Rattle.std.specs.Prelude.{◌≡◌, ◌+◌, ◌≤◌, length};
ghost use Rattle.octets.specs.Ascii.{ascii};
ghost use Rattle.octets.specs.Append.{◌⊕◌};
ghost use Rattle.octets.specs.Class.{upper};
ghost use Rattle.sink.specs.Sink.{overwrite};
ghost use Rattle.folding.specs.Fold.{folded_line};
ghost use Rattle.text.specs.WriteText.{end_line, write_calendar};
ghost use Rattle.calendar.specs.Levels.{shallow};
ghost use Rattle.xcal.specs.ComponentNodes.{read_components, read_calendars};
ghost use Rattle.xml.specs.NodesAt.{nodes_at};
ghost use Rattle.write_text_pieces.specs.Filled.{calendar_room, PutBy};
ghost use Rattle.write_text.specs.Children.{InsideAt, name_in};
ghost use Rattle.write_text.specs.Walks.{head_text, head_room};

use crate::children::inside_of;
use crate::properties::put_properties;
use edition::Edition;
use folding::folded::put_folded;
use markup::element;
use names::put_upper;
use read_xml_nodes::{NodeKind, next_node};
use schema::component;
use sink::put_all;
use source::Plain;

// The line of `word` and the name from `name` to `end` in capitals.
fn put_name_line(
    out: &mut [u8],
    o: usize,
    line: &mut [u8],
    word: &[u8],
    s: &[u8],
    name: usize,
    end: usize,
) -> usize
    requires { (end ≤ length s.now) × (length word.now + length s.now ≤ length line.old) }
    ensures { PutBy out.old out.new o result
        (folded_line (word.now ⊕ upper (name_in s.now name end)))
        line.new
        (overwrite line.old 0 (word.now ⊕ upper (name_in s.now name end))) }
{
    let a = put_all(line, 0, word);
    let n = put_upper::<Plain>(line, a, &s[..end], name);
    put_folded(out, o, &line[..n])
}

// What stands before the components inside: BEGIN and the properties.
fn put_head(
    out: &mut [u8],
    o: usize,
    edition: Edition,
    line: &mut [u8],
    s: &[u8],
    name: usize,
    end: usize,
    inside: usize,
) -> usize
    requires { (length s.now ≤ 65535) × (length line.old ≡ 262144) × (end ≤ length s.now) }
    ensures { PutBy out.old out.new o result
        (head_text edition (name_in s.now name end) (nodes_at s.now inside))
        line.new
        (head_room edition (name_in s.now name end) (nodes_at s.now inside) line.old) }
{
    let a = put_name_line(out, o, line, b"BEGIN:", s, name, end);
    let from = inside_of(s, inside, &element::PROPERTIES);
    put_properties(out, a, edition, line, s, from)
}

// What stands behind them: END.
fn put_tail(out: &mut [u8], o: usize, line: &mut [u8], s: &[u8], name: usize, end: usize) -> usize
    requires { (length s.now ≤ 65535) × (length line.old ≡ 262144) × (end ≤ length s.now) }
    ensures { PutBy out.old out.new o result
        (end_line (upper (name_in s.now name end)))
        line.new
        (overwrite line.old 0 (ascii "END:" ⊕ upper (name_in s.now name end))) }
{
    put_name_line(out, o, line, b"END:", s, name, end)
}

// Where the components inside begin.
fn components_inside(s: &[u8], inside: usize) -> usize
    ensures { InsideAt (ascii "components") s.now inside result }
{
    inside_of(s, inside, &element::COMPONENTS)
}

// The lines of the components whose elements stand from `from` on, `left` levels deep. `line` is the room for a line.
fn put_components(
    out: &mut [u8],
    o: usize,
    edition: Edition,
    line: &mut [u8],
    s: &[u8],
    from: usize,
    left: usize,
) -> usize
    requires { (length s.now ≤ 65535) × (length line.old ≡ 262144) }
    ensures { PutBy out.old out.new o result
        (write_calendar edition (shallow left (read_components (nodes_at s.now from))))
        line.new
        (calendar_room edition (shallow left (read_components (nodes_at s.now from))) line.old) }
{
    if left < 1 {
        return o;
    }
    let mut p = o;
    let mut at = from;
    loop {
        let n = next_node(s, at);
        match n.kind {
            NodeKind::Absent => {
                return p;
            }
            NodeKind::Element => {
                let a = put_head(out, p, edition, line, s, n.name, n.name_end, n.inside);
                let inner = components_inside(s, n.inside);
                let b = put_components(out, a, edition, line, s, inner, left - 1);
                p = put_tail(out, b, line, s, n.name, n.name_end);
                at = n.next;
            }
            NodeKind::Literal => {
                at = n.next;
            }
            NodeKind::Referred => {
                at = n.next;
            }
        }
    }
}

// The lines of the calendars whose elements stand from `from` on. `line` is the room for a line.
pub fn put_calendar(
    out: &mut [u8],
    o: usize,
    edition: Edition,
    line: &mut [u8],
    s: &[u8],
    from: usize,
) -> usize
    requires { (length s.now ≤ 65535) × (length line.old ≡ 262144) }
    ensures { PutBy out.old out.new o result
        (write_calendar edition (read_calendars (nodes_at s.now from)))
        line.new
        (calendar_room edition (read_calendars (nodes_at s.now from)) line.old) }
{
    put_components(out, o, edition, line, s, from, component::LEVELS)
}
