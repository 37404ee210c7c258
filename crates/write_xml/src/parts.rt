// The parts of a component's element around its subcomponents. The BEGIN line of the component ends at `e`, its name
// stands there from `v` on, and its other lines begin at `from`.
ghost use Rattle.std.specs.Prelude.{◌≡◌, [], ◌-◌, ◌≤◌, length, take};
ghost use Rattle.octets.specs.Ascii.{ascii};
ghost use Rattle.octets.specs.Pick.{pick};
ghost use Rattle.octets.specs.Class.{upper};
ghost use Rattle.source.specs.Source.{rest};
ghost use Rattle.read_text_line.specs.Ready.{Ready};
ghost use Rattle.sink.specs.Sink.{Put};
ghost use Rattle.calendar.specs.Levels.{shallow};
ghost use Rattle.xml.specs.Escape.{start_tag, end_tag};
ghost use Rattle.text_entries.specs.Entries.{entries_at};
ghost use Rattle.write_xml.specs.Places.{PropertiesPut};
ghost use Rattle.write_xml.specs.Parts.{has_components, head_xml, tail_xml};

use crate::properties::{Walked, put_properties_element};
use edition::Edition;
use markup::element;
use names::is_word_any_case;
use schema::component_number;
use source::{Cuttable, Encoding};
use tags::{put_end_tag, put_small_end, put_small_start, put_start_tag};
use text_entries::cut_at_level;

// The component, which has no subcomponents if it is bare, has an element `components`.
fn has_components<E: Encoding>(s: &[u8], v: usize, bare: bool) -> bool
    ensures { result ≡ has_components (upper (rest E.encoding s.now v)) bare }
{
    let calendar = is_word_any_case::<E>(s, v, b"VCALENDAR");
    if calendar {
        return true;
    }
    if bare {
        return false;
    }
    true
}

// The tags of `components`, where there is one.
fn put_components_start(out: &mut [u8], o: usize, there: bool) -> usize
    ensures { Put out.old out.new o result (pick there (start_tag (ascii "components")) []) }
{
    if there {
        return put_start_tag(out, o, &element::COMPONENTS);
    }
    o
}

fn put_components_end(out: &mut [u8], o: usize, there: bool) -> usize
    ensures { Put out.old out.new o result (pick there (end_tag (ascii "components")) []) }
{
    if there {
        return put_end_tag(out, o, &element::COMPONENTS);
    }
    o
}

// What stands before the subcomponents; `left`, the levels of the component and of those inside it.
pub fn put_head<E: Cuttable>(
    out: &mut [u8],
    o: usize,
    edition: Edition,
    s: &[u8],
    v: usize,
    e: usize,
    from: usize,
    left: usize,
) -> Walked
    requires { (e ≤ length s.now) × Ready E.encoding s.now from }
    ensures { PropertiesPut edition (shallow (left - 1)) out.old out.new o
        (head_xml (upper (rest E.encoding (take e s.now) v)) result.ahead.bare
        (entries_at edition E.encoding s.now from))
        E.encoding s.now from result }
{
    let k = component_number::<E>(&s[..e], v);
    let a = put_small_start::<E>(out, o, &s[..e], v);
    let all = put_properties_element::<E>(out, a, edition, k, s, from);
    let whole = all.ahead;
    let b = cut_at_level::<E>(edition, s, whole, left);
    let there = has_components::<E>(&s[..e], v, b.bare);
    let c = put_components_start(out, all.to, there);
    Walked { to: c, ahead: b }
}

// What stands behind them.
pub fn put_tail<E: Encoding>(out: &mut [u8], o: usize, s: &[u8], v: usize, bare: bool) -> usize
    ensures { Put out.old out.new o result (tail_xml (upper (rest E.encoding s.now v)) bare) }
{
    let there = has_components::<E>(s, v, bare);
    let a = put_components_end(out, o, there);
    put_small_end::<E>(out, a, s, v)
}
