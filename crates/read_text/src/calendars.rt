// The calendars of a text, one after another, and nothing between them.
ghost use Rattle.std.specs.Prelude.{◌≡◌, true, [], ◌≤◌, ◌<◌, length};
ghost use Rattle.source.specs.Source.{rest};
ghost use Rattle.read_text_line.specs.Decoded.{decoded_line};
ghost use Rattle.read_text_line.specs.Line.{named, Parts};
ghost use Rattle.text.specs.Nesting.{move_by, move};
ghost use Rattle.read_text_line.specs.Ready.{Ready};
ghost use Rattle.read_text.specs.Places.{PlaceOf, OffsetAt};
ghost use Rattle.read_text.specs.Outer.{OpeningIs, begins_outer, Outer};
ghost use Rattle.read_text.specs.Answers.{Checks};

use crate::component::body;
use crate::line::no_params;
use crate::named::is_component_name;
use crate::places::parameter_cursor;
use edition::Edition;
use names::is_word_any_case;
use read_text_line::{LineCursors, line_at, line_end, names_carried};
use refusals::{Fault, Refusal};
use schema::{component, component_number};
use source::{Cuttable, Encoding};

// A BEGIN where nothing is open: the cursor of the name of the calendar that it begins.
fn begin_opens<E: Encoding>(edition: Edition, s: &[u8], l: LineCursors) -> Result<usize, Fault>
    ensures { OpeningIs (PlaceOf E.encoding s.now l) E.encoding s.now
        (begins_outer edition E.encoding s.now l) result }
{
    if !is_component_name::<E>(s, l.value) {
        return Err(Refusal::Name.at(l.name));
    }
    let n = component_number::<E>(s, l.value);
    if n == component::VCALENDAR {
        if no_params::<E>(s, l.parameters) {
            return Ok(l.value);
        }
        let c = parameter_cursor::<E>(s, l.parameters, 0);
        return Err(Refusal::Parameter.at(c));
    }
    Err(Refusal::Frame.at(l.name))
}

// A content line where nothing is open: the cursor of the name of the calendar that it begins.
fn content_opens<E: Cuttable>(edition: Edition, s: &[u8], l: LineCursors) -> Result<usize, Fault>
    requires { (l.name ≤ length s.now) × Parts E.encoding s.now l }
    ensures { OpeningIs (PlaceOf E.encoding s.now l) E.encoding s.now
        (move_by (decoded_line edition (named E.encoding s.now l)) []) result }
{
    let at = l.name;
    let e = l.parameters;
    if !names_carried::<E>(s, at, e) {
        return Err(Refusal::Name.at(l.name));
    }
    let begin = is_word_any_case::<E>(&s[..e], at, b"BEGIN");
    if begin {
        return begin_opens::<E>(edition, s, l);
    }
    Err(Refusal::Frame.at(l.name))
}

// A line where nothing is open: the cursor of the name of the calendar that it begins.
fn line_opens<E: Cuttable>(edition: Edition, s: &[u8], at: usize) -> Result<usize, Fault>
    requires { at ≤ length s.now }
    ensures { OpeningIs (OffsetAt E.encoding s.now at) E.encoding s.now
        (move edition (rest E.encoding s.now at) []) result }
{
    let Some(l) = line_at::<E>(s, at) else {
        return Err(Refusal::Line.at(at));
    };
    content_opens::<E>(edition, s, l)
}

// A calendar, from its BEGIN on: the place behind it.
fn calendar<E: Cuttable>(edition: Edition, s: &[u8], at: usize) -> Result<usize, Fault>
    requires { Ready E.encoding s.now at × (at < length s.now) }
    ensures { Outer edition E.encoding s.now at result }
{
    let Some(ending) = line_end::<E>(s, at) else {
        return Err(Refusal::Line.at(at));
    };
    let v = line_opens::<E>(edition, &s[..ending.end], at)?;
    body::<E>(
        edition,
        s,
        ending.next,
        component::VCALENDAR,
        &s[..ending.end],
        v,
        component::BELOW,
        false,
    )
}

// The check of an unfolded text.
pub fn check<E: Cuttable>(edition: Edition, s: &[u8]) -> Result<(), Fault>
    ensures { Checks edition E.encoding s.now result }
{
    let start = E::settled(s, 0);
    if s.len() <= start {
        return Err(Refusal::Frame.at(0));
    }
    let mut at = start;
    while at < s.len() {
        let next = calendar::<E>(edition, s, at)?;
        at = next;
    }
    Ok(())
}
