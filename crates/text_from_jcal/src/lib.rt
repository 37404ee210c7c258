// jCal to canonical iCalendar text. See crate calls_jcal, specs/JcalToText.antt.
#![tactic(auto)]

ghost use Rattle.std.specs.Prelude.{◌≡◌, true, false, ◌*◌, ◌≤◌, length, None};
ghost use Rattle.calendar.specs.Levels.{levels};
ghost use Rattle.calendar.specs.Refusal.{characters, fine, answer, ◌otherwise◌};
ghost use Rattle.utf8.specs.Utf8.{first_bad};
ghost use Rattle.validity.specs.ValidCalendar.{at_top};
ghost use Rattle.text.specs.WriteText.{write_calendar};
ghost use Rattle.json_text.specs.Bytes.{most_open};
ghost use Rattle.json_text.specs.Check.{verdict};
ghost use Rattle.json_text.specs.Tree.{value_of};
ghost use Rattle.jcal.specs.Components.{components_verdict, read_calendars, calendars_in};
ghost use Rattle.jcal.specs.ReadJcal.{json};
ghost use Rattle.calls.specs.Conversion.{converted};
ghost use Rattle.calls.specs.Answered.{outcome_of, Done};
ghost use Rattle.calls_jcal.specs.JcalToText.{jcal_to_text_outcome, jcal_to_text_output};
ghost use Rattle.lengths_jcal_text.specs.Fitting.{fits};
ghost use Rattle.text_from_jcal.specs.Steps.{jcal_gives};

use calls::Answer;
use edition::{Edition, edition_of};
use json_text::json_fault;
use read_jcal::calendars_verdict;
use refusals::Refusal;
use utf8::first_bad;
use write_text_jcal::put_calendars;

// The text of the calendars, where there is certainly room for it. `line` is the room for a line.
fn written_at_once(edition: Edition, s: &[u8], line: &mut [u8], out: &mut [u8]) -> Answer
    requires { (length s.now ≤ 65535)
        × (fits edition (length line.old) (read_calendars (calendars_in (value_of s.now))) ≡ true)
        × (length (write_calendar edition (read_calendars (calendars_in (value_of s.now)))) ≤ 6 * length s.now)
        × (6 * length s.now ≤ length out.old) }
    ensures { Done (converted (write_calendar edition)
        (answer fine (read_calendars (calendars_in (value_of s.now))))) out.old out.new result }
{
    Answer::Written(put_calendars(out, 0, edition, line, s))
}

// The text of the calendars: first how long it is, then, if there is room, all of it.
fn measured(edition: Edition, s: &[u8], line: &mut [u8], out: &mut [u8]) -> Answer
    requires { (length s.now ≤ 65535)
        × (fits edition (length line.old) (read_calendars (calendars_in (value_of s.now))) ≡ true)
        × (length (write_calendar edition (read_calendars (calendars_in (value_of s.now)))) ≤ 6 * length s.now) }
    ensures { Done (converted (write_calendar edition)
        (answer fine (read_calendars (calendars_in (value_of s.now))))) out.old out.new result }
{
    let need = put_calendars(&mut out[..0], 0, edition, line, s);
    if need <= out.len() {
        put_calendars(out, 0, edition, line, s);
        return Answer::Written(need);
    }
    Answer::Needs(need)
}

// The text of the calendars: it has no more than 6 bytes for each byte of the jCal.
fn written(edition: Edition, s: &[u8], line: &mut [u8], out: &mut [u8]) -> Answer
    requires { (length s.now ≤ 65535)
        × (fits edition (length line.old) (read_calendars (calendars_in (value_of s.now))) ≡ true)
        × (length (write_calendar edition (read_calendars (calendars_in (value_of s.now)))) ≤ 6 * length s.now) }
    ensures { Done (converted (write_calendar edition)
        (answer fine (read_calendars (calendars_in (value_of s.now))))) out.old out.new result }
{
    let most = 6 * s.len();
    if most <= out.len() {
        return written_at_once(edition, s, line, out);
    }
    measured(edition, s, line, out)
}

// The same with a room for a line of its own: a content line of a jCal text within the limit is shorter.
fn lined(edition: Edition, s: &[u8], out: &mut [u8]) -> Answer
    requires { (length s.now ≤ 65535)
        × (fits edition 262144 (read_calendars (calendars_in (value_of s.now))) ≡ true)
        × (length (write_calendar edition (read_calendars (calendars_in (value_of s.now)))) ≤ 6 * length s.now) }
    ensures { Done (converted (write_calendar edition)
        (answer fine (read_calendars (calendars_in (value_of s.now))))) out.old out.new result }
{
    let mut line = [0u8; 262144];
    written(edition, s, &mut line, out)
}

// The first fault in a text that is JSON; or the text of its calendars.
fn judged(edition: Edition, s: &[u8], out: &mut [u8]) -> Answer
    requires { (length s.now ≤ 65535) × (verdict most_open s.now ≡ None) }
    ensures { Done (jcal_gives edition s.now
        (components_verdict edition (calendars_in (value_of s.now)) at_top levels false)) out.old
        out.new result }
{
    match calendars_verdict(edition, s) {
        Err(fault) => Answer::from(fault),
        Ok(()) => lined(edition, s, out),
    }
}

// Where a text is not JSON; or its first fault; or the text of its calendars.
fn formed(edition: Edition, s: &[u8], out: &mut [u8]) -> Answer
    requires { length s.now ≤ 65535 }
    ensures { Done (jcal_gives edition s.now
        (json (verdict most_open s.now)
        otherwise components_verdict edition (calendars_in (value_of s.now)) at_top levels false))
        out.old out.new result }
{
    match json_fault(s) {
        Some(p) => Answer::Refused(Refusal::Json, p),
        None => judged(edition, s, out),
    }
}

// The first byte of a text that begins no character; or where it is not JSON; or its first fault; or the text of its calendars.
fn in_edition(edition: Edition, s: &[u8], out: &mut [u8]) -> Answer
    requires { length s.now ≤ 65535 }
    ensures { Done (jcal_gives edition s.now
        (characters (first_bad s.now)
        otherwise json (verdict most_open s.now)
        otherwise components_verdict edition (calendars_in (value_of s.now)) at_top levels false))
        out.old out.new result }
{
    match first_bad(s) {
        Some(p) => Answer::Refused(Refusal::Character, p),
        None => formed(edition, s, out),
    }
}

// Converts the jCal text `input` to canonical iCalendar text in `out`, in the edition of the number `edition`.
pub fn jcal_to_text(input: &[u8], out: &mut [u8], edition: u32) -> Answer
    ensures { (outcome_of result ≡ jcal_to_text_outcome input.now out.old edition)
        × (out.new ≡ jcal_to_text_output input.now out.old edition) }
{
    if 65535 < input.len() {
        return Answer::Refused(Refusal::Length, 0);
    }
    match edition_of(edition) {
        Some(e) => in_edition(e, input, out),
        None => Answer::Refused(Refusal::Edition, 0),
    }
}
