// The calendars of a text: a stream of them, or one alone. See crate jcal, specs/Components.antt.
ghost use Rattle.std.specs.Prelude.{◌≡◌, false};
ghost use Rattle.calendar.specs.Levels.{levels};
ghost use Rattle.validity.specs.ValidCalendar.{at_top};
ghost use Rattle.json_text.specs.Tree.{value_of};
ghost use Rattle.jcal.specs.Components.{components_verdict, is_stream, calendars_in};
ghost use Rattle.read_json.specs.Heads.{value_of_head};
ghost use Rattle.refusals.specs.Fault.{judged_as};

use crate::Outer;
use crate::subcomponents::{component_verdict, components_verdict};
use edition::Edition;
use read_json::kinds::is_array;
use read_json::{Head, element_at};
use refusals::Fault;
use schema::component;

// An array that begins with an array.
fn is_stream(s: &[u8], h: Head) -> bool
    ensures { result ≡ is_stream (value_of_head s.now h) }
{
    is_array(h.kind) && is_array(element_at(s, h.next).kind)
}

// The calendars of a text, whatever the bytes are.
pub fn calendars_verdict(edition: Edition, s: &[u8]) -> Result<(), Fault>
    ensures { components_verdict edition (calendars_in (value_of s.now)) at_top levels false ≡ judged_as result }
{
    let h = element_at(s, 0);
    if is_stream(s, h) {
        return components_verdict(edition, s, h.next, Outer::Stream, component::LEVELS, false);
    }
    component_verdict(edition, s, h, Outer::Stream, component::LEVELS, false)
}
