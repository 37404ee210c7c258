// The calendars of a text: one alone, or a stream of them. See crate jcal, specs/Components.antt.
ghost use Rattle.std.specs.Prelude.{◌≡◌, true, ◌≤◌, length};
ghost use Rattle.text.specs.WriteText.{write_calendar};
ghost use Rattle.json_text.specs.Tree.{value_of};
ghost use Rattle.jcal.specs.Components.{read_calendars, calendars_in};
ghost use Rattle.read_json.specs.TreeAt.{elements_at};
ghost use Rattle.write_text_pieces.specs.Filled.{calendar_room, PutBy};
ghost use Rattle.lengths_jcal_text.specs.Fitting.{fits};
ghost use Rattle.write_text_jcal.specs.Calendars.{is_array_first, calendar_of};

use crate::components::{components_inside, put_components, put_head, put_tail};
use edition::Edition;
use read_json::element_at;
use read_json::kinds::is_array;
use schema::component;
use write_text_jcal_values::array_at;

// The text's value, whose content begins at `inside` where it is an array, is a stream.
fn is_stream(s: &[u8], inside: usize) -> bool
    ensures { result ≡ is_array_first (elements_at s.now inside) }
{
    let h = element_at(s, inside);
    let kind = h.kind;
    is_array(kind)
}

// The lines of the calendar that stands first, whose array's content begins at `inside`.
fn put_alone(
    out: &mut [u8],
    o: usize,
    edition: Edition,
    line: &mut [u8],
    s: &[u8],
    inside: usize,
) -> usize
    requires { (length s.now ≤ 65535)
        × (fits edition (length line.old) (calendar_of (elements_at s.now inside)) ≡ true) }
    ensures { PutBy out.old out.new o result
        (write_calendar edition (calendar_of (elements_at s.now inside)))
        line.new
        (calendar_room edition (calendar_of (elements_at s.now inside)) line.old) }
{
    let a = put_head(out, o, edition, line, s, inside);
    let inner = components_inside(s, inside);
    let b = put_components(out, a, edition, line, s, inner, component::BELOW);
    put_tail(out, b, line, s, inside)
}

// The canonical text of the calendars of the jCal text `s`. `line` is the room for a line.
pub fn put_calendars(out: &mut [u8], o: usize, edition: Edition, line: &mut [u8], s: &[u8]) -> usize
    requires { (length s.now ≤ 65535)
        × (fits edition (length line.old) (read_calendars (calendars_in (value_of s.now))) ≡ true) }
    ensures { PutBy out.old out.new o result
        (write_calendar edition (read_calendars (calendars_in (value_of s.now))))
        line.new
        (calendar_room edition (read_calendars (calendars_in (value_of s.now))) line.old) }
{
    let inside = array_at(s, 0);
    let stream = is_stream(s, inside);
    if stream {
        return put_components(out, o, edition, line, s, inside, component::LEVELS);
    }
    put_alone(out, o, edition, line, s, inside)
}
