// Components as lines: BEGIN, the properties, the components inside, END. See specs/Walks.antt.
ghost use Rattle.std.specs.Prelude.{◌≡◌, true, ◌+◌, ◌≤◌, length};
ghost use Rattle.octets.specs.Ascii.{ascii};
ghost use Rattle.octets.specs.Append.{◌⊕◌};
ghost use Rattle.octets.specs.Class.{upper};
ghost use Rattle.source.specs.Source.{rest};
ghost use Rattle.sink.specs.Sink.{overwrite};
ghost use Rattle.folding.specs.Fold.{folded_line};
ghost use Rattle.text.specs.WriteText.{end_line, write_calendar};
ghost use Rattle.calendar.specs.Levels.{shallow};
ghost use Rattle.json_text.specs.Tree.{element_list, first_of};
ghost use Rattle.jcal.specs.Components.{read_components, read_properties, stream_in};
ghost use Rattle.read_json.specs.TreeAt.{elements_at};
ghost use Rattle.write_text_pieces.specs.Filled.{calendar_room, PutBy};
ghost use Rattle.write_text_jcal_values.specs.Elements.{without};
ghost use Rattle.lengths_jcal_text.specs.Fitting.{head_fits, fits};
ghost use Rattle.write_text_jcal.specs.Walks.{name_of, head_text, head_room};

use crate::properties::put_properties;
use edition::Edition;
use folding::folded::put_folded;
use names::put_upper;
use read_json::kinds::is_there;
use read_json::{element_at, element_next};
use schema::component_number;
use sink::put_all;
use source::JsonCharacters;
use write_text_jcal_values::{array_at, skip, string_at};

// The line of `word` and the name from the cursor `c` on in capitals.
fn put_name_line(
    out: &mut [u8],
    o: usize,
    line: &mut [u8],
    word: &[u8],
    s: &[u8],
    c: usize,
) -> usize
    requires { length word.now + length (rest 3 s.now c) ≤ length line.old }
    ensures { PutBy out.old out.new o result
        (folded_line (word.now ⊕ upper (rest 3 s.now c)))
        line.new
        (overwrite line.old 0 (word.now ⊕ upper (rest 3 s.now c))) }
{
    let a = put_all(line, 0, word);
    let n = put_upper::<JsonCharacters>(line, a, s, c);
    put_folded(out, o, &line[..n])
}

// Where the content of the array of a component's properties begins.
fn properties_inside(s: &[u8], inside: usize) -> usize
    ensures { elements_at s.now result ≡ stream_in (first_of (without 1 (elements_at s.now inside))) }
{
    let at = skip(s, inside, 1);
    array_at(s, at)
}

// The same of the components inside.
pub fn components_inside(s: &[u8], inside: usize) -> usize
    ensures { elements_at s.now result ≡ stream_in (first_of (without 2 (elements_at s.now inside))) }
{
    let at = skip(s, inside, 2);
    array_at(s, at)
}

// What stands before the components inside: BEGIN and the properties, of the component whose array's content begins at `inside`.
pub fn put_head(
    out: &mut [u8],
    o: usize,
    edition: Edition,
    line: &mut [u8],
    s: &[u8],
    inside: usize,
) -> usize
    requires { (length s.now ≤ 65535)
        × (head_fits edition (length line.old) (name_of (elements_at s.now inside))
        (read_properties (element_list (elements_at s.now inside)))
        ≡ true) }
    ensures { PutBy out.old out.new o result
        (head_text edition (elements_at s.now inside))
        line.new
        (head_room edition (elements_at s.now inside) line.old) }
{
    let c = string_at(s, inside);
    let k = component_number::<JsonCharacters>(s, c);
    let from = properties_inside(s, inside);
    let a = put_name_line(out, o, line, b"BEGIN:", s, c);
    put_properties(out, a, edition, line, k, s, from)
}

// What stands behind them: END.
pub fn put_tail(out: &mut [u8], o: usize, line: &mut [u8], s: &[u8], inside: usize) -> usize
    requires { (length s.now ≤ 65535) × (6 + length (name_of (elements_at s.now inside)) ≤ length line.old) }
    ensures { PutBy out.old out.new o result
        (end_line (name_of (elements_at s.now inside)))
        line.new
        (overwrite line.old 0 (ascii "END:" ⊕ name_of (elements_at s.now inside))) }
{
    let c = string_at(s, inside);
    put_name_line(out, o, line, b"END:", s, c)
}

// The lines of the components whose arrays stand from `from` on, `left` levels deep. `line` is the room for a line.
pub fn put_components(
    out: &mut [u8],
    o: usize,
    edition: Edition,
    line: &mut [u8],
    s: &[u8],
    from: usize,
    left: usize,
) -> usize
    requires { (length s.now ≤ 65535)
        × (fits edition (length line.old) (shallow left (read_components (elements_at s.now from))) ≡ true) }
    ensures { PutBy out.old out.new o result
        (write_calendar edition (shallow left (read_components (elements_at s.now from))))
        line.new
        (calendar_room edition (shallow left (read_components (elements_at s.now from))) line.old) }
{
    if left < 1 {
        return o;
    }
    let mut p = o;
    let mut at = from;
    loop {
        let h = element_at(s, at);
        let kind = h.kind;
        let there = is_there(kind);
        if there {
            let inside = array_at(s, at);
            let a = put_head(out, p, edition, line, s, inside);
            let inner = components_inside(s, inside);
            let b = put_components(out, a, edition, line, s, inner, left - 1);
            p = put_tail(out, b, line, s, inside);
            at = element_next(s, h);
        } else {
            return p;
        }
    }
}
