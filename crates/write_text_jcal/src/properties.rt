// Properties as folded lines. A fold is known only when the line is there: `line` is the room in which it is written before.
ghost use Rattle.std.specs.Prelude.{◌≡◌, true, ◌≤◌, length};
ghost use Rattle.octets.specs.Lists.{every};
ghost use Rattle.sink.specs.Sink.{overwrite};
ghost use Rattle.folding.specs.Fold.{folded_line};
ghost use Rattle.schema.specs.Numbers.{component_name};
ghost use Rattle.text.specs.WriteText.{property_lines};
ghost use Rattle.read_json.specs.TreeAt.{elements_at};
ghost use Rattle.write_text_pieces.specs.Filled.{properties_room, PutBy};
ghost use Rattle.write_text_jcal.specs.Content.{line_text};
ghost use Rattle.lengths_jcal_text.specs.Fitting.{line_fits};
ghost use Rattle.write_text_jcal.specs.Walks.{properties_of};

use crate::content::put_content_line;
use edition::Edition;
use folding::folded::put_folded;
use read_json::kinds::is_there;
use read_json::{element_at, element_next};
use write_text_jcal_values::array_at;

// The line of the property whose array's content begins at `inside`, in the component of the number `k`.
fn put_property_line(
    out: &mut [u8],
    o: usize,
    edition: Edition,
    line: &mut [u8],
    k: usize,
    s: &[u8],
    inside: usize,
) -> usize
    requires { (length s.now ≤ 65535)
        × (k ≤ 9)
        × (length (line_text edition (component_name k) (elements_at s.now inside)) ≤ length line.old) }
    ensures { PutBy out.old out.new o result
        (folded_line (line_text edition (component_name k) (elements_at s.now inside)))
        line.new
        (overwrite line.old 0 (line_text edition (component_name k) (elements_at s.now inside))) }
{
    let n = put_content_line(line, 0, edition, k, s, inside);
    put_folded(out, o, &line[..n])
}

// The lines of the properties whose arrays stand from `from` on.
pub fn put_properties(
    out: &mut [u8],
    o: usize,
    edition: Edition,
    line: &mut [u8],
    k: usize,
    s: &[u8],
    from: usize,
) -> usize
    requires { (length s.now ≤ 65535)
        × (k ≤ 9)
        × (every (line_fits edition (length line.old)) (properties_of (component_name k) (elements_at s.now from))
        ≡ true) }
    ensures { PutBy out.old out.new o result
        (property_lines edition (properties_of (component_name k) (elements_at s.now from)))
        line.new
        (properties_room edition (properties_of (component_name k) (elements_at s.now from))
        line.old) }
{
    let mut p = o;
    let mut at = from;
    loop {
        let h = element_at(s, at);
        let kind = h.kind;
        let there = is_there(kind);
        if there {
            let inside = array_at(s, at);
            p = put_property_line(out, p, edition, line, k, s, inside);
            at = element_next(s, h);
        } else {
            return p;
        }
    }
}
