// The place of a fault in a line, found by a cursor. See specs/Places.antt.
ghost use Rattle.std.specs.Prelude.{◌<◌, length};
ghost use Rattle.read_text_line.specs.Cursor.{params_at};
ghost use Rattle.read_text.specs.Places.{NameAt};

use read_text_line::next_param;
use source::{Encoding, unit};

// The cursor of the name of the parameter of the number `i`, of those from the cursor `e` on, where there are so many.
pub fn parameter_cursor<E: Encoding>(s: &[u8], e: usize, i: usize) -> usize
    ensures { i < length (params_at E.encoding s.now e) → NameAt E.encoding s.now e i result }
{
    let mut c = e;
    let mut left = i;
    while 0 < left {
        let Ok(Some(a)) = next_param::<E>(s, c) else {
            return c;
        };
        c = a.next;
        left -= 1;
    }
    let n = unit::<E>(s, c);
    n.next
}
