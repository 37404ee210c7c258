// The end of an open array or object. See specs/Closing.antt.
ghost use Rattle.std.specs.Prelude.{◌≤◌, length};
ghost use Rattle.read_json.specs.Closing.{EndedAt, BehindAt};

use crate::pieces::token_at;
use crate::{Ended, PieceKind};

// The end of the array or object whose content begins at `from`, if there is one.
pub fn container_end(s: &[u8], from: usize) -> Option<Ended>
    requires { from ≤ length s.now }
    ensures { EndedAt s.now from result }
{
    let mut at = from;
    let mut depth: usize = 0;
    loop {
        let t = token_at(s, at);
        match t.kind {
            PieceKind::Absent => return None,
            PieceKind::Array | PieceKind::Object => {
                depth += 1;
                at = t.next;
            }
            PieceKind::Close => {
                if depth == 0 {
                    return Some(Ended {
                        place: t.place,
                        next: t.next,
                    });
                }
                depth -= 1;
                at = t.next;
            }
            PieceKind::Name | PieceKind::String | PieceKind::Number | PieceKind::Literal => {
                at = t.next;
            }
        }
    }
}

// The place behind that end; without one nothing follows.
pub fn behind_container(s: &[u8], from: usize) -> usize
    requires { from ≤ length s.now }
    ensures { BehindAt s.now from result }
{
    match container_end(s, from) {
        Some(e) => e.next,
        None => s.len(),
    }
}
