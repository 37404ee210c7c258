// The elements of an array, one by one. See specs/Heads.antt.
ghost use Rattle.std.specs.Prelude.{◌≡◌, ◌≤◌, length};
ghost use Rattle.read_json.specs.Heads.{head_of, HeadAt, NextAt};

use crate::closing::behind_container;
use crate::pieces::token_at;
use crate::{Head, HeadKind, PieceKind};

fn head(kind: HeadKind, place: usize, next: usize) -> Head
    ensures { result ≡ head_of kind place next }
{
    Head { kind, place, next }
}

// The first element from `at` on in an array, whatever the bytes are.
pub fn element_at(s: &[u8], at: usize) -> Head
    ensures { HeadAt s.now at result }
{
    let mut c = at;
    loop {
        let t = token_at(s, c);
        match t.kind {
            PieceKind::Absent | PieceKind::Close => {
                return head(HeadKind::Absent, s.len(), s.len());
            }
            PieceKind::Array => return head(HeadKind::Array, t.place, t.next),
            PieceKind::Object => return head(HeadKind::Object, t.place, t.next),
            PieceKind::Name => c = t.next,
            PieceKind::String => return head(HeadKind::String, t.place, t.next),
            PieceKind::Number => return head(HeadKind::Number, t.place, t.next),
            PieceKind::Literal => return head(HeadKind::Literal, t.place, t.next),
        }
    }
}

// The place from where on the elements behind `h` stand.
pub fn element_next(s: &[u8], h: Head) -> usize
    requires { h.next ≤ length s.now }
    ensures { NextAt s.now h result }
{
    match h.kind {
        HeadKind::Absent => s.len(),
        HeadKind::String | HeadKind::Number | HeadKind::Literal => h.next,
        HeadKind::Array | HeadKind::Object => behind_container(s, h.next),
    }
}
