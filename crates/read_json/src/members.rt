// The members of an object, one by one. See specs/MemberHeads.antt.
ghost use Rattle.read_json.specs.MemberHeads.{MemberAt};

use crate::closing::behind_container;
use crate::pieces::token_at;
use crate::{MemberHead, PieceKind};

// The first member from `at` on in an object, if there is one, whatever the bytes are.
pub fn member_at(s: &[u8], at: usize) -> Option<MemberHead>
    ensures { MemberAt s.now at result }
{
    let mut c = at;
    loop {
        let t = token_at(s, c);
        match t.kind {
            PieceKind::Absent | PieceKind::Close => return None,
            PieceKind::Name => {
                return Some(MemberHead {
                    name: t.place,
                    next: t.next,
                });
            }
            PieceKind::Array | PieceKind::Object => c = behind_container(s, t.next),
            PieceKind::String | PieceKind::Number | PieceKind::Literal => c = t.next,
        }
    }
}
