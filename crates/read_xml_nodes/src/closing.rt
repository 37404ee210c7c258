// The end of an open element.
ghost use Rattle.std.specs.Prelude.{◌≤◌, length};
ghost use Rattle.read_xml_nodes.specs.Closing.{EndedAt};

use crate::Ended;
use crate::plain::is_plain;
use octets::wide;
use read_xml_tokens::{TokenKind, token_at};

// The end tag of the element whose content begins at `from`; without one the place is 0, and nothing follows.
pub fn element_end(s: &[u8], from: usize) -> Ended
    requires { from ≤ length s.now }
    ensures { EndedAt s.now from result }
{
    let mut at = from;
    let mut depth: usize = 0;
    while at < s.len() {
        if is_plain(wide(s[at])) {
            at += 1;
        } else {
            let t = token_at(s, at);
            match t.kind {
                TokenKind::Start => {
                    depth += 1;
                    at = t.next;
                }
                TokenKind::End => {
                    if depth == 0 {
                        return Ended {
                            place: at,
                            next: t.next,
                        };
                    }
                    depth -= 1;
                    at = t.next;
                }
                TokenKind::Empty | TokenKind::Char | TokenKind::Reference => {
                    at = t.next;
                }
                TokenKind::Fault => {
                    return Ended {
                        place: 0,
                        next: s.len(),
                    };
                }
            }
        }
    }
    Ended {
        place: 0,
        next: s.len(),
    }
}
