// The components of a text, or of a component. See specs/Walks.antt.
ghost use Rattle.std.specs.Prelude.{◌≤◌};
ghost use Rattle.read_text_line.specs.Ready.{Ready};
ghost use Rattle.write_xml.specs.Places.{ComponentsPut};

use crate::parts::{put_head, put_tail};
use edition::Edition;
use source::Cuttable;
use text_entries::{Kind, bound_at};

// How far a walk has come: the index in the sink, and the cursor in the text, behind the END that ended it or at the text's end.
#[derive(Clone, Copy)]
pub struct Reached {
    pub to: usize,
    pub next: usize,
}

// The components that the lines from `from` on begin, `left` levels deep, up to the end of the one that they stand in.
pub fn put_components<E: Cuttable>(
    out: &mut [u8],
    o: usize,
    edition: Edition,
    s: &[u8],
    from: usize,
    left: usize,
) -> Reached
    requires { Ready E.encoding s.now from × (1 ≤ left) }
    ensures { ComponentsPut edition left out.old out.new o E.encoding s.now from result }
{
    let mut p = o;
    let mut at = from;
    while at < s.len() {
        let f = bound_at::<E>(edition, s, at);
        match f.kind {
            Kind::Begin => {
                let l = f.line;
                let h = put_head::<E>(out, p, edition, s, l.value, f.end, f.next, left);
                let a = h.ahead;
                if a.bare {
                    p = put_tail::<E>(out, h.to, &s[..f.end], l.value, a.bare);
                    at = a.next;
                } else {
                    let b = put_components::<E>(out, h.to, edition, s, a.inner, left - 1);
                    p = put_tail::<E>(out, b.to, &s[..f.end], l.value, a.bare);
                    at = b.next;
                }
            }
            Kind::End => {
                return Reached {
                    to: p,
                    next: f.next,
                };
            }
            Kind::Property => {
                at = f.next;
            }
            Kind::Nothing => {
                at = f.next;
            }
        }
    }
    Reached { to: p, next: at }
}
