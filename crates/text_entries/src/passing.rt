// The way past a component. See specs/Passing.antt.
ghost use Rattle.read_text_line.specs.Ready.{Ready};
ghost use Rattle.text_entries.specs.Passing.{Passed};

use crate::bound::bound_at;
use crate::entry::Kind;
use edition::Edition;
use source::Encoding;

// The cursor behind the END of the component whose lines begin at `from`, or the text's end where there is none.
pub fn pass_component<E: Encoding>(edition: Edition, s: &[u8], from: usize) -> usize
    requires { Ready E.encoding s.now from }
    ensures { Passed edition E.encoding s.now from result }
{
    let mut at = from;
    let mut depth: usize = 0;
    while at < s.len() {
        let f = bound_at::<E>(edition, s, at);
        let kind = f.kind;
        match kind {
            Kind::Begin => {
                depth += 1;
                at = f.next;
            }
            Kind::End => {
                if depth == 0 {
                    return f.next;
                }
                depth -= 1;
                at = f.next;
            }
            Kind::Property => {
                at = f.next;
            }
            Kind::Nothing => {
                at = f.next;
            }
        }
    }
    at
}
