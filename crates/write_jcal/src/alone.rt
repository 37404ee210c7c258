// Whether a text has one calendar. See specs/Alone.antt.
ghost use Rattle.std.specs.Prelude.{◌≡◌};
ghost use Rattle.read_text_line.specs.Ready.{Ready};
ghost use Rattle.text.specs.Tree.{inner_of};
ghost use Rattle.text_entries.specs.Entries.{entries_at};
ghost use Rattle.write_jcal.specs.Alone.{is_alone, NextBegun};

use edition::Edition;
use source::Encoding;
use text_entries::{Kind, bound_at, pass_component};

// The cursor behind the BEGIN of the first component that the lines from `from` on begin, up to the end of the one that they stand in.
fn next_begin<E: Encoding>(edition: Edition, s: &[u8], from: usize) -> Option<usize>
    requires { Ready E.encoding s.now from }
    ensures { NextBegun edition E.encoding s.now from result }
{
    let mut at = from;
    while at < s.len() {
        let f = bound_at::<E>(edition, s, at);
        match f.kind {
            Kind::Begin => return Some(f.next),
            Kind::End => return None,
            Kind::Property | Kind::Nothing => at = f.next,
        }
    }
    None
}

// There is one component, and not another.
pub fn is_alone<E: Encoding>(edition: Edition, s: &[u8], from: usize) -> bool
    requires { Ready E.encoding s.now from }
    ensures { result ≡ is_alone (inner_of (entries_at edition E.encoding s.now from) 0) }
{
    let Some(first) = next_begin::<E>(edition, s, from) else {
        return false;
    };
    let end = pass_component::<E>(edition, s, first);
    next_begin::<E>(edition, s, end).is_none()
}
