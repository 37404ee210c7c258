// A parameter's name. See specs/Naming.antt.
ghost use Rattle.read_text_parameters.specs.Naming.{NameIf};

use read_text_line::next_param;
use source::Encoding;

// The cursor of a parameter's name, and the cursor behind the parameter.
#[derive(Clone, Copy, Debug, PartialEq, Eq)]
pub struct NameCursors {
    pub name: usize,
    pub next: usize,
}

// The name of the parameter at the cursor `c`, if there is one.
pub fn name_at<E: Encoding>(s: &[u8], c: usize) -> Option<NameCursors>
    ensures { NameIf E.encoding s.now c result }
{
    let Ok(Some(a)) = next_param::<E>(s, c) else {
        return None;
    };
    if a.name < a.next {
        return Some(NameCursors {
            name: a.name,
            next: a.next,
        });
    }
    None
}
