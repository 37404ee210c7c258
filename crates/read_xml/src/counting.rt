// The word of an ACTION, where a property is one. See specs/Counting.antt.
ghost use Rattle.std.specs.Prelude.{◌≤◌, length};
ghost use Rattle.xml.specs.NodesAt.{nodes_at};
ghost use Rattle.read_xml.specs.Counting.{WordAt};

use crate::action::action_word;
use schema::{Action, property};

// What the word of the property of the number `p` names, whose content begins at `inside`, where it is an ACTION.
pub fn word_of(p: usize, s: &[u8], inside: usize) -> Option<Action>
    requires { (length s.now ≤ 65535) × (inside ≤ length s.now) }
    ensures { WordAt p (nodes_at s.now inside) result }
{
    if p == property::ACTION {
        action_word(s, inside)
    } else {
        None
    }
}
