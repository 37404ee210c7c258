// The word of an ACTION.
ghost use Rattle.std.specs.Prelude.{◌≡◌, ◌≤◌, length};
ghost use Rattle.schema.specs.Completing.{action_named};
ghost use Rattle.xml.specs.Nodes.{characters_of};
ghost use Rattle.xml.specs.NodesAt.{nodes_at};

use schema::{Action, action_named};
use source::XmlCharacters;

// What the word names, AUDIO, DISPLAY or EMAIL: the characters of the element whose content begins at `inside`.
pub fn text_action(s: &[u8], inside: usize) -> Option<Action>
    requires { (length s.now ≤ 65535) × (inside ≤ length s.now) }
    ensures { result ≡ action_named (characters_of (nodes_at s.now inside)) }
{
    action_named::<XmlCharacters>(true, s, 2 * inside)
}
