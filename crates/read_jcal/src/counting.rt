// The action that an ACTION names. See specs/Counting.antt.
ghost use Rattle.std.specs.Prelude.{◌≡◌, ◌<◌, length};
ghost use Rattle.schema.specs.Completing.{action_named};
ghost use Rattle.json_text.specs.Tree.{element_list};
ghost use Rattle.read_json.specs.TreeAt.{elements_at, string_at};
ghost use Rattle.read_jcal.specs.Counting.{action_in, ActionAt};

use read_json::element_at;
use read_json::kinds::is_string;
use schema::{Action, action_named, property};
use source::JsonCharacters;

// The action that the string at `place` names.
fn string_action(s: &[u8], place: usize) -> Option<Action>
    requires { place < length s.now }
    ensures { result ≡ action_named (string_at s.now place) }
{
    action_named::<JsonCharacters>(true, s, 2 * (place + 1))
}

// The same of the first element from `from` on, where it is a string.
fn first_action(s: &[u8], from: usize) -> Option<Action>
    ensures { result ≡ action_in (element_list (elements_at s.now from)) }
{
    let h = element_at(s, from);
    if is_string(h.kind) {
        return string_action(s, h.place);
    }
    None
}

// The same of the values of the property of the number `p`, where it is an ACTION.
pub fn action_of(p: usize, s: &[u8], from: usize) -> Option<Action>
    ensures { ActionAt p (element_list (elements_at s.now from)) result }
{
    if p == property::ACTION {
        return first_action(s, from);
    }
    None
}
