// The end of an element, by its tag.
ghost use Rattle.std.specs.Prelude.{◌≤◌, length};
ghost use Rattle.read_xml_nodes.specs.HeadFound.{NodeEnded};

use crate::Ended;
use crate::closing::element_end;

// The end of the element at `at` whose tag reaches to `next`; the end of an empty tag's element is its own place.
pub fn node_end(s: &[u8], at: usize, opens: bool, next: usize) -> Ended
    requires { next ≤ length s.now }
    ensures { NodeEnded s.now at opens next result }
{
    if opens {
        element_end(s, next)
    } else {
        Ended { place: at, next }
    }
}
