// Bytes that are characters of their own.
ghost use Rattle.std.specs.Prelude.{◌≡◌};
ghost use Rattle.read_xml_nodes.specs.Plain.{is_plain};

use octets::unit::{AMPERSAND, CR, LESS, RIGHT_BRACKET};

// A byte that is a character of its own, whatever follows it: none of `<`, `&`, `]` and CR.
#[tactic(auto, using(octets::specs::laws::Pick::branching_joined))]
pub fn is_plain(b: usize) -> bool
    ensures { result ≡ is_plain b }
{
    b != LESS && b != AMPERSAND && b != RIGHT_BRACKET && b != CR
}
