// What stands before the root. See crate xml, specs/Prolog.antt.
ghost use Rattle.std.specs.Prelude.{◌≡◌, ◌≤◌, length};
ghost use Rattle.xml.specs.Prolog.{xml_decl, prolog};
ghost use Rattle.read_xml_tokens.specs.Ends.{Ends};

use crate::pieces::{any_case_attribute_at, attribute_at, blank_at, exactly_at};
use markup::declaration;

fn declaration_at(s: &[u8], at: usize) -> usize
    ensures { Ends xml_decl s.now at result }
{
    let a = exactly_at(s, at, &declaration::START);
    let b = attribute_at(s, a, &declaration::VERSION, &declaration::ONE);
    let c = any_case_attribute_at(s, b, &declaration::ENCODING, &declaration::UTF8);
    let d = blank_at(s, c);
    exactly_at(s, d, &declaration::END)
}

// The place of the root's tag.
pub fn prolog_end(s: &[u8]) -> usize
    ensures { (result ≡ prolog s.now) × (result ≤ length s.now) }
{
    let a = declaration_at(s, 0);
    let e = blank_at(s, a);
    if e <= s.len() {
        return e;
    }
    0
}
