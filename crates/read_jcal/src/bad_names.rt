// Names that can't be carried. See crate jcal, specs/Property.antt.
ghost use Rattle.std.specs.Prelude.{◌≡◌, [], ◌<◌, length};
ghost use Rattle.octets.specs.Pick.{◌or◌};
ghost use Rattle.octets.specs.Lists.{any_one};
ghost use Rattle.octets.specs.Reading.{and_then, read_or};
ghost use Rattle.json_text.specs.Kinds.{as_string, as_object};
ghost use Rattle.jcal.specs.Property.{is_bad_property, is_bad_parameter, passes};
ghost use Rattle.read_json.specs.TreeAt.{string_at};
ghost use Rattle.read_jcal.specs.Arrays.{found, Inside, ThreeIn};

use crate::Three;
use markup::element;
use names::is_word;
use read_jcal_parameters::{is_bad_name, names_bad};
use read_json::Head;
use read_json::kinds::{is_object, is_string};
use source::JsonCharacters;

// The string at `place` is a name that no property has.
fn is_bad_property(s: &[u8], place: usize) -> bool
    requires { place < length s.now }
    ensures { result ≡ is_bad_property (string_at s.now place) }
{
    is_bad_name(s, place)
        || is_word::<JsonCharacters>(s, 2 * (place + 1), &element::BEGIN)
        || is_word::<JsonCharacters>(s, 2 * (place + 1), &element::END)
}

// The element is such a name.
fn has_bad_property(s: &[u8], h: Head) -> bool
    requires { Inside s.now h }
    ensures { result ≡ passes is_bad_property (and_then (found s.now h) as_string) }
{
    is_string(h.kind) && is_bad_property(s, h.place)
}

// The element is an object with a member whose name no parameter has.
fn has_bad_parameter(s: &[u8], h: Head) -> bool
    ensures { result ≡ any_one is_bad_parameter (read_or [] (and_then (found s.now h) as_object)) }
{
    is_object(h.kind) && names_bad(s, h.next)
}

// Of the elements of a property's array, the name or a parameter's name is such a name.
pub fn has_bad_names(s: &[u8], p: Three) -> bool
    requires { ThreeIn s.now p }
    ensures { result ≡ (passes is_bad_property (and_then (found s.now p.first) as_string)
        or any_one is_bad_parameter (read_or [] (and_then (found s.now p.second) as_object))) }
{
    has_bad_property(s, p.first) || has_bad_parameter(s, p.second)
}
