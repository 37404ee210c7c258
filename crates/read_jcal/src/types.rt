// The type that a property's array names. See specs/Types.antt.
ghost use Rattle.std.specs.Prelude.{◌≡◌, ◌<◌, length};
ghost use Rattle.names.specs.Table.{place_of};
ghost use Rattle.schema.specs.Numbers.{type_words};
ghost use Rattle.read_json.specs.TreeAt.{string_at};
ghost use Rattle.read_jcal.specs.Arrays.{Inside};
ghost use Rattle.read_jcal.specs.Types.{TypeAt};

use markup::table;
use names::find_word;
use read_json::Head;
use read_json::kinds::is_string;
use schema::value_type;
use source::JsonCharacters;

// The place of the string at `place` among the words of the types.
fn type_word(s: &[u8], place: usize) -> usize
    requires { place < length s.now }
    ensures { result ≡ place_of (string_at s.now place) type_words }
{
    find_word::<JsonCharacters>(true, s, 2 * (place + 1), &table::TYPES)
}

// The type that an element names.
pub fn type_of(s: &[u8], h: Head) -> Option<usize>
    requires { Inside s.now h }
    ensures { TypeAt s.now h result }
{
    if !is_string(h.kind) {
        return None;
    }
    let t = type_word(s, h.place);
    if t <= value_type::UNKNOWN {
        Some(t)
    } else {
        None
    }
}
