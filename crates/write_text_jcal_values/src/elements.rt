// The elements of an array by places, whatever the bytes are. See specs/Elements.antt.
ghost use Rattle.std.specs.Prelude.{◌≡◌, ◌≤◌, length};
ghost use Rattle.source.specs.Source.{rest};
ghost use Rattle.jcal.specs.Components.{stream_in};
ghost use Rattle.json_text.specs.Tree.{first_of};
ghost use Rattle.read_json.specs.TreeAt.{elements_at, members_at};
ghost use Rattle.write_text_jcal_values.specs.Elements.{without, characters_in, members_in};

use read_json::kinds::{is_array, is_object, is_string};
use read_json::{element_at, element_next};

// The place from where on the elements behind the first `k` stand.
pub fn skip(s: &[u8], from: usize, k: usize) -> usize
    ensures { elements_at s.now result ≡ without k (elements_at s.now from) }
{
    let mut at = from;
    let mut i = 0;
    while i < k {
        let h = element_at(s, at);
        at = element_next(s, h);
        i += 1;
    }
    at
}

// The cursor of the string that stands first from `at` on; where there is none, the end, from where on there are no characters.
pub fn string_at(s: &[u8], at: usize) -> usize
    requires { length s.now ≤ 65535 }
    ensures { rest 3 s.now result ≡ characters_in (elements_at s.now at) }
{
    let h = element_at(s, at);
    let kind = h.kind;
    let string = is_string(kind);
    if string {
        return 2 * (h.place + 1);
    }
    2 * s.len()
}

// Where the content of the array begins that stands first from `at` on; where there is none, the end.
pub fn array_at(s: &[u8], at: usize) -> usize
    ensures { elements_at s.now result ≡ stream_in (first_of (elements_at s.now at)) }
{
    let h = element_at(s, at);
    let kind = h.kind;
    let array = is_array(kind);
    if array {
        return h.next;
    }
    s.len()
}

// The same of an object.
pub fn object_at(s: &[u8], at: usize) -> usize
    ensures { members_at s.now result ≡ members_in (first_of (elements_at s.now at)) }
{
    let h = element_at(s, at);
    let kind = h.kind;
    let object = is_object(kind);
    if object {
        return h.next;
    }
    s.len()
}
