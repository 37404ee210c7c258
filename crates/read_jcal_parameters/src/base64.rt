// ENCODING=BASE64. See specs/Encoded.antt.
ghost use Rattle.std.specs.Prelude.{◌≡◌, ◌<◌, length};
ghost use Rattle.octets.specs.Ascii.{ascii};
ghost use Rattle.octets.specs.Lists.{any_one};
ghost use Rattle.read_json.specs.TreeAt.{string_at};
ghost use Rattle.read_jcal_parameters.specs.Shapes.{list_at, given_at, parameters_at};
ghost use Rattle.read_jcal_parameters.specs.Encoded.{first_is, encoded_by, is_encoded};

use crate::cursor::cursor_of;
use names::is_word;
use read_json::kinds::{is_array, is_string};
use read_json::{element_at, member_at};
use schema::{parameter, parameter_number};
use source::JsonCharacters;

// The first element from `at` on is BASE64.
fn is_first(s: &[u8], at: usize) -> bool
    ensures { result ≡ first_is (ascii "BASE64") (list_at s.now at) }
{
    let h = element_at(s, at);
    is_string(h.kind) && is_word::<JsonCharacters>(s, cursor_of(s, h.place), b"BASE64")
}

// The first of the values that stand from `at` on.
fn is_base64(s: &[u8], at: usize) -> bool
    ensures { result ≡ first_is (ascii "BASE64") (given_at s.now at) }
{
    let h = element_at(s, at);
    if is_array(h.kind) {
        is_first(s, h.next)
    } else {
        is_first(s, at)
    }
}

// The parameter is ENCODING, and its value BASE64.
fn is_encoded(s: &[u8], place: usize, at: usize) -> bool
    requires { place < length s.now }
    ensures { result ≡ encoded_by (string_at s.now place) (given_at s.now at) }
{
    let k = cursor_of(s, place);
    parameter_number::<JsonCharacters>(s, k) == parameter::ENCODING && is_base64(s, at)
}

// Such a parameter stands from `from` on.
pub fn has_encoding(s: &[u8], from: usize) -> bool
    ensures { result ≡ any_one is_encoded (parameters_at s.now from) }
{
    let mut c = from;
    while let Some(m) = member_at(s, c) {
        if is_encoded(s, m.name, m.next) {
            return true;
        }
        c = m.next;
    }
    false
}
