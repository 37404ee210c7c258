// The properties that have a form of their own: GEO, an array of two numbers, and REQUEST-STATUS, an array of two or three strings.
ghost use Rattle.std.specs.Prelude.{◌≡◌, ◌≤◌, length};
ghost use Rattle.octets.specs.Reading.{and_then, is_read, read_each};
ghost use Rattle.json_text.specs.Tree.{element_list};
ghost use Rattle.json_text.specs.Kinds.{as_string};
ghost use Rattle.jcal.specs.Values.{read_geo, read_status};
ghost use Rattle.read_json.specs.TreeAt.{elements_at, word_at};
ghost use Rattle.read_jcal_value.specs.Typed.{geo_in};

use crate::elements::{Leaf, is_end, leaf_at};
use crate::leaves::is_word_of;
use schema::value_type;

// The numbers of the bytes of two elements.
fn is_place(s: &[u8], latitude: Leaf, longitude: Leaf) -> bool
    requires { (latitude.next ≤ length s.now) × (longitude.next ≤ length s.now) }
    ensures { result
        ≡ geo_in (word_at s.now latitude.place latitude.next) (word_at s.now longitude.place longitude.next) }
{
    is_word_of(value_type::FLOAT, s, latitude.place, latitude.next)
        && is_word_of(value_type::FLOAT, s, longitude.place, longitude.next)
}

// The array whose content begins at `from`.
pub fn is_geo(s: &[u8], from: usize) -> bool
    ensures { result ≡ is_read (read_geo (element_list (elements_at s.now from))) }
{
    let Some(latitude) = leaf_at(true, s, from) else {
        return false;
    };
    let Some(longitude) = leaf_at(true, s, latitude.next) else {
        return false;
    };
    is_end(s, longitude.next) && is_place(s, latitude, longitude)
}

// The same of REQUEST-STATUS.
pub fn is_status(s: &[u8], from: usize) -> bool
    ensures { result ≡ is_read (and_then (read_each as_string (element_list (elements_at s.now from))) read_status) }
{
    let Some(code) = leaf_at(false, s, from) else {
        return false;
    };
    let Some(text) = leaf_at(false, s, code.next) else {
        return false;
    };
    if is_end(s, text.next) {
        return true;
    }
    let Some(data) = leaf_at(false, s, text.next) else {
        return false;
    };
    is_end(s, data.next)
}
