// PERIOD: an array of two strings, the start, and the duration or the end.
ghost use Rattle.std.specs.Prelude.{◌≡◌, ◌<◌, length};
ghost use Rattle.octets.specs.Reading.{is_read};
ghost use Rattle.json_text.specs.Tree.{element_list};
ghost use Rattle.jcal.specs.Values.{read_period};
ghost use Rattle.read_json.specs.TreeAt.{elements_at, string_at};
ghost use Rattle.read_jcal_value.specs.Typed.{pair_in};

use crate::elements::{is_end, leaf_at};
use crate::leaves::is_string_of;
use schema::value_type;

// The strings at `p` and `q`.
fn is_pair(s: &[u8], p: usize, q: usize) -> bool
    requires { (p < length s.now) × (q < length s.now) }
    ensures { result ≡ pair_in (string_at s.now p) (string_at s.now q) }
{
    is_string_of(value_type::DATE_TIME, s, p)
        && (is_string_of(value_type::DURATION, s, q) || is_string_of(value_type::DATE_TIME, s, q))
}

// The array whose content begins at `from`.
pub fn is_period(s: &[u8], from: usize) -> bool
    ensures { result ≡ is_read (read_period (element_list (elements_at s.now from))) }
{
    let Some(start) = leaf_at(false, s, from) else {
        return false;
    };
    let Some(other) = leaf_at(false, s, start.next) else {
        return false;
    };
    is_end(s, other.next) && is_pair(s, start.place, other.place)
}
