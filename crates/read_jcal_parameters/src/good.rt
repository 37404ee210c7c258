// The check of a property's parameters. See specs/Sound.antt.
ghost use Rattle.std.specs.Prelude.{◌≡◌, List, ℕ, ◌≤◌, ◌<◌, length};
ghost use Rattle.octets.specs.Lists.{every};
ghost use Rattle.names.specs.Table.{place_of};
ghost use Rattle.schema.specs.Properties.{property_names};
ghost use Rattle.schema.specs.Numbers.{type_at};
ghost use Rattle.schema.specs.Coded.{row_at};
ghost use Rattle.json_text.specs.Tree.{member_list};
ghost use Rattle.jcal.specs.Parameters.{parameters_good};
ghost use Rattle.read_json.specs.TreeAt.{members_at, string_at};
ghost use Rattle.read_jcal_parameters.specs.Shapes.{given_at, parameters_at};
ghost use Rattle.read_jcal_parameters.specs.Sound.{sound_by, is_sound, encoded_for, good_by};

use crate::apart::are_apart;
use crate::base64::has_encoding;
use crate::cursor::cursor_of;
use crate::several::are_good;
use edition::Edition;
use read_json::member_at;
use schema::{Row, parameter_number, permits_parameter, value_type};
use source::JsonCharacters;

// The parameter is permitted, and its values are good.
fn is_sound(edition: Edition, row: Row, t: usize, s: &[u8], place: usize, at: usize) -> bool
    requires { place < length s.now }
    ensures { result ≡ sound_by edition row t (string_at s.now place) (given_at s.now at) }
{
    let k = cursor_of(s, place);
    let q = parameter_number::<JsonCharacters>(s, k);
    permits_parameter(row, t, q) && are_good(edition, q, s, at)
}

// All parameters from `from` on.
fn are_sound(edition: Edition, row: Row, t: usize, s: &[u8], from: usize) -> bool
    ensures { result ≡ every (is_sound edition row t) (parameters_at s.now from) }
{
    let mut c = from;
    while let Some(m) = member_at(s, c) {
        if !is_sound(edition, row, t, s, m.name, m.next) {
            return false;
        }
        c = m.next;
    }
    true
}

// A value of the type of the number `t` is there: with BINARY, ENCODING=BASE64.
fn are_encoded(t: usize, s: &[u8], from: usize) -> bool
    ensures { result ≡ encoded_for t (parameters_at s.now from) }
{
    t != value_type::BINARY || has_encoding(s, from)
}

// None is repeated, each is sound, and a value of type BINARY has its encoding.
fn are_good_by(edition: Edition, row: Row, t: usize, s: &[u8], from: usize) -> bool
    ensures { result ≡ good_by edition row t (parameters_at s.now from) }
{
    are_apart(s, from) && are_sound(edition, row, t, s, from) && are_encoded(t, s, from)
}

// The parameters from `from` on are good, of the property of the row with a value of the type of the number `t`.
pub fn parameters_good(edition: Edition, row: Row, t: usize, s: &[u8], from: usize) -> bool
    ensures { (w : List ℕ) →
        row ≡ row_at (place_of w property_names) →
        t ≤ 14 →
        result ≡ parameters_good edition w (type_at t) (member_list (members_at s.now from)) }
{
    are_good_by(edition, row, t, s, from)
}
