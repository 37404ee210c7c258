// The values of a property, by numbers. See specs/Values.antt.
ghost use Rattle.std.specs.Prelude.{◌≡◌, List, ℕ, ◌≤◌, ◌<◌, length};
ghost use Rattle.octets.specs.Lists.{every};
ghost use Rattle.octets.specs.Reading.{and_then, is_read};
ghost use Rattle.names.specs.Table.{place_of};
ghost use Rattle.schema.specs.Components.{component_names};
ghost use Rattle.schema.specs.Properties.{property_names};
ghost use Rattle.schema.specs.Numbers.{type_at};
ghost use Rattle.schema.specs.Coded.{row_at};
ghost use Rattle.schema.specs.Sets.{words_at};
ghost use Rattle.json_text.specs.Tree.{element_list};
ghost use Rattle.jcal.specs.Values.{read_geo, read_values};
ghost use Rattle.read_json.specs.TreeAt.{elements_at, string_at};
ghost use Rattle.read_json.specs.Heads.{value_of_head};
ghost use Rattle.read_jcal_value.specs.Elements.{Stands, string_of, array_of};
ghost use Rattle.read_jcal_value.specs.Values.{read_strings, read_word_in, chosen_in, one_at};

use crate::own::{is_geo, is_status};
use crate::typed::typed_read;
use read_json::kinds::{is_array, is_string, is_there};
use read_json::{Head, element_at, element_next};
use schema::{Context, has_words, permits_type, property, read_word_of};
use source::JsonCharacters;

// The string at `q` is a word of the closed set of a property in a component.
fn is_word(k: usize, p: usize, s: &[u8], q: usize) -> bool
    requires { q < length s.now }
    ensures { result ≡ is_read (read_word_in (words_at k p) (string_at s.now q)) }
{
    read_word_of::<JsonCharacters>(k, p, true, s, 2 * (q + 1)).is_some()
}

fn word_read(k: usize, p: usize, s: &[u8], h: Head) -> bool
    requires { Stands s.now h }
    ensures { result ≡ is_read (and_then (string_of s.now h) (read_word_in (words_at k p))) }
{
    is_string(h.kind) && is_word(k, p, s, h.place)
}

fn geo_read(s: &[u8], h: Head) -> bool
    ensures { result ≡ is_read (and_then (array_of s.now h) read_geo) }
{
    is_array(h.kind) && is_geo(s, h.next)
}

fn status_read(s: &[u8], h: Head) -> bool
    ensures { result ≡ is_read (and_then (array_of s.now h) read_strings) }
{
    is_array(h.kind) && is_status(s, h.next)
}

// A word of the closed set that the property has in the component, or a value of the type.
fn chosen_read(context: Context, s: &[u8], h: Head) -> bool
    requires { Stands s.now h }
    ensures { result
        ≡ chosen_in (words_at context.component context.row.number) context.value_type s.now h }
{
    if has_words(context.component, context.row.number) {
        word_read(context.component, context.row.number, s, h)
    } else {
        typed_read(context.value_type, s, h)
    }
}

// The element is a value of the property.
fn one_read(context: Context, s: &[u8], h: Head) -> bool
    requires { Stands s.now h }
    ensures { result ≡ one_at context (value_of_head s.now h) }
{
    let p = context.row.number;
    if p == property::GEO {
        return geo_read(s, h);
    }
    if p == property::REQUEST_STATUS {
        return status_read(s, h);
    }
    chosen_read(context, s, h)
}

// Each element from `from` on is one.
fn all_read(context: Context, s: &[u8], from: usize) -> bool
    ensures { result ≡ every (one_at context) (element_list (elements_at s.now from)) }
{
    let mut c = from;
    loop {
        let h = element_at(s, c);
        if !is_there(h.kind) {
            return true;
        }
        if !one_read(context, s, h) {
            return false;
        }
        c = element_next(s, h);
    }
}

// The elements from `from` on are values of the context's property, of its type.
pub fn values_read(context: Context, s: &[u8], from: usize) -> bool
    ensures { (c w : List ℕ) →
        context.component ≡ place_of c component_names →
        context.row ≡ row_at (place_of w property_names) →
        context.value_type ≤ 14 →
        result
        ≡ is_read (read_values c w (type_at context.value_type) (element_list (elements_at s.now from))) }
{
    permits_type(context.row, context.value_type) && all_read(context, s, from)
}
