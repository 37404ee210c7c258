// The values of a property in a component, by its row. See specs/ValuesAt.antt.
ghost use Rattle.std.specs.Prelude.{◌≡◌, true};
ghost use Rattle.octets.specs.Reading.{is_read};
ghost use Rattle.source.specs.Source.{rest};
ghost use Rattle.schema.specs.Numbers.{type_at};
ghost use Rattle.schema.specs.Sets.{words_at};
ghost use Rattle.numbers.specs.Geo.{read_geo};
ghost use Rattle.texts.specs.RequestStatus.{read_request_status};
ghost use Rattle.text.specs.Values.{read_chosen};
ghost use Rattle.read_text_property.specs.ValuesAt.{own_at, good_at, values_read};

use crate::list::read_listed;
use numbers::geo::read_geo;
use schema::{Context, has_words, permits_type, property, read_word_of};
use source::{Cuttable, Encoding};
use texts::read_request_status;
use values::read_value;

// GEO.
fn read_geo_value<E: Encoding>(t: usize, s: &[u8], at: usize) -> Option<usize>
    ensures { result ≡ values_read t (is_read (read_geo (rest E.encoding s.now at))) }
{
    let Some(e) = read_geo::<E>(s, at) else {
        return None;
    };
    Some(t)
}

// REQUEST-STATUS.
fn read_status<E: Encoding>(t: usize, s: &[u8], at: usize) -> Option<usize>
    ensures { result ≡ values_read t (is_read (read_request_status (rest E.encoding s.now at))) }
{
    let Some(p) = read_request_status::<E>(s, at) else {
        return None;
    };
    Some(t)
}

// One value: a word of the property's closed set where it has one.
fn read_chosen<E: Cuttable>(c: Context, s: &[u8], at: usize) -> Option<usize>
    ensures { result ≡ values_read c.value_type (is_read
        (read_chosen (words_at c.component c.row.number) (type_at c.value_type)
        (rest E.encoding s.now at))) }
{
    let p = c.row.number;
    let closed = has_words(c.component, p);
    if closed {
        let Some(i) = read_word_of::<E>(c.component, p, false, s, at) else {
            return None;
        };
        return Some(c.value_type);
    }
    let Some(v) = read_value::<E>(false, c.value_type, s, at) else {
        return None;
    };
    Some(c.value_type)
}

// The values of a property.
fn read_own<E: Cuttable>(c: Context, s: &[u8], at: usize) -> Option<usize>
    ensures { result ≡ values_read c.value_type
        (own_at c.component c.row c.value_type (rest E.encoding s.now at)) }
{
    let p = c.row.number;
    if p == property::GEO {
        return read_geo_value::<E>(c.value_type, s, at);
    }
    if p == property::REQUEST_STATUS {
        return read_status::<E>(c.value_type, s, at);
    }
    if c.row.listed {
        return read_listed::<E>(c.value_type, s, at);
    }
    read_chosen::<E>(c, s, at)
}

// The values from the cursor to the end, where the property permits the type: the number of the type, if they are good.
pub fn read_values<E: Cuttable>(c: Context, s: &[u8], at: usize) -> Option<usize>
    ensures { result ≡ values_read c.value_type
        (good_at c.component c.row c.value_type (rest E.encoding s.now at)) }
{
    if permits_type(c.row, c.value_type) {
        return read_own::<E>(c, s, at);
    }
    None
}
