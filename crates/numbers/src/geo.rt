// GEO in text: two FLOAT values with a semicolon between them. `float::put_float_to` writes the latitude, up to the semicolon from where GEO begins, and
// `float::put_float` the longitude, from the cursor that `read_geo` answers.
ghost use Rattle.numbers.specs.ReadGeo.{Parted, ReadsGeo};

use crate::float::{float_to, read_float};
use octets::unit::{END, SEMICOLON};
use source::{Encoding, unit};

// The cursor after the first byte `c` from `at` on.
fn after_first<E: Encoding>(c: usize, s: &[u8], at: usize) -> Option<usize>
    ensures { Parted c E.encoding s.now at result }
{
    let mut i = at;
    loop {
        let t = unit::<E>(s, i);
        if t.u == END {
            return None;
        }
        if t.u == c {
            return Some(t.next);
        }
        i = t.next;
    }
}

// The cursor of the longitude.
pub fn read_geo<E: Encoding>(s: &[u8], at: usize) -> Option<usize>
    ensures { ReadsGeo E.encoding s.now at result }
{
    let longitude = after_first::<E>(SEMICOLON, s, at)?;
    if after_first::<E>(SEMICOLON, s, longitude).is_some() {
        return None;
    }
    float_to::<E>(SEMICOLON, s, at)?;
    read_float::<E>(s, longitude)?;
    Some(longitude)
}
