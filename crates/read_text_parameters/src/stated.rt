// The type that a line states. See specs/Stating.antt.
ghost use Rattle.std.specs.Prelude.{◌≡◌, true, take};
ghost use Rattle.octets.specs.Class.{upper};
ghost use Rattle.source.specs.Source.{rest};
ghost use Rattle.edition.specs.Edition.{decode};
ghost use Rattle.schema.specs.Types.{type_named};
ghost use Rattle.read_text_line.specs.Decoded.{values_in};
ghost use Rattle.text.specs.Parameters.{type_in};
ghost use Rattle.read_text_parameters.specs.Stating.{TypeOf, StatedAt};

use crate::cut::is_value_name;
use crate::several::is_last;
use edition::Edition;
use octets::smaller;
use read_text_line::{next_param, param_value};
use schema::{type_number, value_type};
use source::{Carets, Cuttable, Encoding};

// The type of a name, if it is one's.
fn named_type<E: Encoding>(s: &[u8], from: usize, to: usize) -> Option<usize>
    ensures { TypeOf (type_named (upper (rest E.encoding (take to s.now) from))) result }
{
    let e = smaller(to, s.len());
    let t = type_number::<E>(&s[..e], from);
    if t < value_type::KNOWN { Some(t) } else { None }
}

// The type of a word that is a value.
fn type_of_word<E: Cuttable>(edition: Edition, s: &[u8], from: usize, to: usize) -> Option<usize>
    ensures { TypeOf (type_named (upper (decode edition (rest E.encoding (take to s.now) from)))) result }
{
    match edition {
        Edition::Rfc5545 => named_type::<E>(s, from, to),
        Edition::Rfc6868 => named_type::<Carets<E>>(s, from, to),
    }
}

// The type that VALUE's one value names, if it names one.
pub fn type_in<E: Cuttable>(edition: Edition, s: &[u8], at: usize) -> Option<usize>
    ensures { TypeOf (type_in (values_in edition E.encoding s.now at)) result }
{
    let Ok(v) = param_value::<E>(s, at) else {
        return None;
    };
    if is_last::<E>(s, v.next) {
        return type_of_word::<E>(edition, s, v.from, v.to);
    }
    None
}

// The type that VALUE names, of the parameters from the cursor `e` on, or the property's default.
pub fn stated_type<E: Cuttable>(
    edition: Edition,
    default: usize,
    s: &[u8],
    e: usize,
) -> Option<usize>
    ensures { (StatedAt edition) default E.encoding s.now e result }
{
    let mut c = e;
    while let Ok(Some(a)) = next_param::<E>(s, c) {
        if is_value_name::<E>(s, a.name, a.end) {
            return type_in::<E>(edition, s, a.first);
        }
        c = a.next;
    }
    Some(default)
}
