// The values of a parameter, from the cursor of its first on. See specs/Readable.antt.
ghost use Rattle.std.specs.Prelude.{◌≡◌, true};
ghost use Rattle.octets.specs.Lists.{every};
ghost use Rattle.octets.specs.Words.{is_empty};
ghost use Rattle.source.specs.Source.{rest};
ghost use Rattle.schema.specs.Numbers.{parameter_at};
ghost use Rattle.read_text_line.specs.ContentLine.{next_value};
ghost use Rattle.read_text_line.specs.Items.{items};
ghost use Rattle.read_text_line.specs.Cursor.{values_at};
ghost use Rattle.text.specs.Parameters.{is_single};
ghost use Rattle.read_text_parameters.specs.Cutting.{value_cut};
ghost use Rattle.read_text_parameters.specs.Typing.{is_value_in};

use crate::typed::is_value_at;
use edition::Edition;
use octets::smaller;
use read_text_line::{next_value, param_value};
use source::{Carets, Cuttable};

// No value follows.
pub fn is_last<E: Cuttable>(s: &[u8], at: usize) -> bool
    ensures { result ≡ is_empty (items next_value (rest E.encoding s.now at)) }
{
    let Ok(Some(v)) = next_value::<E>(s, at) else {
        return true;
    };
    false
}

// There is one value.
pub fn is_single<E: Cuttable>(s: &[u8], at: usize) -> bool
    ensures { result ≡ is_single (values_at E.encoding s.now at) }
{
    let Ok(v) = param_value::<E>(s, at) else {
        return false;
    };
    is_last::<E>(s, v.next)
}

// The characters between two cursors are a value of the parameter of the number `q`.
fn is_cut_value<E: Cuttable>(
    edition: Edition,
    q: usize,
    quoted: bool,
    s: &[u8],
    from: usize,
    to: usize,
) -> bool
    ensures { result ≡ is_value_in edition (parameter_at q) (value_cut E.encoding s.now quoted from to) }
{
    let e = smaller(to, s.len());
    match edition {
        Edition::Rfc5545 => is_value_at::<E>(q, quoted, &s[..e], from),
        Edition::Rfc6868 => is_value_at::<Carets<E>>(q, quoted, &s[..e], from),
    }
}

// Those that follow another value are values of the parameter.
fn are_later_values<E: Cuttable>(edition: Edition, q: usize, s: &[u8], at: usize) -> bool
    ensures { result ≡ every (is_value_in edition (parameter_at q)) (items next_value (rest E.encoding s.now at)) }
{
    let mut c = at;
    while let Ok(Some(v)) = next_value::<E>(s, c) {
        if !is_cut_value::<E>(edition, q, v.quoted, s, v.from, v.to) {
            return false;
        }
        c = v.next;
    }
    true
}

// All are values of the parameter.
pub fn are_values<E: Cuttable>(edition: Edition, q: usize, s: &[u8], at: usize) -> bool
    ensures { result ≡ every (is_value_in edition (parameter_at q)) (values_at E.encoding s.now at) }
{
    let Ok(v) = param_value::<E>(s, at) else {
        return true;
    };
    is_cut_value::<E>(edition, q, v.quoted, s, v.from, v.to)
        && are_later_values::<E>(edition, q, s, v.next)
}
