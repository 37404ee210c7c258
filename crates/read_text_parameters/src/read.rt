// Parameters that can be read. See specs/Readable.antt.
ghost use Rattle.std.specs.Prelude.{◌≡◌, true};
ghost use Rattle.octets.specs.Pick.{◌or◌};
ghost use Rattle.octets.specs.Reading.{is_read};
ghost use Rattle.schema.specs.Numbers.{parameter_at};
ghost use Rattle.read_text_line.specs.Cursor.{values_at};
ghost use Rattle.read_text_line.specs.Decoded.{values_in, params_in};
ghost use Rattle.text.specs.Parameters.{is_single, read_parameters};
ghost use Rattle.read_text_parameters.specs.Cutting.{param_read};
ghost use Rattle.read_text_parameters.specs.Readable.{is_read_by, is_readable};

use crate::cut::{is_value_name, number_of};
use crate::several::{are_values, is_single};
use edition::Edition;
use read_text_line::next_param;
use schema::is_listed_parameter;
use source::Cuttable;

// One value, unless the parameter is listed.
fn has_amount<E: Cuttable>(q: usize, s: &[u8], first: usize) -> bool
    ensures { result ≡ ((parameter_at q).listed or is_single (values_at E.encoding s.now first)) }
{
    is_listed_parameter(q) || is_single::<E>(s, first)
}

// The values from the cursor `first` on are those of a parameter of the number `q`.
pub fn is_parameter<E: Cuttable>(edition: Edition, q: usize, s: &[u8], first: usize) -> bool
    ensures { result ≡ is_read_by (parameter_at q) (values_in edition E.encoding s.now first) }
{
    has_amount::<E>(q, s, first) && are_values::<E>(edition, q, s, first)
}

// A parameter is VALUE, or can be read.
fn is_readable<E: Cuttable>(
    edition: Edition,
    s: &[u8],
    name: usize,
    end: usize,
    first: usize,
) -> bool
    ensures { result ≡ is_readable (param_read edition E.encoding s.now name end first) }
{
    let value = is_value_name::<E>(s, name, end);
    if value {
        return true;
    }
    let q = number_of::<E>(s, name, end);
    is_parameter::<E>(edition, q, s, first)
}

// All parameters from the cursor `e` on, but VALUE, can be read.
pub fn are_read<E: Cuttable>(edition: Edition, s: &[u8], e: usize) -> bool
    ensures { result ≡ is_read (read_parameters (params_in edition E.encoding s.now e)) }
{
    let mut c = e;
    while let Ok(Some(a)) = next_param::<E>(s, c) {
        if !is_readable::<E>(edition, s, a.name, a.end, a.first) {
            return false;
        }
        c = a.next;
    }
    true
}
