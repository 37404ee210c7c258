// The faults of a property's line. See specs/Faults.antt.
ghost use Rattle.std.specs.Prelude.{◌≡◌, true};
ghost use Rattle.source.specs.Source.{rest};
ghost use Rattle.read_text_line.specs.Decoded.{params_in};
ghost use Rattle.read_text_property.specs.ValuesAt.{good_at};
ghost use Rattle.read_text_property.specs.Faults.{FaultIs, value_fault, fault_at};

use crate::LineFault;
use crate::own::read_values;
use edition::Edition;
use read_text_line::LineCursors;
use read_text_parameters::{ParameterFault, read_parameters};
use schema::{Context, Row};
use source::Cuttable;

// The fault of the value from the cursor on, if there is one.
fn value_fault<E: Cuttable>(c: Context, s: &[u8], at: usize) -> Option<LineFault>
    ensures { result ≡ value_fault (good_at c.component c.row c.value_type (rest E.encoding s.now at)) }
{
    let Some(n) = read_values::<E>(c, s, at) else {
        return Some(LineFault::Value);
    };
    None
}

// The lowest fault, if there is one, of a line of the property of the row in the component `k`.
pub fn property_fault<E: Cuttable>(
    edition: Edition,
    k: usize,
    row: Row,
    s: &[u8],
    l: LineCursors,
) -> Option<LineFault>
    ensures { FaultIs (fault_at k row (params_in edition E.encoding s.now l.parameters)
        (rest E.encoding s.now l.value)) result }
{
    match read_parameters::<E>(edition, row, s, l.parameters) {
        Ok(t) => {
            let c = Context {
                component: k,
                row,
                value_type: t,
            };
            value_fault::<E>(c, s, l.value)
        }
        Err(ParameterFault::Faulty(i)) => Some(LineFault::Parameter(i)),
        Err(ParameterFault::Unencoded) => Some(LineFault::Encoding),
    }
}
