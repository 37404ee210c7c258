// What the tables say: of a property by its row, of a type, a parameter, a component by its number. The tables of bytes are those of specs/ by computation.
ghost use Rattle.std.specs.Prelude.{◌≡◌, eqb};
ghost use Rattle.schema.specs.Types.{type_place};
ghost use Rattle.schema.specs.Numbers.{parameter_at};
ghost use Rattle.schema.specs.Columns.{permits_type, permits_at, stands_at, may_begin};

use crate::table::Row;
use crate::{component, parameter, property, value_type};
use bits::holds;
use octets::wide;

// Whether the values of a property may have the type `t`.
#[tactic(auto, using(octets::specs::laws::Pick::branching_joined), unfolding(crate::specs::Columns::permits_type))]
pub fn permits_type(row: Row, t: usize) -> bool
    ensures { result ≡ permits_type row t }
{
    holds(row.types, t)
}

// Whether a property whose values have the type `t` permits a parameter; RELATED only with DURATION.
#[tactic(auto, using(octets::specs::laws::Pick::branching_joined), unfolding(crate::specs::Columns::permits_at))]
pub fn permits_parameter(row: Row, t: usize, q: usize) -> bool
    ensures { result ≡ permits_at row t q }
{
    if q < parameter::KNOWN && row.number < property::KNOWN {
        return holds(row.parameters, q) && (q != parameter::RELATED || t == value_type::DURATION);
    }
    true
}

// Whether a property may stand in the component `k`; in an unrecognised one every known one may.
#[tactic(auto, using(octets::specs::laws::Pick::branching_joined), unfolding(crate::specs::Columns::stands_at))]
pub fn may_stand(k: usize, row: Row) -> bool
    ensures { result ≡ stands_at k row }
{
    if k < component::KNOWN {
        return holds(row.components, k);
    }
    row.number < property::KNOWN
}

// The type of each parameter's values.
const PARAMETER_TYPES: [u8; 19] = [
    value_type::URI as u8, // ALTREP
    value_type::TEXT as u8, // CN
    value_type::TEXT as u8, // CUTYPE
    value_type::CAL_ADDRESS as u8, // DELEGATED-FROM
    value_type::CAL_ADDRESS as u8, // DELEGATED-TO
    value_type::URI as u8, // DIR
    value_type::TEXT as u8, // ENCODING
    value_type::TEXT as u8, // FMTTYPE
    value_type::TEXT as u8, // FBTYPE
    value_type::TEXT as u8, // LANGUAGE
    value_type::CAL_ADDRESS as u8, // MEMBER
    value_type::TEXT as u8, // PARTSTAT
    value_type::TEXT as u8, // RANGE
    value_type::TEXT as u8, // RELATED
    value_type::TEXT as u8, // RELTYPE
    value_type::TEXT as u8, // ROLE
    value_type::BOOLEAN as u8, // RSVP
    value_type::CAL_ADDRESS as u8, // SENT-BY
    value_type::TEXT as u8, // TZID
];

pub fn parameter_type(q: usize) -> usize
    ensures { result ≡ type_place (parameter_at q).type }
{
    if q < parameter::KNOWN {
        return wide(PARAMETER_TYPES[q]);
    }
    value_type::UNKNOWN
}

// 1 where the parameter takes a list of values.
const LISTED_PARAMETERS: [u8; 19] = *b"0001100000100000000";

pub fn is_listed_parameter(q: usize) -> bool
    ensures { result ≡ (parameter_at q).listed }
{
    if q < parameter::KNOWN {
        return LISTED_PARAMETERS[q] == b'1';
    }
    true
}

// 1 where the parameter's values must be quoted in text.
const QUOTED: [u8; 19] = *b"1001110000100000010";

pub fn is_quoted_parameter(q: usize) -> bool
    ensures { result ≡ (parameter_at q).quoted }
{
    if q < parameter::KNOWN {
        return QUOTED[q] == b'1';
    }
    false
}

// A line for each component, a column for each that may stand directly in it.
const INNER: [u8; 81] = *b"\
    011111000\
    000000001\
    000000001\
    000000000\
    000000000\
    000000110\
    000000000\
    000000000\
    000000000";

// The same of an unrecognised component.
const IN_UNKNOWN: [u8; 9] = *b"011111111";

// Whether the component `k` may stand directly in `parent`.
pub fn may_begin(parent: usize, k: usize) -> bool
    ensures { result ≡ may_begin parent k }
{
    if parent < component::KNOWN {
        if k < component::KNOWN {
            return INNER[parent * component::KNOWN + k] == b'1';
        }
        return parent == component::VCALENDAR;
    }
    if k < component::KNOWN {
        return IN_UNKNOWN[k] == b'1';
    }
    true
}

// The component is VALARM.
pub fn is_alarm(k: usize) -> bool
    ensures { result ≡ eqb k 8 }
{
    k == component::VALARM
}
