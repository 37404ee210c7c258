// All that is asked of a line's parameters, in one walk: the type that they state, or the leftmost faulty one. See specs/Walking.antt.
ghost use Rattle.std.specs.Prelude.{◌≡◌, true, ◌+◌, ◌^◌, ◌<◌, eqb};
ghost use Rattle.octets.specs.Pick.{◌or◌};
ghost use Rattle.read_text_line.specs.Cursor.{params_at};
ghost use Rattle.read_text_line.specs.Decoded.{values_in, params_in};
ghost use Rattle.read_text_parameters.specs.Cutting.{name_cut};
ghost use Rattle.read_text_parameters.specs.Comparing.{names_of};
ghost use Rattle.read_text_parameters.specs.Stating.{NumberOf};
ghost use Rattle.read_text_parameters.specs.Walking.{number_of, other_again, comes_again, sought_by, type_for};
ghost use Rattle.read_text_parameters.specs.Walking.{encodes_by, fits_by, behind_at, stated_by, Notes, ended_by};
ghost use Rattle.read_text_parameters.specs.Walking.{ParametersAt};

use crate::ParameterFault;
use crate::base64::is_base64;
use crate::cut::{is_value_name, number_of};
use crate::once::{first_again, stands_before};
use crate::read::is_parameter;
use crate::stated::{stated_type, type_in};
use bits::{holds, insert};
use edition::Edition;
use read_text_line::{ParameterCursors, next_param};
use schema::{Row, parameter, permits_parameter, value_type};
use source::{Cuttable, Encoding};

// The number of VALUE, which is none of the table's.
const VALUE: usize = 20;

// So many parameters are compared with all before them; where there are more, the first that comes again is sought by sorting.
const FEW: usize = 16;

// What a walk has noted: how many parameters there were; which of those that have a number; the place of the first that comes again, once it is sought;
// the type that VALUE named, or the property's default.
#[derive(Clone, Copy)]
pub struct Noted {
    pub count: usize,
    pub seen: u32,
    pub again: usize,
    pub value_type: usize,
}

// The number of a parameter's name.
fn number_at<E: Encoding>(s: &[u8], name: usize, end: usize) -> usize
    ensures { result ≡ number_of (name_cut E.encoding s.now name end) }
{
    let q = number_of::<E>(s, name, end);
    if q < parameter::KNOWN {
        return q;
    }
    let value = is_value_name::<E>(s, name, end);
    if value {
        return VALUE;
    }
    q
}

// The same with the place of the first parameter from the cursor `e` on that comes again, where there are more than a few.
fn sought<E: Cuttable>(n: Noted, s: &[u8], e: usize) -> Noted
    ensures { result ≡ sought_by n (names_of (params_at E.encoding s.now e)) }
{
    let k = n.count;
    if k == FEW {
        let again = first_again::<E>(s, e);
        return Noted {
            count: n.count,
            seen: n.seen,
            again,
            value_type: n.value_type,
        };
    }
    n
}

// A parameter that has no number of its own comes again.
fn is_other_again<E: Cuttable>(n: Noted, s: &[u8], e: usize, name: usize, end: usize) -> bool
    ensures { result ≡ other_again n (name_cut E.encoding s.now name end) (names_of (params_at E.encoding s.now e)) }
{
    let k = n.count;
    if k < FEW {
        return stands_before::<E>(s, e, k, name, end);
    }
    k == n.again
}

// The parameter of the number `q` comes again.
fn is_again<E: Cuttable>(n: Noted, q: usize, s: &[u8], e: usize, a: ParameterCursors) -> bool
    ensures { result ≡ comes_again n q (name_cut E.encoding s.now a.name a.end)
        (names_of (params_at E.encoding s.now e)) }
{
    if q == parameter::KNOWN {
        return is_other_again::<E>(n, s, e, a.name, a.end);
    }
    holds(n.seen, q)
}

// RELATED and ENCODING hang on the type of the value.
fn is_typed(q: usize) -> bool
    ensures { result ≡ (eqb q 13 or eqb q 6) }
{
    if q == parameter::RELATED {
        return true;
    }
    q == parameter::ENCODING
}

// The type by which a parameter is judged: that of the value, which VALUE may name behind it, at the cursor `next`.
fn type_for<E: Cuttable>(edition: Edition, n: Noted, q: usize, s: &[u8], next: usize) -> usize
    ensures { result ≡ type_for q (stated_by n (params_in edition E.encoding s.now next)) }
{
    let typed = is_typed(q);
    if typed {
        let t = n.value_type;
        let named = holds(n.seen, VALUE);
        if named {
            return t;
        }
        let Some(u) = stated_type::<E>(edition, t, s, next) else {
            return value_type::DURATION;
        };
        return u;
    }
    value_type::DURATION
}

// With BINARY, ENCODING is BASE64.
fn is_encoded<E: Cuttable>(edition: Edition, t: usize, q: usize, s: &[u8], first: usize) -> bool
    ensures { result ≡ encodes_by t q (values_in edition E.encoding s.now first) }
{
    if t == value_type::BINARY {
        if q == parameter::ENCODING {
            return is_base64::<E>(edition, s, first);
        }
        return true;
    }
    true
}

// The parameter of the number `q` fits the property, judged by the type `t`.
fn is_fit<E: Cuttable>(
    edition: Edition,
    row: Row,
    t: usize,
    q: usize,
    s: &[u8],
    first: usize,
) -> bool
    ensures { result ≡ fits_by row t q (values_in edition E.encoding s.now first) }
{
    let permitted = permits_parameter(row, t, q);
    if permitted {
        let read = is_parameter::<E>(edition, q, s, first);
        if read {
            return is_encoded::<E>(edition, t, q, s, first);
        }
        return false;
    }
    false
}

// The type behind a parameter of the number `q`, if that is sound.
fn type_behind<E: Cuttable>(
    edition: Edition,
    row: Row,
    n: Noted,
    q: usize,
    s: &[u8],
    a: ParameterCursors,
) -> Option<usize>
    ensures { NumberOf (behind_at row (stated_by n (params_in edition E.encoding s.now a.next)) n.value_type q
        (values_in edition E.encoding s.now a.first)) result }
{
    if q == VALUE {
        return type_in::<E>(edition, s, a.first);
    }
    let t = type_for::<E>(edition, n, q, s, a.next);
    let fit = is_fit::<E>(edition, row, t, q, s, a.first);
    if fit {
        return Some(n.value_type);
    }
    None
}

// One parameter more, of the number `q`, and the type behind it.
fn added(n: Noted, q: usize, t: usize) -> Noted
    requires { (q < 32) × (n.count + 1 < 2 ^ 64) }
    ensures { Notes n q t result }
{
    let seen = insert(n.seen, q);
    Noted {
        count: n.count + 1,
        seen,
        again: n.again,
        value_type: t,
    }
}

// All parameters are sound.
fn ended(n: Noted) -> Result<usize, ParameterFault>
    ensures { result ≡ ended_by n }
{
    let t = n.value_type;
    if t == value_type::BINARY {
        let encoded = holds(n.seen, parameter::ENCODING);
        if encoded {
            return Ok(t);
        }
        return Err(ParameterFault::Unencoded);
    }
    Ok(t)
}

// The parameters from the cursor `e` on, of a property.
pub fn read_parameters<E: Cuttable>(
    edition: Edition,
    row: Row,
    s: &[u8],
    e: usize,
) -> Result<usize, ParameterFault>
    ensures { ParametersAt row (params_in edition E.encoding s.now e) result }
{
    let mut c = e;
    let mut n = Noted {
        count: 0,
        seen: 0,
        again: 0,
        value_type: row.default,
    };
    while let Ok(Some(a)) = next_param::<E>(s, c) {
        let q = number_at::<E>(s, a.name, a.end);
        let m = sought::<E>(n, s, e);
        if is_again::<E>(m, q, s, e, a) {
            return Err(ParameterFault::Faulty(n.count));
        }
        let Some(t) = type_behind::<E>(edition, row, m, q, s, a) else {
            return Err(ParameterFault::Faulty(n.count));
        };
        n = added(m, q, t);
        c = a.next;
    }
    ended(n)
}
