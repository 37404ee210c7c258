// Parameters: RFC 5545's param = param-name "=" param-value *("," param-value).
ghost use Rattle.std.specs.Prelude.{◌≡◌};
ghost use Rattle.octets.specs.Class.{is_name_char};
ghost use Rattle.octets.specs.Runs.{run_of};
ghost use Rattle.octets.specs.Words.{is_empty};
ghost use Rattle.source.specs.Source.{rest};
ghost use Rattle.read_text_line.specs.ContentLine.{param, next_param};
ghost use Rattle.read_text_line.specs.Cursor.{there};
ghost use Rattle.read_text_line.specs.Repeating.{AllAt};
ghost use Rattle.read_text_line.specs.Params.{bad_param, named_param, ParamOf};

use crate::value::values;
use crate::{Malformed, ParameterCursors};
use names::name_end;
use octets::is_name_char;
use octets::unit::{EQUALS, SEMICOLON};
use source::{Encoding, unit};

// No name is there.
pub fn no_name<E: Encoding>(s: &[u8], at: usize) -> bool
    ensures { result ≡ is_empty (run_of is_name_char (rest E.encoding s.now at)) }
{
    let n = unit::<E>(s, at);
    !is_name_char(n.u)
}

// A parameter without a name, or without an equals sign: the cursor where it begins.
fn bad_param(at: usize) -> Malformed<ParameterCursors>
    ensures { result.read ≡ bad_param at }
{
    Malformed {
        read: ParameterCursors {
            name: at,
            end: at,
            first: at,
            next: at,
        },
    }
}

// Behind the semicolon, where a name is there.
fn named_param<E: Encoding>(
    s: &[u8],
    at: usize,
) -> Result<ParameterCursors, Malformed<ParameterCursors>>
    ensures { ParamOf named_param E.encoding s.now at (there result) }
{
    let end = name_end::<E>(s, at);
    let n = unit::<E>(s, end);
    if n.u == EQUALS {
        return match values::<E>(s, n.next) {
            Ok(next) => Ok(ParameterCursors {
                name: at,
                end,
                first: n.next,
                next,
            }),
            Err(fault) => Err(Malformed {
                read: ParameterCursors {
                    name: at,
                    end,
                    first: n.next,
                    next: fault.read,
                },
            }),
        };
    }
    Err(bad_param(at))
}

// Behind the semicolon.
fn param_at<E: Encoding>(
    s: &[u8],
    at: usize,
) -> Result<ParameterCursors, Malformed<ParameterCursors>>
    ensures { ParamOf param E.encoding s.now at (there result) }
{
    if no_name::<E>(s, at) {
        return Err(bad_param(at));
    }
    named_param::<E>(s, at)
}

// A semicolon and a parameter, if a semicolon is there.
pub fn next_param<E: Encoding>(
    s: &[u8],
    at: usize,
) -> Result<Option<ParameterCursors>, Malformed<ParameterCursors>>
    ensures { ParamOf next_param E.encoding s.now at result }
{
    let n = unit::<E>(s, at);
    if n.u == SEMICOLON {
        let p = param_at::<E>(s, n.next)?;
        return Ok(Some(p));
    }
    Ok(None)
}

// All parameters: the cursor behind them, on Err behind those before the wrong one.
pub fn next_params<E: Encoding>(s: &[u8], at: usize) -> Result<usize, Malformed<usize>>
    ensures { AllAt next_param E.encoding s.now at result }
{
    let mut c = at;
    loop {
        match next_param::<E>(s, c) {
            Ok(Some(p)) => c = p.next,
            Ok(None) => return Ok(c),
            Err(_) => return Err(Malformed { read: c }),
        }
    }
}
