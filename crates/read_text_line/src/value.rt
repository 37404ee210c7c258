// Values of a parameter: RFC 5545's param-value = paramtext / quoted-string.
ghost use Rattle.read_text_line.specs.ContentLine.{quoted_string, param_value, next_value};
ghost use Rattle.read_text_line.specs.Cursor.{there};
ghost use Rattle.read_text_line.specs.Repeating.{AllAt};
ghost use Rattle.read_text_line.specs.Values.{ValueAt, ValuesAt};

use crate::runs::run_end;
use crate::{Chars, Malformed, ValueCursors};
use octets::unit::{COMMA, QUOTE};
use source::{Encoding, unit};

// Behind the first quote.
fn quoted_string<E: Encoding>(s: &[u8], at: usize) -> Result<ValueCursors, Malformed<ValueCursors>>
    ensures { ValueAt quoted_string E.encoding s.now at (there result) }
{
    let to = run_end::<E>(Chars::Quoted, s, at);
    let n = unit::<E>(s, to);
    if n.u == QUOTE {
        Ok(ValueCursors {
            quoted: true,
            from: at,
            to,
            next: n.next,
        })
    } else {
        Err(Malformed {
            read: ValueCursors {
                quoted: true,
                from: at,
                to,
                next: to,
            },
        })
    }
}

// A value at the cursor.
pub fn param_value<E: Encoding>(
    s: &[u8],
    at: usize,
) -> Result<ValueCursors, Malformed<ValueCursors>>
    ensures { ValueAt param_value E.encoding s.now at (there result) }
{
    let n = unit::<E>(s, at);
    if n.u == QUOTE {
        return quoted_string::<E>(s, n.next);
    }
    let to = run_end::<E>(Chars::Safe, s, at);
    Ok(ValueCursors {
        quoted: false,
        from: at,
        to,
        next: to,
    })
}

// A comma and a value, if a comma is there.
pub fn next_value<E: Encoding>(
    s: &[u8],
    at: usize,
) -> Result<Option<ValueCursors>, Malformed<ValueCursors>>
    ensures { ValueAt next_value E.encoding s.now at result }
{
    let n = unit::<E>(s, at);
    if n.u == COMMA {
        let v = param_value::<E>(s, n.next)?;
        return Ok(Some(v));
    }
    Ok(None)
}

// All values that follow another: the cursor behind them, on Err behind those before the wrong one.
fn next_values<E: Encoding>(s: &[u8], at: usize) -> Result<usize, Malformed<usize>>
    ensures { AllAt next_value E.encoding s.now at result }
{
    let mut c = at;
    loop {
        match next_value::<E>(s, c) {
            Ok(Some(v)) => c = v.next,
            Ok(None) => return Ok(c),
            Err(_) => return Err(Malformed { read: c }),
        }
    }
}

// All values of a parameter, from its first on: the cursor behind them, on Err behind those before the wrong one.
pub fn values<E: Encoding>(s: &[u8], at: usize) -> Result<usize, Malformed<usize>>
    ensures { ValuesAt E.encoding s.now at result }
{
    let Ok(v) = param_value::<E>(s, at) else {
        return Err(Malformed { read: at });
    };
    next_values::<E>(s, v.next)
}
