// Content lines: RFC 5545's contentline = name *(";" param ) ":" value CRLF, without CRLF.
ghost use Rattle.read_text_line.specs.Line.{LineAt, TailAt};

use crate::param::{next_params, no_name};
use crate::runs::run_end;
use crate::{Chars, LineCursors};
use names::name_end;
use octets::unit::{COLON, END};
use source::{Encoding, unit};

// A colon and the value, behind the parameters: the cursor of the value.
fn value_at<E: Encoding>(s: &[u8], at: usize) -> Option<usize>
    ensures { TailAt E.encoding s.now at result }
{
    let n = unit::<E>(s, at);
    if n.u == COLON {
        let to = run_end::<E>(Chars::Valued, s, n.next);
        let z = unit::<E>(s, to);
        if z.u == END {
            return Some(n.next);
        }
    }
    None
}

// The content line that stands from the cursor on, if it is one.
pub fn line_at<E: Encoding>(s: &[u8], at: usize) -> Option<LineCursors>
    ensures { LineAt E.encoding s.now at result }
{
    if no_name::<E>(s, at) {
        return None;
    }
    let parameters = name_end::<E>(s, at);
    let Ok(next) = next_params::<E>(s, parameters) else {
        return None;
    };
    let value = value_at::<E>(s, next)?;
    Some(LineCursors {
        name: at,
        parameters,
        value,
    })
}
