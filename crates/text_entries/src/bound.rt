// A line of which only BEGIN and END are asked for. See specs/Bounds.antt.
ghost use Rattle.std.specs.Prelude.{◌≡◌, false, ◌<◌, length};
ghost use Rattle.source.specs.Source.{rest};
ghost use Rattle.read_text_line.specs.Ready.{Ready};
ghost use Rattle.text_entries.specs.Bounds.{opens_bound, opens, BoundAt};

use crate::entry::{Found, Kind, entry_at};
use edition::Edition;
use octets::unit::{LOWER_B, LOWER_E, UPPER_B, UPPER_E};
use read_text_line::{LineCursors, line_end};
use source::{Encoding, unit};

// A byte that BEGIN or END can begin with.
fn opens_bound(b: usize) -> bool
    ensures { result ≡ opens_bound b }
{
    b == UPPER_B || b == LOWER_B || b == UPPER_E || b == LOWER_E
}

// The line at `at`, which is neither BEGIN nor END: only its end is sought.
fn line_aside<E: Encoding>(edition: Edition, s: &[u8], at: usize) -> Found
    requires { Ready E.encoding s.now at × (at < length s.now) × (opens (rest E.encoding s.now at) ≡ false) }
    ensures { BoundAt edition E.encoding s.now at result }
{
    let Some(ending) = line_end::<E>(s, at) else {
        return Found {
            kind: Kind::Nothing,
            line: LineCursors {
                name: at,
                parameters: at,
                value: at,
            },
            end: at,
            next: s.len(),
        };
    };
    Found {
        kind: Kind::Nothing,
        line: LineCursors {
            name: at,
            parameters: ending.end,
            value: ending.end,
        },
        end: ending.end,
        next: ending.next,
    }
}

// The line at `at`: BEGIN, END, or another. Where its first byte tells that it is another, it is not taken apart.
pub fn bound_at<E: Encoding>(edition: Edition, s: &[u8], at: usize) -> Found
    requires { Ready E.encoding s.now at × (at < length s.now) }
    ensures { BoundAt edition E.encoding s.now at result }
{
    let n = unit::<E>(s, at);
    let opens = opens_bound(n.u);
    if opens {
        return entry_at::<E>(edition, s, at);
    }
    line_aside::<E>(edition, s, at)
}
