// Where a line ends. See specs/LineEnd.antt.
ghost use Rattle.read_text_line.specs.LineEnd.{EndsLine};

use crate::LineEnding;
use octets::find::find_return;
use octets::unit::{CR, END, LF};
use octets::wide;
use source::{Cut, Encoding, unit};

// Where the line at `from` ends, over bytes as they stand.
fn line_end_plain(s: &[u8], from: usize) -> Option<LineEnding>
    ensures { EndsLine 0 s.now from result }
{
    let mut c = from;
    while c < s.len() {
        c = find_return(s, c);
        if 2 <= s.len() - c {
            let u = wide(s[c + 1]);
            if u == LF {
                return Some(LineEnding {
                    end: c,
                    next: c + 2,
                });
            } else {
                c += 1;
            }
        } else {
            return None;
        }
    }
    None
}

// Where the line at `from` ends; none where no CRLF follows it.
pub fn line_end<E: Encoding>(s: &[u8], from: usize) -> Option<LineEnding>
    ensures { EndsLine E.encoding s.now from result }
{
    if let Some(Cut::Plain) = E::cut() {
        return line_end_plain(s, from);
    }
    let mut c = from;
    loop {
        let n = unit::<E>(s, c);
        if n.u == END {
            return None;
        } else {
            if n.u == CR {
                let k = unit::<E>(s, n.next);
                if k.u == LF {
                    let next = E::settled(s, k.next);
                    return Some(LineEnding { end: c, next });
                } else {
                    c = n.next;
                }
            } else {
                c = n.next;
            }
        }
    }
}
