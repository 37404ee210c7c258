// Values of no known type: any characters but LF. See specs/Unknown.antt.
ghost use Rattle.std.specs.Prelude.{◌≡◌};
ghost use Rattle.source.specs.Source.{rest};
ghost use Rattle.texts.specs.Unknown.{is_unknown};

use octets::unit::{END, LF};
use source::{Encoding, unit};

pub fn read_unknown<E: Encoding>(s: &[u8], at: usize) -> bool
    ensures { result ≡ is_unknown (rest E.encoding s.now at) }
{
    let mut c = at;
    loop {
        let t = unit::<E>(s, c);
        if t.u == END {
            return true;
        }
        if t.u == LF {
            return false;
        }
        c = t.next;
    }
}
