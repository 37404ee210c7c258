// The characters of a text through a cursor, whatever encoding it stands in: the first that is none, and how many bytes are left. Laws are in specs/laws/.
#![tactic(auto)]

ghost use Rattle.std.specs.Prelude.{◌≡◌, length};
ghost use Rattle.source.specs.Source.{rest};
ghost use Rattle.utf8.specs.Utf8.{first_bad};

use octets::unit::END;
use source::{Encoding, unit};
use utf8::{at_start, end, read};

// The number of the first byte of the first sequence that is no character that an input may hold.
pub fn first_bad<E: Encoding>(s: &[u8]) -> Option<usize>
    ensures { result ≡ first_bad (rest E.encoding s.now 0) }
{
    let mut st = at_start();
    let mut i = 0;
    let mut c = 0;
    loop {
        let x = unit::<E>(s, c);
        if x.u < END {
            st = read(st, i, x.u as u8);
            i += 1;
            c = x.next;
        } else {
            return end(st);
        }
    }
}

// How many bytes there are from the cursor `from` on.
pub fn count_from<E: Encoding>(s: &[u8], from: usize) -> usize
    ensures { result ≡ length (rest E.encoding s.now from) }
{
    let mut n = 0;
    let mut c = from;
    loop {
        let x = unit::<E>(s, c);
        if x.u == END {
            return n;
        }
        n += 1;
        c = x.next;
    }
}
