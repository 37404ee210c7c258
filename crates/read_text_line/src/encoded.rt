// The characters of a parameter's value, as an edition spells them. See crate edition, specs/Edition.antt.
ghost use Rattle.edition.specs.Edition.{encoding, encode};
ghost use Rattle.sink.specs.Sink.{Put};
ghost use Rattle.source.specs.Source.{rest};

use edition::{Edition, put_encoded_byte};
use names::put_rest;
use octets::unit::END;
use source::{Encoding, unit};

// With carets.
fn put_carets<E: Encoding>(out: &mut [u8], at: usize, s: &[u8], from: usize) -> usize
    ensures { Put out.old out.new at result (encoding (rest E.encoding s.now from)) }
{
    let mut o = at;
    let mut c = from;
    loop {
        let t = unit::<E>(s, c);
        let u = t.u;
        if u == END {
            return o;
        }
        o = put_encoded_byte(out, o, u as u8);
        c = t.next;
    }
}

// The characters from the cursor `from` to the end of the source.
pub fn put_encoded<E: Encoding>(
    out: &mut [u8],
    at: usize,
    edition: Edition,
    s: &[u8],
    from: usize,
) -> usize
    ensures { Put out.old out.new at result (encode edition (rest E.encoding s.now from)) }
{
    match edition {
        Edition::Rfc5545 => put_rest::<E>(out, at, s, from),
        Edition::Rfc6868 => put_carets::<E>(out, at, s, from),
    }
}
