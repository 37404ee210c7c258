// BASE64 as the value of a parameter.
ghost use Rattle.std.specs.Prelude.{◌≡◌, take};
ghost use Rattle.octets.specs.Ascii.{ascii};
ghost use Rattle.octets.specs.Class.{upper};
ghost use Rattle.octets.specs.Words.{same};
ghost use Rattle.source.specs.Source.{rest};
ghost use Rattle.edition.specs.Edition.{decode};
ghost use Rattle.read_text_line.specs.Decoded.{values_in};
ghost use Rattle.text.specs.Parameters.{is_word};

use crate::cut::is_named;
use crate::several::is_last;
use edition::Edition;
use read_text_line::param_value;
use source::{Carets, Cuttable};

// The value between two cursors is the word, in any case.
fn is_word_in<E: Cuttable>(edition: Edition, s: &[u8], from: usize, to: usize, w: &[u8]) -> bool
    ensures { result ≡ same (upper (decode edition (rest E.encoding (take to s.now) from))) w.now }
{
    match edition {
        Edition::Rfc5545 => is_named::<E>(s, from, to, w),
        Edition::Rfc6868 => is_named::<Carets<E>>(s, from, to, w),
    }
}

// The one value is BASE64.
pub fn is_base64<E: Cuttable>(edition: Edition, s: &[u8], first: usize) -> bool
    ensures { result ≡ is_word (ascii "BASE64") (values_in edition E.encoding s.now first) }
{
    let Ok(v) = param_value::<E>(s, first) else {
        return false;
    };
    is_word_in::<E>(edition, s, v.from, v.to, b"BASE64") && is_last::<E>(s, v.next)
}
