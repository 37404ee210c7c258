// The letters behind a caret. See specs/Edition.antt.
ghost use Rattle.std.specs.Prelude.{◌≡◌};
ghost use Rattle.sink.specs.Sink.{Put};
ghost use Rattle.edition.specs.Edition.{is_letter, meant, encode_byte};

use crate::Edition;
use octets::unit::{LF, QUOTE};
use sink::{put, put_all};

// A caret and the letters as units.
const CARET: usize = Edition::CARET as usize;

const LINE_FEED: usize = Edition::LINE_FEED as usize;

const DOUBLE_QUOTE: usize = Edition::DOUBLE_QUOTE as usize;

// The unit is a letter that means a character behind a caret.
pub fn is_letter(u: usize) -> bool
    ensures { result ≡ is_letter u }
{
    u == LINE_FEED || u == DOUBLE_QUOTE || u == CARET
}

// The character that it means.
pub fn meant(u: usize) -> usize
    ensures { result ≡ meant u }
{
    match u {
        LINE_FEED => LF,
        DOUBLE_QUOTE => QUOTE,
        _ => CARET,
    }
}

// A byte of a value, encoded.
pub fn put_encoded_byte(out: &mut [u8], at: usize, b: u8) -> usize
    ensures { Put out.old out.new at result (encode_byte b) }
{
    match b {
        b'\n' => put_all(out, at, &[Edition::CARET, Edition::LINE_FEED]),
        b'"' => put_all(out, at, &[Edition::CARET, Edition::DOUBLE_QUOTE]),
        Edition::CARET => put_all(out, at, &[Edition::CARET, Edition::CARET]),
        _ => put(out, at, b),
    }
}
