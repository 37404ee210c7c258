// The editions of iCalendar text: RFC 5545 alone, and with the carets of RFC 6868 in values of parameters. See specs/Edition.antt.
#![tactic(auto, using(octets::specs::laws::Pick::branching_joined))]

mod letters;

ghost use Rattle.std.specs.Prelude.{◌≡◌};
ghost use Rattle.edition.specs.Edition.{edition_of};

pub use letters::{is_letter, meant, put_encoded_byte};

// An edition, each with its number.
#[derive(Clone, Copy, Debug, PartialEq, Eq)]
pub enum Edition {
    Rfc5545 = 0,
    Rfc6868 = 1,
}

impl Edition {
    // The numbers by which a call names them.
    pub const RFC_5545: u32 = Edition::Rfc5545 as u32;

    pub const RFC_6868: u32 = Edition::Rfc6868 as u32;
    // A caret, and the letters behind it that mean LF and a double quote.
    pub const CARET: u8 = b'^';

    pub const LINE_FEED: u8 = b'n';

    pub const DOUBLE_QUOTE: u8 = b'\'';
}

// The edition that a number names.
pub fn edition_of(number: u32) -> Option<Edition>
    ensures { result ≡ edition_of number }
{
    match number {
        Edition::RFC_5545 => Some(Edition::Rfc5545),
        Edition::RFC_6868 => Some(Edition::Rfc6868),
        _ => None,
    }
}
