// A log, that is the XML of calls one after another: where its first document ends. See specs/Log.antt.
#![tactic(auto)]

mod pieces;

ghost use Rattle.std.specs.Prelude.{◌≡◌};
ghost use Rattle.octets.specs.Reading.{read_or};
ghost use Rattle.documents.specs.Log.{document_end};

pub use pieces::{Searched, search_piece};
use xml::starts_at;

// What a document ends with: the root's end tag and a line feed.
const CLOSE: [u8; 13] = *b"</icalendar>\n";

// The place behind the first document of a log, if one ends there. One pass, without room. A byte is looked at twice at most: of what a document ends with, only the first byte is `<`.
pub fn document_end(log: &[u8]) -> Option<usize>
    ensures { result ≡ document_end log.now }
{
    let mut i = 0;
    while i < log.len() {
        if starts_at(log, i, &CLOSE) {
            return Some(i + 13);
        }
        i += 1;
    }
    None
}

// The same as one number: 0 where no document ends.
#[tactic(auto, unfolding(octets::specs::Reading::read_or))]
pub fn end_number(log: &[u8]) -> usize
    ensures { result ≡ read_or 0 (document_end log.now) }
{
    document_end(log).unwrap_or(0)
}
