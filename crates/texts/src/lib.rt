// TEXT and lists of it, URI, BINARY and unknown values, read through a cursor and written. Definitions and laws are in specs/.
#![tactic(auto)]

mod binary;
mod chars;
mod elements;
mod items;
mod request;
mod text;
mod unknown;
mod uri;
mod written;

pub use binary::read_binary;
pub use chars::{put_binary, put_unknown, put_unknown_xml, put_uri, put_uri_xml};
pub use elements::put_texts_xml;
pub use request::{put_request_status_xml, read_request_status};
pub use text::{read_one_text, read_text};
pub use unknown::read_unknown;
pub use uri::read_uri;
pub use written::{put_text_escaped, put_text_xml};

// A REQUEST-STATUS: the cursor of the first semicolon, the cursor behind it, and that of the second one or of the end.
#[derive(Clone, Copy, Debug, PartialEq, Eq)]
pub struct StatusParts {
    pub code_end: usize,
    pub description: usize,
    pub description_end: usize,
}
