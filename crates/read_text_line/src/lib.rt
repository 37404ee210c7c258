// Content lines, RFC 5545, section 3.1, read through a cursor: the source is cut at the line's end by the caller. Definitions and laws are in specs/.
#![tactic(auto)]

mod carried;
mod encoded;
mod ends;
mod line;
mod param;
mod runs;
mod value;
mod written;

pub use carried::{is_carried_name, names_carried};
pub use ends::line_end;
pub use line::line_at;
pub use param::next_param;
pub use value::{next_value, param_value};
pub use written::{put_param_name, put_param_value};

// The classes of characters of a line: of an unquoted value of a parameter, of a quoted one, of the line's value.
#[derive(Clone, Copy, Debug, PartialEq, Eq)]
pub enum Chars {
    Safe,
    Quoted,
    Valued,
}

// What stands there is against the grammar: the cursors of what was read of it.
#[derive(Clone, Copy, Debug, PartialEq, Eq)]
pub struct Malformed<C> {
    pub read: C,
}

// A value of a parameter: whether it stands between quotes, the cursors of its characters and of their end, and the cursor behind it.
#[derive(Clone, Copy, Debug, PartialEq, Eq)]
pub struct ValueCursors {
    pub quoted: bool,
    pub from: usize,
    pub to: usize,
    pub next: usize,
}

// A parameter: the cursors of its name and of the name's end, of its first value, and the cursor behind it.
#[derive(Clone, Copy, Debug, PartialEq, Eq)]
pub struct ParameterCursors {
    pub name: usize,
    pub end: usize,
    pub first: usize,
    pub next: usize,
}

// A content line by cursors: its name, its parameters, which begin at the name's end, and its value.
#[derive(Clone, Copy, Debug, PartialEq, Eq)]
pub struct LineCursors {
    pub name: usize,
    pub parameters: usize,
    pub value: usize,
}

// Where a line ends: the cursor of its CRLF, and the one behind it.
#[derive(Clone, Copy, Debug, PartialEq, Eq)]
pub struct LineEnding {
    pub end: usize,
    pub next: usize,
}
