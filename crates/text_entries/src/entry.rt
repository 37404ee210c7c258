// What a line of a text is. See specs/Entries.antt.
ghost use Rattle.std.specs.Prelude.{◌≡◌, ◌<◌, length};
ghost use Rattle.octets.specs.Class.{upper};
ghost use Rattle.read_text_line.specs.Ready.{Ready};
ghost use Rattle.source.specs.Source.{rest};
ghost use Rattle.text_entries.specs.Entries.{kind_named, FoundAt};

use edition::Edition;
use names::is_word_any_case;
use read_text_line::{LineCursors, line_at, line_end};
use source::Encoding;

// The beginning of a component, the end of one, a property, or none of these.
#[derive(Clone, Copy, Debug, PartialEq, Eq)]
pub enum Kind {
    Begin,
    End,
    Property,
    Nothing,
}

// A line: what it is, its cursors, that of its end, and that of the next line.
#[derive(Clone, Copy, Debug, PartialEq, Eq)]
pub struct Found {
    pub kind: Kind,
    pub line: LineCursors,
    pub end: usize,
    pub next: usize,
}

// What a content line is, by its name.
fn kind_of<E: Encoding>(name: &[u8], at: usize) -> Kind
    ensures { result ≡ kind_named (upper (rest E.encoding name.now at)) }
{
    let begin = is_word_any_case::<E>(name, at, b"BEGIN");
    if begin {
        return Kind::Begin;
    }
    let end = is_word_any_case::<E>(name, at, b"END");
    if end {
        return Kind::End;
    }
    Kind::Property
}

// The line at `at`.
pub fn entry_at<E: Encoding>(edition: Edition, s: &[u8], at: usize) -> Found
    requires { Ready E.encoding s.now at × (at < length s.now) }
    ensures { FoundAt edition E.encoding s.now at result }
{
    let Some(ending) = line_end::<E>(s, at) else {
        return Found {
            kind: Kind::Nothing,
            line: LineCursors {
                name: at,
                parameters: at,
                value: at,
            },
            end: at,
            next: s.len(),
        };
    };
    let Some(l) = line_at::<E>(&s[..ending.end], at) else {
        return Found {
            kind: Kind::Nothing,
            line: LineCursors {
                name: at,
                parameters: ending.end,
                value: ending.end,
            },
            end: ending.end,
            next: ending.next,
        };
    };
    let n = l.parameters;
    Found {
        kind: kind_of::<E>(&s[..n], l.name),
        line: l,
        end: ending.end,
        next: ending.next,
    }
}
