// TEXT as iCalendar text writes it, single or between separators. See specs/Text.antt and specs/Unescaped.antt.
#![tactic(auto, unfolding(octets::specs::Computing::octets_compute))]

ghost use Rattle.std.specs.Prelude.{◌≡◌};
ghost use Rattle.octets.specs.Reading.{is_read};
ghost use Rattle.source.specs.Source.{rest};
ghost use Rattle.texts.specs.Text.{is_break, is_escaped, opens, split_text, read_text};
ghost use Rattle.texts.specs.Unescaped.{is_newline, is_escape, in_text};

use octets::unit::{BACKSLASH, COMMA, END, LOWER_N, SEMICOLON, UPPER_N};
use source::{Encoding, unit};

// Comma or semicolon.
pub fn is_break(u: usize) -> bool
    ensures { result ≡ is_break u }
{
    u == COMMA || u == SEMICOLON
}

// A character that is written with a backslash before it.
pub fn is_escaped(u: usize) -> bool
    ensures { result ≡ is_escaped u }
{
    is_break(u) || u == BACKSLASH
}

fn is_newline(u: usize) -> bool
    ensures { result ≡ is_newline u }
{
    u == LOWER_N || u == UPPER_N
}

// What may stand after a backslash.
fn is_escape(u: usize) -> bool
    ensures { result ≡ is_escape u }
{
    is_newline(u) || is_escaped(u)
}

fn in_text(after: bool, sep: usize, u: usize) -> bool
    ensures { result ≡ in_text after sep u }
{
    if after {
        return is_escape(u);
    }
    if u == BACKSLASH {
        return true;
    }
    if is_break(u) {
        return u == sep;
    }
    true
}

// Whether a backslash stands open after a byte.
pub fn is_opening(after: bool, u: usize) -> bool
    ensures { result ≡ opens after u }
{
    !after && u == BACKSLASH
}

// Texts between bare separators: COMMA, SEMICOLON, or 0 for none. At the end no backslash may stand open.
pub fn read_text<E: Encoding>(sep: usize, s: &[u8], at: usize) -> bool
    ensures { result ≡ is_read (split_text sep (rest E.encoding s.now at)) }
{
    let mut after = false;
    let mut c = at;
    loop {
        let t = unit::<E>(s, c);
        if t.u == END {
            return !after;
        }
        if !in_text(after, sep, t.u) {
            return false;
        }
        after = is_opening(after, t.u);
        c = t.next;
    }
}

pub fn read_one_text<E: Encoding>(s: &[u8], at: usize) -> bool
    ensures { result ≡ is_read (read_text (rest E.encoding s.now at)) }
{
    read_text::<E>(0, s, at)
}
