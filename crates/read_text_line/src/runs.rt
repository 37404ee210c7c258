// The characters of a line. See specs/ContentLine.antt.
ghost use Rattle.std.specs.Prelude.{◌≡◌, eqb};
ghost use Rattle.octets.specs.Pick.{◌or◌};
ghost use Rattle.read_text_line.specs.ContentLine.{is_line_break, is_value_char, is_q_safe_char, is_safe_char};
ghost use Rattle.read_text_line.specs.Cursor.{in_line, char_of, RunEnds};

use crate::Chars;
use octets::unit::{COLON, COMMA, CR, END, LF, QUOTE, SEMICOLON};
use source::{Encoding, unit};

fn is_break(u: usize) -> bool
    ensures { result ≡ is_line_break u }
{
    u == CR || u == LF
}

// `"`, `;`, `:`, `,`
fn is_mark(u: usize) -> bool
    ensures { result ≡ (eqb u 34 or eqb u 59 or eqb u 58 or eqb u 44) }
{
    u == QUOTE || u == SEMICOLON || u == COLON || u == COMMA
}

fn is_safe(u: usize) -> bool
    ensures { result ≡ in_line is_safe_char u }
{
    u != END && !is_break(u) && !is_mark(u)
}

fn is_qsafe(u: usize) -> bool
    ensures { result ≡ in_line is_q_safe_char u }
{
    u != END && !is_break(u) && u != QUOTE
}

fn is_valued(u: usize) -> bool
    ensures { result ≡ in_line is_value_char u }
{
    u != END && !is_break(u)
}

fn is_in(k: Chars, u: usize) -> bool
    ensures { result ≡ in_line (char_of k) u }
{
    match k {
        Chars::Safe => is_safe(u),
        Chars::Quoted => is_qsafe(u),
        Chars::Valued => is_valued(u),
    }
}

// The cursor after the characters of a class.
pub fn run_end<E: Encoding>(k: Chars, s: &[u8], at: usize) -> usize
    ensures { RunEnds (char_of k) E.encoding s.now at result }
{
    let mut c = at;
    loop {
        let n = unit::<E>(s, c);
        let part = is_in(k, n.u);
        if part {
            c = n.next;
        } else {
            return c;
        }
    }
}
