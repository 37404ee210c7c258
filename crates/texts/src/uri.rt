// URI and CAL-ADDRESS. See specs/Uri.antt.
#![tactic(auto, unfolding(octets::specs::Computing::octets_compute))]

ghost use Rattle.std.specs.Prelude.{◌≡◌, false, eqb};
ghost use Rattle.octets.specs.Pick.{◌or◌};
ghost use Rattle.source.specs.Source.{rest};
ghost use Rattle.texts.specs.Uri.{is_scheme_char, is_outside, is_uri_char, in_uri, uri_from, is_uri};

use octets::unit::{
    BACKSLASH, BAR, CARET, COLON, END, GRAVE, GREATER, HYPHEN, LEFT_BRACE, LESS, PLUS, POINT,
    QUOTE, RIGHT_BRACE,
};
use octets::{is_alpha, is_digit, is_visible};
use source::{Encoding, unit};

fn is_scheme_char(u: usize) -> bool
    ensures { result ≡ is_scheme_char u }
{
    is_alpha(u) || is_digit(u) || u == PLUS || u == HYPHEN || u == POINT
}

// `"`, `<`, `>`, `\`, `^`, the grave accent, `{`, `|`, `}`.
fn is_outside(u: usize) -> bool
    ensures { result ≡ is_outside u }
{
    u == QUOTE
        || u == LESS
        || u == GREATER
        || u == BACKSLASH
        || u == CARET
        || u == GRAVE
        || u == LEFT_BRACE
        || u == BAR
        || u == RIGHT_BRACE
}

fn is_uri_char(u: usize) -> bool
    ensures { result ≡ is_uri_char u }
{
    !is_outside(u) && is_visible(u)
}

fn in_uri(past: bool, u: usize) -> bool
    ensures { result ≡ in_uri past u }
{
    if past {
        return is_uri_char(u);
    }
    u == COLON || is_scheme_char(u)
}

fn past_colon(past: bool, u: usize) -> bool
    ensures { result ≡ (past or eqb u 58) }
{
    past || u == COLON
}

// What follows the first letter.
fn read_after<E: Encoding>(s: &[u8], from: usize) -> bool
    ensures { result ≡ uri_from false (rest E.encoding s.now from) }
{
    let mut past = false;
    let mut c = from;
    loop {
        let t = unit::<E>(s, c);
        if t.u == END {
            return past;
        }
        if !in_uri(past, t.u) {
            return false;
        }
        past = past_colon(past, t.u);
        c = t.next;
    }
}

pub fn read_uri<E: Encoding>(s: &[u8], at: usize) -> bool
    ensures { result ≡ is_uri (rest E.encoding s.now at) }
{
    let t = unit::<E>(s, at);
    is_alpha(t.u) && read_after::<E>(s, t.next)
}
