// The token at a place. See specs/Pieces.antt.
ghost use Rattle.std.specs.Prelude.{◌≡◌, false, ◌<◌, length, get_or};
ghost use Rattle.json_text.specs.Bytes.{quotation_mark};
ghost use Rattle.json_text.specs.Tree.{is_separator};
ghost use Rattle.read_json.specs.Pieces.{Passed, BeginsWord, PieceAt};

use crate::ends::{colon_follows, is_separator, string_end, word_end};
use crate::{Piece, PieceKind};
use octets::unit::{LEFT_BRACE, QUOTE, RIGHT_BRACE, RIGHT_BRACKET};
use octets::{is_small, wide};

const LEFT_BRACKET: usize = 0x5B;

// The place behind separators.
fn token_place(s: &[u8], at: usize) -> usize
    ensures { Passed s.now at result }
{
    let mut i = at;
    while i < s.len() && is_separator(wide(s[i])) {
        i += 1;
    }
    i
}

// The name or string whose quotation mark stands at `p`.
fn string_piece(s: &[u8], p: usize) -> Piece
    requires { (p < length s.now) × (get_or s.now p 0 ≡ quotation_mark) }
    ensures { PieceAt s.now p result }
{
    let next = string_end(s, p + 1);
    if colon_follows(s, next) {
        Piece {
            kind: PieceKind::Name,
            place: p,
            next,
        }
    } else {
        Piece {
            kind: PieceKind::String,
            place: p,
            next,
        }
    }
}

// The number or literal that begins at `p`.
fn word_piece(s: &[u8], p: usize) -> Piece
    requires { (p < length s.now) × BeginsWord (get_or s.now p 0) }
    ensures { PieceAt s.now p result }
{
    let next = word_end(s, p + 1);
    if is_small(wide(s[p])) {
        Piece {
            kind: PieceKind::Literal,
            place: p,
            next,
        }
    } else {
        Piece {
            kind: PieceKind::Number,
            place: p,
            next,
        }
    }
}

// A bracket that closes an array or object, or else a number or literal.
fn closing_piece(s: &[u8], p: usize, u: usize) -> Piece
    requires { (p < length s.now)
        × (u ≡ get_or s.now p 0)
        × (is_separator u ≡ false)
        × (u ≡ 0x5B → ⊥)
        × (u ≡ 0x7B → ⊥)
        × (u ≡ quotation_mark → ⊥) }
    ensures { PieceAt s.now p result }
{
    if u == RIGHT_BRACKET {
        return Piece {
            kind: PieceKind::Close,
            place: p,
            next: p + 1,
        };
    }
    if u == RIGHT_BRACE {
        return Piece {
            kind: PieceKind::Close,
            place: p,
            next: p + 1,
        };
    }
    word_piece(s, p)
}

// The token that begins at `p`, where no separator stands.
fn piece_at(s: &[u8], p: usize) -> Piece
    requires { (p < length s.now) × (is_separator (get_or s.now p 0) ≡ false) }
    ensures { PieceAt s.now p result }
{
    let u = wide(s[p]);
    if u == LEFT_BRACKET {
        return Piece {
            kind: PieceKind::Array,
            place: p,
            next: p + 1,
        };
    }
    if u == LEFT_BRACE {
        return Piece {
            kind: PieceKind::Object,
            place: p,
            next: p + 1,
        };
    }
    if u == QUOTE {
        return string_piece(s, p);
    }
    closing_piece(s, p, u)
}

// The first token from `at` on, whatever the bytes are.
pub fn token_at(s: &[u8], at: usize) -> Piece
    ensures { PieceAt s.now at result }
{
    let p = token_place(s, at);
    if p < s.len() {
        return piece_at(s, p);
    }
    Piece {
        kind: PieceKind::Absent,
        place: p,
        next: p,
    }
}
