// XML tokens, the prolog and the XML profile, by places in the input. Definitions are in crate xml, laws in specs/laws/.
#![tactic(auto)]

mod formed;
mod pieces;
mod prolog;
mod tag;
mod token;

pub use formed::well_formed;
pub use tag::root_at;
pub use token::token_at;

// The kinds of tokens. A fault is what is no token, and the end of the input.
#[derive(Clone, Copy, Debug, PartialEq, Eq)]
pub enum TokenKind {
    Start,
    Empty,
    End,
    Char,
    Reference,
    Fault,
}

// A token: the places of a tag's name and of the name's end; the byte of a character, the code point of a reference, the place of a tag; and the place
// behind the token.
#[derive(Clone, Copy, Debug, PartialEq, Eq)]
pub struct TokenAt {
    pub kind: TokenKind,
    pub name: usize,
    pub name_end: usize,
    pub unit: usize,
    pub next: usize,
}
