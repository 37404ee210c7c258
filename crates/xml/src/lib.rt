// The XML profile: definitions and laws are in specs/. Here: the character at a place.
#![tactic(auto, using(octets::specs::laws::Pick::branching_joined))]

mod characters;
mod entities;
mod references;
mod starting;

pub use characters::char_at;
pub use starting::starts_at;

// The character at a place: a byte, END where none stands there, 257 and its code point where a reference does; and the place after it.
#[derive(Clone, Copy, Debug, PartialEq, Eq)]
pub struct CharRead {
    pub u: usize,
    pub next: usize,
}
