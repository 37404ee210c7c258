// A JSON text by places: its tokens, the elements of an array, the members of an object, whatever the bytes are. Definitions are in crate json_text (specs/Tree), see also specs/.
#![tactic(auto)]

mod closing;
mod elements;
mod ends;
pub mod kinds; // kinds.rt: the kind of an element
mod members;
mod pieces;

pub use closing::container_end;
pub use elements::{element_at, element_next};
pub use members::member_at;

// A token: none, where the text ends; a bracket that opens an array or object, or closes one; a name, a string, a number, a literal.
#[derive(Clone, Copy, Debug, PartialEq, Eq)]
pub enum PieceKind {
    Absent,
    Array,
    Object,
    Close,
    Name,
    String,
    Number,
    Literal,
}

// Its place, and the place behind it.
#[derive(Clone, Copy, Debug, PartialEq, Eq)]
pub struct Piece {
    pub kind: PieceKind,
    pub place: usize,
    pub next: usize,
}

// The end of an array or object: the place of the bracket that closes it, and the place behind that.
#[derive(Clone, Copy, Debug, PartialEq, Eq)]
pub struct Ended {
    pub place: usize,
    pub next: usize,
}

// Nothing more in the array; or an element, by its kind.
#[derive(Clone, Copy, Debug, PartialEq, Eq)]
pub enum HeadKind {
    Absent,
    String,
    Number,
    Literal,
    Array,
    Object,
}

// An element: its place, and the place behind it; of an array or object, the place behind the bracket that opens it.
#[derive(Clone, Copy, Debug, PartialEq, Eq)]
pub struct Head {
    pub kind: HeadKind,
    pub place: usize,
    pub next: usize,
}

// A member: the place of its name, and the place behind that, from where on its value stands.
#[derive(Clone, Copy, Debug, PartialEq, Eq)]
pub struct MemberHead {
    pub name: usize,
    pub next: usize,
}
