// The content of an element, node by node, and what all readers of elements ask of it. Definitions are in crates xml and xcal, laws in specs/laws/.
#![tactic(auto)]

mod closing;
mod content;
mod ending;
mod first;
mod heads;
mod plain;
mod readers;
mod root;

pub use content::next_node;
pub use ending::node_end;
pub use heads::node_head;
pub use readers::{has_capital, has_element, inner_element, unexpected};
pub use root::root_node;

// Nothing more in the element; or an element, a literal byte, a referred character.
#[derive(Clone, Copy, Debug, PartialEq, Eq)]
pub enum NodeKind {
    Absent,
    Element,
    Literal,
    Referred,
}

// A node: of an element the name, from `name` to `name_end`, where its content begins, and the place of its end tag;
// of a character the byte or the code point, `unit`; and the place of the next node.
#[derive(Clone, Copy, Debug, PartialEq, Eq)]
pub struct Node {
    pub kind: NodeKind,
    pub name: usize,
    pub name_end: usize,
    pub inside: usize,
    pub end: usize,
    pub next: usize,
    pub unit: usize,
}

// The head of a node: what is known of it before an element's end tag is sought. `next` is the place behind its tag or character, and `opens` says that
// an element's content begins there.
#[derive(Clone, Copy, Debug, PartialEq, Eq)]
pub struct Head {
    pub kind: NodeKind,
    pub name: usize,
    pub name_end: usize,
    pub inside: usize,
    pub opens: bool,
    pub next: usize,
    pub unit: usize,
}

// The place of an element's end tag, and that of what follows it.
#[derive(Clone, Copy, Debug, PartialEq, Eq)]
pub struct Ended {
    pub place: usize,
    pub next: usize,
}

// An element: the place of its start tag, its name, from `name` to `name_end`, where its content begins, and the place of its end tag.
#[derive(Clone, Copy, Debug, PartialEq, Eq)]
pub struct Element {
    pub place: usize,
    pub name: usize,
    pub name_end: usize,
    pub inside: usize,
    pub end: usize,
}
