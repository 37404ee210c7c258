// The elements of a property's parameters, out of XML (RFC 6321, section 3.5): the verdict on them, and their text. Definitions are in crates xcal and text,
// laws in specs/laws/.
#![tactic(auto)]

mod children;
mod fresh;
mod leaf;
mod several;
mod verdict;
mod written;

pub use children::has_encoding;
pub use verdict::parameters_verdict;
pub use written::put_parameters;

// An element of a content: whether there is one, the place of its start tag, its name, from `name` to `name_end`, where its content begins, the place of its
// end tag, and the place of what follows it.
#[derive(Clone, Copy, Debug, PartialEq, Eq)]
pub struct Child {
    pub there: bool,
    pub place: usize,
    pub name: usize,
    pub name_end: usize,
    pub inside: usize,
    pub end: usize,
    pub next: usize,
}
