// The verdict on the elements of properties and components, up to the root. Definitions are in crate xcal (specs/PropertyNodes, specs/ComponentNodes), laws in specs/laws/.
#![tactic(auto)]

use tallies::Kept;

mod action;
mod children;
mod component;
mod counting;
mod properties;
mod root;
mod subcomponents;
mod word;

pub use root::root_verdict;

// Which of a component's two children an element is, where it may stand; or another element.
#[derive(Clone, Copy, Debug, PartialEq, Eq)]
pub enum Which {
    Properties,
    Components,
    Other,
}

// What stands next in a component before its `components`: nothing; white space, and the place behind it; `properties`: where its content begins, and the place behind it;
// `components`: where its content begins, the place of its end tag, and the place behind it.
#[derive(Clone, Copy, Debug, PartialEq, Eq)]
pub enum Met {
    End,
    Past(usize),
    Properties(usize, usize),
    Components(usize, usize, usize),
}

// The `components` of a component: where its content begins, the place of its end tag, and the place behind it; whether `properties` came before it, and what is kept of them.
#[derive(Clone, Copy)]
pub struct Opened {
    pub inside: usize,
    pub end: usize,
    pub next: usize,
    pub had: bool,
    pub kept: Kept,
}

// What stands next in `components`: nothing; white space, and the place behind it; or a component: its number, where its content begins, the place of its end tag, and the place behind it.
#[derive(Clone, Copy, Debug, PartialEq, Eq)]
pub enum Sub {
    Done,
    Past(usize),
    Begins(usize, usize, usize, usize),
}
