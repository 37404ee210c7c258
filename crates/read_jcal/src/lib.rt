// The verdict on the arrays of properties and components of a jCal text, by places in it. Definitions are in crate jcal (specs/Property, specs/Components), laws in specs/laws/.
#![tactic(auto)]

use read_json::Head;
use schema::Action;
use tallies::Kept;

mod bad_names;
mod calendars;
mod component;
mod counting;
mod elements;
mod properties;
mod property;
mod subcomponents;
mod types;

pub use calendars::calendars_verdict;

// The first three elements of an array, and the place from where on the others stand.
#[derive(Clone, Copy, Debug, PartialEq, Eq)]
pub struct Three {
    pub first: Head,
    pub second: Head,
    pub third: Head,
    pub next: usize,
}

// A property without a fault: its number, and what its word names where it is an ACTION.
#[derive(Clone, Copy, Debug, PartialEq, Eq)]
pub struct Stated {
    pub number: usize,
    pub action: Option<Action>,
}

// What components stand in: the stream of calendars, or the component of a number.
#[derive(Clone, Copy, Debug, PartialEq, Eq)]
pub enum Outer {
    Stream,
    Component(usize),
}

// A component that may stand there: its number, and where the content begins of the arrays of its properties and of its subcomponents.
#[derive(Clone, Copy, Debug, PartialEq, Eq)]
pub struct Shape {
    pub component: usize,
    pub properties: usize,
    pub components: usize,
}

// A component whose properties are fine: its number, where the content of the array of its subcomponents begins, and what is kept of its properties.
#[derive(Clone, Copy)]
pub struct Begun {
    pub component: usize,
    pub components: usize,
    pub kept: Kept,
}
