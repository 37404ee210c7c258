// The check of an unfolded text: refusals 4 to 9, in one pass over its lines that calls itself for each inner component. Definitions are in crate text, laws in specs/laws/.
#![tactic(auto)]

mod calendars;
mod component;
mod line;
mod named;
mod places;

pub use calendars::check;
use refusals::Fault;
use schema::Action;

// What a line is in an open component: the beginning of the component of a number, whose name stands at a cursor; the component's end; a property of a number, with the action
// that it names where it is ACTION.
#[derive(Clone, Copy, Debug, PartialEq, Eq)]
pub enum Kind {
    Starts(usize, usize),
    Stops,
    Holds(usize, Option<Action>),
}

// A line's kind, or its refusal; the place of its end, and that behind the line.
#[derive(Clone, Copy, Debug, PartialEq, Eq)]
pub struct Turn {
    pub kind: Result<Kind, Fault>,
    pub end: usize,
    pub next: usize,
}
