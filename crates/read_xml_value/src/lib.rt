// The verdict on the elements of a property's value. Definitions are in crate xcal (specs/ValueNodes), laws in specs/laws/.
#![tactic(auto)]

mod leaves;
mod parts;
mod turns;
mod types;
mod value;

pub use types::{element_type, type_of_nodes};
pub use value::value_verdict;

// Where a walk over children stands: at the node at `at`, where slots before `slot` have passed, and which of the two slots that must be filled are.
#[derive(Clone, Copy, Debug, PartialEq, Eq)]
pub struct Turn {
    pub at: usize,
    pub slot: usize,
    pub first: bool,
    pub second: bool,
}
