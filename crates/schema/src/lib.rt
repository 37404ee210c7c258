// The schema of xCal as tables: value types, components, properties, parameters, and how often a property stands.
// A name is its number, its place in the list of names of specs/; a number equal to the list's length is an unrecognised one.
// In code the numbers have names: component, parameter, property, value_type.
// Definitions are in specs/, the tables of the code are theirs by computation.
#![tactic(auto, using(octets::specs::laws::Pick::branching_joined))]

mod columns;
pub mod component;
mod counts;
mod numbers;
pub mod parameter;
pub mod property;
mod set;
mod table;
pub mod value_type;
mod words;

pub use columns::{
    is_alarm, is_listed_parameter, is_quoted_parameter, may_begin, may_stand, parameter_type,
    permits_parameter, permits_type,
};
pub use counts::{bump, complete_counts, method_for};
pub use numbers::{component_number, parameter_number, type_number};
pub use table::{Row, row_of};
pub use words::{
    action_named, has_words, parameter_has_words, read_word_of, read_word_of_parameter,
};

// Where a value stands: its component and type by their numbers, its property by its row.
#[derive(Clone, Copy, Debug, PartialEq, Eq)]
pub struct Context {
    pub component: usize,
    pub row: Row,
    pub value_type: usize,
}

// What an alarm does, by the word of its ACTION.
#[derive(Clone, Copy, Debug, PartialEq, Eq)]
pub enum Action {
    Audio,
    Display,
    Email,
}
