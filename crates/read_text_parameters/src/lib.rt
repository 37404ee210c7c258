// The parameters of a property's line: the type that they state, or the leftmost faulty one.
// A line is cut at its end by the caller. Definitions are in crate text (specs/Parameters), laws in specs/laws/.
#![tactic(auto)]

mod base64;
mod cut;
mod heap;
mod named;
mod once;
mod order;
mod places;
mod read;
mod rounds;
mod several;
mod stated;
mod twice;
mod typed;
mod walk;

pub use cut::is_value_name;
pub use read::are_read;
pub use stated::stated_type;
pub use walk::read_parameters;

// What is wrong with a line's parameters: the parameter of this number is the leftmost faulty one; or BINARY has no ENCODING.
#[derive(Clone, Copy, Debug, PartialEq, Eq)]
pub enum ParameterFault {
    Faulty(usize),
    Unencoded,
}
