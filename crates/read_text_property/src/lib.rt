// The values of a property line, and all faults of the line. Definitions are in text; the laws of the code in specs/laws/.
#![tactic(auto)]

mod fault;
mod list;
mod own;

pub use fault::property_fault;
pub use own::read_values;

// What is wrong with a property's line: a parameter, by its number; ENCODING, which is missing; the value.
#[derive(Clone, Copy, Debug, PartialEq, Eq)]
pub enum LineFault {
    Parameter(usize),
    Encoding,
    Value,
}
