// The values of a property in a jCal text, read. Definitions are in crate jcal (specs/Values, specs/Integer), see also specs/.
#![tactic(auto)]

mod elements;
mod items;
mod leaves;
mod number;
mod own;
mod period;
mod rule;
mod typed;
mod valued;

pub use number::read_number;
pub use valued::values_read;
