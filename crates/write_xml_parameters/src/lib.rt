// The XML of a line's parameters (RFC 6321, section 3.5). Definitions and laws are in specs/.
#![tactic(auto)]

mod line;
mod parameter;
mod value;

pub use line::put_parameters;
