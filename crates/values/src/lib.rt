// A value of any type, read through a cursor and written. Definitions and their laws are in specs/.
#![tactic(auto)]

mod any;
mod number;
mod put;
mod text;
mod time;

pub use any::read_value;
pub use put::put_value_xml;
