// A property's values from its XML elements, written as iCalendar text. Definitions are in crates xcal (specs/ValueNodes) and values (specs/WriteValue), laws in specs/laws/.
#![tactic(auto)]

mod child;
mod own;
mod period;
mod property;
mod rule;
mod typed;

pub use property::{put_values, type_of_values};
