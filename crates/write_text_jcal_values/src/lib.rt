// A property's values from its jCal array, written as iCalendar text; the elements of an array by places. Definitions are in crates jcal (specs/Values) and values (specs/WriteValue), laws in specs/laws/.
#![tactic(auto)]

mod elements;
mod item;
mod own;
mod period;
mod property;
mod rule;
mod scalar;
mod typed;

pub use elements::{array_at, object_at, skip, string_at};
pub use property::{put_values, type_of_values};
