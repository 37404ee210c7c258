// A property of iCalendar text written as its array of jCal: name, parameters, type, values. Definitions and laws are in specs/.
#![tactic(auto)]

mod geo;
mod list;
mod property;
mod shown;

pub use property::put_property;
