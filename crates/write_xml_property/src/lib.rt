// A property of iCalendar text written as its element of XML: name, parameters, values. Definitions and laws are in specs/.
#![tactic(auto)]

mod geo;
mod list;
mod property;
mod shown;

pub use property::put_property;
