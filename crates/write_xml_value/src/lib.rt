// A value of iCalendar text, written as its XML element. Definitions and their laws are in specs/.
#![tactic(auto)]

mod period;
mod rule;
mod tag;
mod value;
mod word;

pub use value::put_value_element;
pub use word::{put_raw_element, put_unknown_element, put_word_element};
