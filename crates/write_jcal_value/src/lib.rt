// A value of iCalendar text, written as JSON (RFC 7265, section 3.6). Definitions and their laws are in specs/.
#![tactic(auto)]

mod characters;
mod label;
mod period;
mod rule;
mod text;
mod value;

pub use characters::put_characters;
pub use label::put_type_label;
pub use text::put_texts;
pub use value::put_value_json;
