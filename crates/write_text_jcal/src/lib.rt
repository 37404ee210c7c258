// The canonical text of a jCal text's components: the arrays of properties as content lines, folded. Definitions are in crates text and jcal, laws in specs/laws/.
#![tactic(auto)]

mod calendars;
mod components;
mod content;
mod context;
mod properties;

pub use calendars::put_calendars;
