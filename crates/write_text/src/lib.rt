// The canonical text of a document's components: the elements of properties as content lines, folded. Definitions are in crates text and xcal, laws in specs/laws/.
#![tactic(auto)]

mod children;
mod components;
mod content;
mod properties;

pub use components::put_calendar;
