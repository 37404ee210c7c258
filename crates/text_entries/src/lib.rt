// The lines of a text one by one: what each is, and the way past a component. Definitions and laws are in specs/.
#![tactic(auto)]

mod bound;
mod entry;
mod levels;
mod passing;

pub use bound::bound_at;
pub use entry::{Found, Kind, entry_at};
pub use levels::{Ahead, cut_at_level};
pub use passing::pass_component;
