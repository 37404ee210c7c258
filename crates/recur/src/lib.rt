// RECUR: recurrence rules, their parts and items, read and written. Definitions and their laws are in specs/.
#![tactic(auto, using(octets::specs::laws::Pick::branching_joined))]

pub mod item;
mod number;
pub mod part;
pub mod rule;
mod word;
pub mod written;
