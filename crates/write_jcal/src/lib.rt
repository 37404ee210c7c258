// The canonical jCal of a text: its components and their properties. Definitions and laws are in specs/.
#![tactic(auto)]

mod alone;
mod components;
mod properties;
mod stream;

pub use stream::put_jcal;
