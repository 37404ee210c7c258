// Pieces of canonical text, whatever document they are written from: values that are characters there, a separator, VALUE. Definitions are in crates values and text, laws in specs/laws/.
#![tactic(auto)]

mod between;
mod leaf;
mod types;

pub use between::put_between;
pub use leaf::put_leaf;
pub use types::put_value_parameter;
