// The parameters of a property, out of jCal (RFC 7265, section 3.5): the check of them, and their text. Definitions are in crates jcal and text, laws in
// specs/laws/.
#![tactic(auto)]

mod apart;
mod base64;
mod cursor;
mod good;
mod heap;
mod naming;
mod order;
mod places;
mod rounds;
mod several;
mod written;

pub use good::parameters_good;
pub use naming::{is_bad_name, names_bad};
pub use written::put_parameters;
