// The values that are numbers, read through the cursor of `source` and written into the sink of `sink`.
//     numeral   digits read one by one
//     integer   INTEGER
//     boolean   BOOLEAN
//     scan      digits and zeros passed over, up to a byte that ends them
//     float     FLOAT
//     geo       GEO in text
// Definitions and their laws are in specs/.
#![tactic(auto)]

pub mod boolean;
pub mod float;
pub mod geo;
pub mod integer;
pub mod numeral;
pub mod scan;
