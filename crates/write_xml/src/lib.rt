// The canonical XML of a text: its components, their properties, and the document. Definitions and laws are in specs/.
#![tactic(auto)]

mod components;
mod document;
mod parts;
mod properties;

pub use document::put_document;
