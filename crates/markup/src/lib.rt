// The fixed strings of a document, compared when one is read and copied when one is written: the declaration, the namespace, and the names of elements that
// are no names of the schema. Crate xml, specs/Prolog.antt, Token.antt, and crate xcal define where they stand.
#![tactic(auto)]

pub mod declaration;
pub mod element;
pub mod namespace;
pub mod table;
