//! What the reader of the list of a block owes to the grammar, by the laws of one statement and of shapes.
#![tactic(auto)]

mod laws;

pub use laws::{law_division, law_lists};
