//! What the reader of statements owes to the grammar, by the laws of imports, definitions and expressions.
#![tactic(auto)]

mod laws;

pub use laws::{law_longest_statement, law_statements};
