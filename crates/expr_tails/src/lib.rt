//! What a reader of expressions keeps of the items so far, and the expression that ends at a place.
#![tactic(auto)]

pub mod ending;
pub mod items;
pub mod operators;
pub mod states;
pub mod symbols;
pub mod tails;
pub mod types;
