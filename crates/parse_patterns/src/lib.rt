//! Reads the patterns of a source: what stands after `case`, and before `<-`.
#![tactic(auto)]

pub mod admitting;
mod laws;
pub mod names;
pub mod operators;
pub mod patterns;
mod reader;
pub mod states;
pub mod steps;
pub mod symbols;

pub use laws::{law_one_pattern, law_one_pattern_tree};
pub use reader::parse_pattern;
