//! Reads the parts of a source that stand inside expressions and definitions: types.
#![tactic(auto)]

pub mod built;
mod laws;
mod parts;
mod reader;
pub mod stack;
pub mod states;
pub mod steps;
mod symbols;
pub mod words;

pub use laws::{law_one_part, law_one_tree};
pub use parts::Part;
pub use reader::{parse_type, part_of};
pub use symbols::{Symbol, read_symbol};
