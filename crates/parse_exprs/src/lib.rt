//! Reads the longest expression that begins at a token.
#![tactic(auto)]

mod cases;
mod checks;
pub mod contents;
pub mod items;
mod levels;
pub mod lists;
pub mod openings;
mod reader;
pub mod statements;

pub use reader::{is_low, parse_expr};
