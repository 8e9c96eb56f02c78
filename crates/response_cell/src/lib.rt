//! The answers of a session's calls, each kept until it is taken.
#![tactic(auto)]

mod cells;
mod laws;

pub use cells::{Cell, Cells};
pub use laws::law_one_answer;
