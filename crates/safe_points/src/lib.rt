//! The tasks of a session that wait for one another, and which of them have to start again.
#![tactic(auto)]

mod laws;
mod stack;
mod ticketed;

pub use laws::law_stale_marks;
pub use stack::Stack;
pub use ticketed::Ticketed;
