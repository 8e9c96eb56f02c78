//! Serves the calls of a desk with an engine, until the session is shut down.
#![tactic(auto)]

mod board;
mod driving;
mod serving;

pub use driving::drive;
