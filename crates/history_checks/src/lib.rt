//! Schedules with what is printed of them: by the definitions, which compute it, and by the code.
#![tactic(auto)]

mod rows;
#[cfg(test)]
mod tests;

pub use rows::{rows_of_cancels, rows_of_checks, rows_of_inner_lines, rows_of_shutdowns};
