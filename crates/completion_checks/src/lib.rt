//! The nodes of drawn graphs as items, to test and to time completions: a node needs one other node, or none.
#![tactic(auto)]

mod asks;
mod graph;
#[cfg(test)]
mod tests;

pub use asks::{NodeState, ask, ask_all, new_memo, value_found};
pub use graph::Graph;
