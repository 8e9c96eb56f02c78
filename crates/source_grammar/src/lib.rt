//! The grammar of the profile as data: which lists of tokens each production has, and with which trees.
#![tactic(auto)]

mod laws;

pub use laws::{law_expressions, law_one_operand, law_patterns, law_types};
