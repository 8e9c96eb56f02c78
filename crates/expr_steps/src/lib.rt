//! Reads one expression, item by item. An item is a token, or a pair of braces with what was read in it.
#![tactic(auto)]

pub mod braces;
pub mod operands;
pub mod steps;
