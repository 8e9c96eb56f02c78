//! Reads a source as a unit: its trees, and what is wrong in it.
#![tactic(auto)]

mod blocks;
mod brackets;
mod headings;
mod levels;
mod lists;
mod packages;
mod plain;
mod problems;
mod ranges;
mod units;

pub use units::parse_unit;
