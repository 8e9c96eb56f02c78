//! Reads imports, item by item, and the selectors in their braces.
#![tactic(auto)]

pub mod imports;
