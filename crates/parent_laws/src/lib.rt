//! The order of a linearisation, against those of the class's parents.
#![tactic(auto)]

mod laws;

pub use laws::{law_parents_in_order, law_refines_inheritance};
