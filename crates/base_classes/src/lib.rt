//! The base types of types.
#![tactic(auto)]

mod bounds;
mod searching;

pub use bounds::upper;
pub use searching::{base_type, based, paths_of, template_of};
