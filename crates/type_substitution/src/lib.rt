//! Types with other types in the place of their parameters, and copies of types and paths.
#![tactic(auto)]

mod copying;
mod substituting;

pub use copying::{copy_path, copy_type};
pub use substituting::subst;
