//! Reads one statement of a template, of a unit or of the block of a `def`, piece by piece.
#![tactic(auto)]

pub mod class_params;
mod constructors;
pub mod heads;
mod parents;
pub mod pieces;
pub mod statements;
pub mod templates;
