//! The parents of classes as they are followed, and linearisations.
#![tactic(auto)]

mod classes;
mod laws;
mod linearisation;
mod parents;
mod stack;
mod walking;

pub use classes::scala_type;
pub use laws::{law_begins_with_class, law_each_class_once, law_ends_with_first_parent};
pub use linearisation::{linearise, linearised};
pub use parents::{MAX_STEPS, followed};
pub use stack::Stack;
