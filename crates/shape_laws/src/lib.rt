//! How far a statement goes does not depend on the trees in its braces.
#![tactic(auto)]

mod laws;

pub use laws::law_shapes;
