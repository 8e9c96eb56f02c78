//! What is known of definitions without their trees: their flags, and what each of them owns. Linearisations, base types and
//! members of types are to stand above these two.
#![tactic(auto)]

mod flags;
mod owned;

pub use flags::Flags;
pub use owned::Owned;
