//! Lists of members, and overriding.
#![tactic(auto)]

mod laws;

pub use laws::law_no_override;
