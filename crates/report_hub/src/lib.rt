//! Reporters, who are told what the checks in the background find.
#![tactic(auto)]

mod hub;
mod laws;
mod reporter;

pub use hub::Hub;
pub use laws::law_told_in_order;
pub use reporter::Reporter;
