//! A client's pass at a desk, as a client that plays its script uses it.
#![tactic(auto)]

mod desk_pass;

pub use desk_pass::DeskPass;
