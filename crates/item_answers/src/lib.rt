//! How a rule of typing reads the values of items: what it asks, and what its answer says. The definitions of rules stand on
//! the questions here, and their code stops by `?` at the first item that has no ordinary value.
#![tactic(auto)]

mod reading;
mod stopping;

pub use reading::{parents_of, qualifier_of, signature_of};
pub use stopping::{Stopped, asked};
