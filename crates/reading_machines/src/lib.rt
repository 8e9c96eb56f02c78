//! Laws of machines that read a part of a list of tokens: what the longest part is, and where reading must stop. They hold for every
//! grammar; the definitions are those of `specs/`.
#![tactic(auto)]

mod laws;

pub use laws::{Grammar, law_longest, law_longest_alone, law_stuck};
