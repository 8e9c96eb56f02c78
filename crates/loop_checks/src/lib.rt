//! The tests of `compiler_loop`. They stand in a crate of their own, since a crate with tests is proved twice.
#![tactic(auto)]

#[cfg(test)]
mod calls;
#[cfg(test)]
mod player;
#[cfg(test)]
mod plays;
#[cfg(test)]
mod tests;
