//! The tests of `symbol_table`. They stand in a crate of their own, since a crate with tests is proved twice.
#![tactic(auto)]

#[cfg(test)]
mod printing;
#[cfg(test)]
mod sources;
#[cfg(test)]
mod tests;
