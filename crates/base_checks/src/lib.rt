//! The tests of `pc_terms`, `type_substitution` and `pc_outside`. They stand in a crate of their own, since a crate with
//! tests is proved twice.
#![tactic(auto)]

#[cfg(test)]
mod files;
#[cfg(test)]
mod sinks;
#[cfg(test)]
mod substitution;
#[cfg(test)]
mod terms;
#[cfg(test)]
mod words;
