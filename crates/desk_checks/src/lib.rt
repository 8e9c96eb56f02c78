//! The tests of the desk and of the counting word below it. They stand in a crate of their own, since a crate with
//! tests is proved twice.
#![tactic(auto)]

#[cfg(test)]
mod calls;
#[cfg(test)]
mod crowd;
#[cfg(test)]
mod limits;
#[cfg(test)]
mod passes;
#[cfg(test)]
mod waiting;
