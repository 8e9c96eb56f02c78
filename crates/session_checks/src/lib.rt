//! The tests of the crates of a session: the queue of calls, the stack of tasks, the cells of answers and the hub of
//! reporters. They stand in a crate of their own, since a crate with tests is proved twice.
#![tactic(auto)]

#[cfg(test)]
mod answers;
#[cfg(test)]
mod queue;
#[cfg(test)]
mod reports;
#[cfg(test)]
mod tasks;
