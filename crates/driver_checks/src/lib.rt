//! The tests of `desk_driver` and `engine_driver`: an engine serves a desk, on one thread and beside a caller on another.
#![tactic(auto)]

#[cfg(test)]
mod callers;
#[cfg(test)]
mod desks;
#[cfg(test)]
mod held;
#[cfg(test)]
mod paced;
#[cfg(test)]
mod steps;
