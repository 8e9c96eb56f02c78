//! The tests of whole runs on threads: many clients over one engine, each run judged by plain functions.
#![tactic(auto)]

#[cfg(test)]
mod contents;
#[cfg(test)]
mod crowds;
#[cfg(test)]
mod drawn;
#[cfg(test)]
mod held;
#[cfg(test)]
mod judge;
#[cfg(test)]
mod judging;
#[cfg(test)]
mod lines;
#[cfg(test)]
mod listener;
#[cfg(test)]
mod paced;
#[cfg(test)]
mod poor;
#[cfg(test)]
mod refusals;
#[cfg(test)]
mod runs;
#[cfg(test)]
mod sessions;
#[cfg(test)]
mod sources;
#[cfg(test)]
mod steps;
