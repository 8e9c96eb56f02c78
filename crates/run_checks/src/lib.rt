//! Whole runs on one thread, over files and sinks in memory and the engine of the program.
#![tactic(auto)]

#[cfg(test)]
mod asks;
#[cfg(test)]
mod cases;
#[cfg(test)]
mod contents;
#[cfg(test)]
mod counting;
#[cfg(test)]
mod limits;
#[cfg(test)]
mod nesting;
#[cfg(test)]
mod reads;
#[cfg(test)]
mod refusals;
#[cfg(test)]
mod reporters;
