//! A run of clients on threads, from the words of the command line to its status.
#![tactic(auto)]

mod clients;
mod closing;
mod fate;
mod left;
mod parts;
mod passes;
mod reading;
mod serving;
mod session;
mod threads;

pub use threads::run_threads;
