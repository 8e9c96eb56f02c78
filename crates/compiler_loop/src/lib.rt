//! The engine of a session: it holds sources, is fed calls, answers them a turn at a time, and checks the files.
#![tactic(auto)]

mod answering;
mod checks;
mod copying;
mod core_loop;
mod loaded;
mod problems;
mod source;
mod staging;
mod tasks;
mod thin;
mod working;

pub use core_loop::Core;
