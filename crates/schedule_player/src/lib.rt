//! Plays the lines of a schedule on an engine: it posts, feeds, turns, settles, checks, and tells what checks find.
#![tactic(auto)]

mod asks;
mod checks;
mod lines;
mod outers;
mod played;
mod playing;
mod session;

pub use played::Played;
pub use playing::play;
