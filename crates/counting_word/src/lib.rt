//! One history for all threads, counted by one word: who holds a seat knows a beginning of the history.
#![tactic(auto)]

mod rule;
mod seat;
mod view;

pub use seat::{Counter, Opened, Room, Seat};
pub use view::{Entry, Found, Name, View};
