//! A desk for a session's callers, over one history under a lock, counted by one word.
#![tactic(auto)]

mod books;
mod desk;
mod driving;
mod locked;
mod pass;

pub use desk::Desk;
pub use driving::{CheckNoted, News};
pub use locked::{Locked, Tried};
pub use pass::{EnginePass, Pass, Ticket};
