//! A session's calls in the order of their tickets: what was posted, cancelled, settled and checked, kept as a legal journal.
#![tactic(auto)]

mod calls;
mod copying;
mod limits;
mod log;
mod queue;
mod tally;
mod usage;

pub use copying::copied;
pub use limits::{CancelSeen, Limits, PostRefused, Settling};
pub use queue::Queue;
pub use usage::Usage;
