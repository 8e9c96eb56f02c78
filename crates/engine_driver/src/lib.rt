//! Drives an engine over the history of a session: it feeds calls in the order of their tickets, settles them, and tells and
//! keeps what checks in the background find. It knows no thread and no lock.
#![tactic(auto)]

mod board;
mod checks;
mod driver;
mod driving;

pub use board::{Board, CheckNoted, News, Posted};
pub use driver::Driver;
pub use driving::drive;
