//! A run on one thread, from the words of the command line to its status; and what other runs share of it.
#![tactic(auto)]

mod alone;
mod ending;
mod modes;
mod reading;
mod report;
mod reported;
mod reporter;
mod session;
mod shown;
mod telling;

pub use alone::run_alone;
pub use ending::Ending;
pub use modes::{Mode, mode_of};
pub use report::Report;
pub use reporter::SinkReporter;
pub use session::{Kept, unbegun, write_printed};
pub use telling::{status_of, tell};
