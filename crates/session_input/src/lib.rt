//! Reads what a session is to play: a schedule, or the scripts of clients, the sources that these name, and whether all is
//! within the limits.
#![tactic(auto)]

mod clients;
mod counts;
mod input;
mod laws;
mod limits;
mod refusal;
mod script;
mod scripts;
mod sources;
mod texts;

pub use clients::read_clients_input;
pub use input::read_schedule_input;
pub use laws::law_told_readings;
pub use limits::Limit;
pub use refusal::{NoInput, Refusal};
