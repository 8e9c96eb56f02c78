//! Reads schedules and clients' scripts.
#![tactic(auto)]

mod above;
mod kinds;
mod laws;
mod numbering;
mod numbers;
mod orders;
mod pieces;
mod reading;
mod refused;
mod texts;
mod words;

pub use ask_history::{Line, Order, Schedule, Script};
pub use kinds::{Holder, Numbers, ScriptKind};
pub use laws::law_one_reading;
pub use numbering::line_number;
pub use reading::{read_client, read_schedule};
pub use refused::ScriptRefused;
pub use texts::{all_with_texts, with_texts};
