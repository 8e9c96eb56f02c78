//! A client that plays its script at a session, and what the journal of all clients then is. It knows no thread and no lock.
#![tactic(auto)]

mod client;
mod laws;
mod pass;

pub use client::play;
pub use laws::{law_clients_play_their_scripts, law_waits_come_first};
pub use pass::ClientPass;
