//! What is true of every legal journal beside what `ask_history` proves: what others leave as it is, and what one event does.
#![tactic(auto)]

mod laws;

pub use laws::{
    law_forestalled_replies, law_next_tickets, law_one_event, law_others_leave_sources,
    law_others_leave_the_rest, law_tickets_have_one_call,
};
