//! A session as its journal tells it: calls, events and answers, which journals are legal, what a call is
//! answered where it stands, and what an engine is.
#![tactic(auto)]

mod answers;
mod calls;
mod engine;
mod events;
mod laws;
mod script;

pub use answers::{Answer, MemberInfo, OutlineInfo, ScopeInfo, TreeInfo};
pub use calls::Call;
pub use engine::{Effect, Engine, Fed, Turn};
pub use events::{Event, Journal, Mark};
pub use laws::{
    law_accepted_tickets, law_idle_leaves_nothing_due, law_legal_prefixes,
    law_lines_keep_their_order, law_plain_schedules, law_schedules_are_legal, law_settled_once,
};
pub use script::{Line, Order, Schedule, Script};
