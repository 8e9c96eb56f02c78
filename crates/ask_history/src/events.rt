use crate::Call;
use pc_terms::{Row, Text};

/// What a settled call found: `NoMemory` where memory ran out for it.
#[derive(Clone, Copy, Debug, PartialEq, Eq)]
pub enum Mark {
    Done,
    NoMemory,
}

/// One append to the journal. Tickets number the accepted calls from 0.
#[derive(Debug, Drop)]
pub enum Event {
    /// A call of a client was accepted. The client tells its calls apart by the tag.
    Accept {
        ticket: u64,
        client: u64,
        tag: u64,
        call: Call,
    },
    /// The call of this ticket is no longer wanted.
    Cancel {
        ticket: u64,
    },
    /// The session is shut down.
    Close,
    /// The call of this ticket has its answer.
    Settle {
        ticket: u64,
        mark: Mark,
    },
    /// The problems of this file were found by a check in the background.
    Checked {
        file: Text,
    },
}

/// The events of a session in order. An event's position in it, from 0, is its journal index.
#[derive(Debug, Drop)]
pub struct Journal {
    pub events: Row<Event>,
}
