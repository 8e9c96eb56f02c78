//! What is known of a history. No value of these types is made: proofs alone speak of them.
use ask_history::{Answer, Event};
use pc_terms::{Problem, Row};
use std::collections::LinkedList;

/// What was found with an event: the answer of a settling, and the problems of a check.
pub enum Found {
    Nothing,
    Answered(Answer),
    Problems(Row<Problem>),
}

/// An event of the history, with the number of the pass that made it and what was found.
pub struct Entry {
    pub event: Event,
    pub author: u64,
    pub found: Found,
}

/// Whose seat it is.
pub struct Name {
    /// The client number of a pass. A note and the scribe have none.
    pub number: Option<u64>,
    /// The entries that were made under this number.
    pub own: LinkedList<Entry>,
    /// The tickets whose answers were handed to the pass.
    pub got: LinkedList<u64>,
    /// Of the leader: all tickets whose answers were handed out.
    pub given: LinkedList<u64>,
    /// Of the engine's pass: how many passes were made.
    pub made: u64,
}

/// What a seat knows of the history.
pub struct View {
    /// Whether it has seen all of the history, and may append to it.
    pub leads: bool,
    /// The beginning of the history that it has seen.
    pub seen: LinkedList<Entry>,
    /// Beginnings that were joined, and that no load has compared yet.
    pub older: LinkedList<LinkedList<Entry>>,
    /// What its last load found in the word.
    pub known: u64,
    /// How many loads it made.
    pub loads: u64,
    pub name: Name,
}
