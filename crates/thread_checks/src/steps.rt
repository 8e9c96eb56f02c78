//! The order of the events of a journal, and nothing else of them.

use crate::sources::{File, file_named};
use ask_history::{Event, Journal, Mark};
use pc_terms::NoMemory;
use std::alloc::Global;

/// An event, of which a judge knows no more than who made it, or what it is about.
#[derive(Clone, Copy, Debug, PartialEq, Eq)]
pub enum Step {
    /// By the client of this number.
    Accept(usize),
    /// Of this ticket.
    Cancel(usize),
    Settle(usize, Mark),
    Close,
    Checked(File),
    /// None that may stand in any journal here.
    Stray,
}

fn number(wide: u64) -> usize {
    usize::try_from(wide).unwrap_or(usize::MAX)
}

fn step_of(event: &Event) -> Step {
    match event {
        Event::Accept { client, .. } => Step::Accept(number(*client)),
        Event::Cancel { ticket } => Step::Cancel(number(*ticket)),
        Event::Settle { ticket, mark } => Step::Settle(number(*ticket), *mark),
        Event::Close => Step::Close,
        Event::Checked { file } => match file_named(file.as_str()) {
            Some(file) => Step::Checked(file),
            None => Step::Stray,
        },
    }
}

/// The order of a journal's events.
pub fn steps_of(alloc: Global, journal: &Journal) -> Result<Vec<Step>, NoMemory> {
    let mut steps = Vec::new(alloc);
    for event in journal.events.as_slice() {
        steps.push(step_of(event))?;
    }
    Ok(steps)
}
