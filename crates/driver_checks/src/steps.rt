//! What a session came to, without its calls and files.
use ask_history::{Event, Journal, Mark};
use pc_terms::NoMemory;
use std::alloc::Global;

/// An event, without its call and its file.
#[derive(Clone, Copy, Debug, PartialEq, Eq)]
pub enum Step {
    Accept(u64),
    Cancel(u64),
    Settle(u64, Mark),
    Checked,
    Close,
}

fn step_of(event: &Event) -> Step {
    match event {
        Event::Accept { ticket, .. } => Step::Accept(*ticket),
        Event::Cancel { ticket } => Step::Cancel(*ticket),
        Event::Settle { ticket, mark } => Step::Settle(*ticket, *mark),
        Event::Checked { .. } => Step::Checked,
        Event::Close => Step::Close,
    }
}

pub fn steps(alloc: Global, journal: &Journal) -> Result<Vec<Step>, NoMemory> {
    let mut steps = Vec::new(alloc);
    for event in journal.events.as_slice() {
        steps.push(step_of(event))?;
    }
    Ok(steps)
}
