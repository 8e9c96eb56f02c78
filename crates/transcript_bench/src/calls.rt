//! Calls, their events and their answers.

use ask_history::{Answer, Call, Event, Mark, TreeInfo};
use pc_terms::{NoMemory, Row, Span, SymKind, SymPath, SymStep, Text, TreeKind, Ty};
use std::alloc::Global;

/// An ask about a file.
pub fn ask(alloc: Global) -> Result<Call, NoMemory> {
    Ok(Call::TypeAt(Text::new(alloc, "A.scala")?, 19))
}

pub fn accept(alloc: Global, ticket: u64, client: u64, tag: u64) -> Result<Event, NoMemory> {
    Ok(Event::Accept {
        ticket,
        client,
        tag,
        call: ask(alloc)?,
    })
}

pub fn settle(ticket: u64) -> Event {
    Event::Settle {
        ticket,
        mark: Mark::Done,
    }
}

fn step(alloc: Global, kind: SymKind, name: &str) -> Result<SymStep, NoMemory> {
    Ok(SymStep {
        kind,
        name: Text::new(alloc, name)?,
        ordinal: 0,
    })
}

/// A literal of type `Int`.
pub fn answer(alloc: Global) -> Result<Answer, NoMemory> {
    let mut steps = Row::new(alloc);
    steps.push(step(alloc, SymKind::Package, "scala")?)?;
    steps.push(step(alloc, SymKind::Class, "Int")?)?;
    Ok(Answer::Tree(TreeInfo {
        kind: TreeKind::Literal,
        span: Span { start: 19, end: 20 },
        ty: Some(Ty::Class(SymPath { steps }, Row::new(alloc))),
        sym: None,
    }))
}

/// The answers of so many calls.
pub fn answers(alloc: Global, calls: u32) -> Result<Row<Answer>, NoMemory> {
    let mut row = Row::new(alloc);
    for _ in 0..calls {
        row.push(answer(alloc)?)?;
    }
    Ok(row)
}
