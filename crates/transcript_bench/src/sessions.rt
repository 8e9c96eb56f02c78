//! Sessions of several shapes.

use crate::calls::{accept, answers, settle};
use crate::scripts;
use ask_history::{Answer, Event, Journal, Script};
use pc_terms::{NoMemory, Problem, Row};
use std::alloc::Global;

const CLIENTS: u32 = 32;

/// What `print_session` is handed.
#[derive(Drop)]
pub struct Session {
    pub scripts: Row<Script>,
    pub journal: Journal,
    pub answers: Row<Row<Answer>>,
    pub problems: Row<Row<Problem>>,
}

fn one_client(
    alloc: Global,
    script: Script,
    events: Row<Event>,
    answers: Row<Answer>,
) -> Result<Session, NoMemory> {
    let mut scripts = Row::new(alloc);
    scripts.push(script)?;
    let mut rows = Row::new(alloc);
    rows.push(answers)?;
    Ok(Session {
        scripts,
        journal: Journal { events },
        answers: rows,
        problems: Row::new(alloc),
    })
}

/// Each call is settled before the next is accepted.
fn one_after_another(alloc: Global, calls: u32) -> Result<Session, NoMemory> {
    let mut events = Row::new(alloc);
    for number in 0..calls {
        let ticket = number as u64;
        events.push(accept(alloc, ticket, 0, ticket + 1)?)?;
        events.push(settle(ticket))?;
    }
    one_client(
        alloc,
        scripts::level(alloc, calls)?,
        events,
        answers(alloc, calls)?,
    )
}

/// The calls after the first are accepted and settled while it is open.
fn under_one(alloc: Global, calls: u32) -> Result<Session, NoMemory> {
    let mut events = Row::new(alloc);
    for number in 0..calls {
        let ticket = number as u64;
        events.push(accept(alloc, ticket, 0, ticket + 1)?)?;
        if ticket != 0 {
            events.push(settle(ticket))?;
        }
    }
    events.push(settle(0))?;
    one_client(
        alloc,
        scripts::under_one(alloc, calls)?,
        events,
        answers(alloc, calls)?,
    )
}

/// Each call is accepted while those before it are open; the last is settled first.
fn stairs(alloc: Global, calls: u32) -> Result<Session, NoMemory> {
    let mut events = Row::new(alloc);
    for number in 0..calls {
        let ticket = number as u64;
        events.push(accept(alloc, ticket, 0, ticket + 1)?)?;
    }
    for number in (0..calls).rev() {
        events.push(settle(number as u64))?;
    }
    one_client(
        alloc,
        scripts::stairs(alloc, calls)?,
        events,
        answers(alloc, calls)?,
    )
}

/// Each call is cancelled while it is open.
fn cancelled(alloc: Global, calls: u32) -> Result<Session, NoMemory> {
    let mut events = Row::new(alloc);
    let mut found = Row::new(alloc);
    for number in 0..calls {
        let ticket = number as u64;
        events.push(accept(alloc, ticket, 0, ticket + 1)?)?;
        events.push(Event::Cancel { ticket })?;
        events.push(settle(ticket))?;
        found.push(Answer::Cancelled)?;
    }
    one_client(alloc, scripts::cancels(alloc, calls)?, events, found)
}

/// All calls come after the shutdown.
fn refused(alloc: Global, calls: u32) -> Result<Session, NoMemory> {
    let mut events = Row::new(alloc);
    events.push(Event::Close)?;
    one_client(
        alloc,
        scripts::after_close(alloc, calls)?,
        events,
        Row::new(alloc),
    )
}

/// A call of each client is accepted, and then each of these is settled.
fn push_round(alloc: Global, events: &mut Row<Event>, round: u32) -> Result<(), NoMemory> {
    let tag = round as u64 + 1;
    let first = round as u64 * CLIENTS as u64;
    for client in 0..CLIENTS {
        events.push(accept(alloc, first + client as u64, client as u64, tag)?)?;
    }
    for client in 0..CLIENTS {
        events.push(settle(first + client as u64))?;
    }
    Ok(())
}

/// Each of the clients has its part of the calls.
fn clients(alloc: Global, calls: u32) -> Result<Session, NoMemory> {
    let rounds = calls / CLIENTS;
    let mut events = Row::new(alloc);
    for round in 0..rounds {
        push_round(alloc, &mut events, round)?;
    }
    let mut all = Row::new(alloc);
    let mut rows = Row::new(alloc);
    for _ in 0..CLIENTS {
        all.push(scripts::level(alloc, rounds)?)?;
        rows.push(answers(alloc, rounds)?)?;
    }
    Ok(Session {
        scripts: all,
        journal: Journal { events },
        answers: rows,
        problems: Row::new(alloc),
    })
}

/// The session of the shape of this name; none where there is no such shape, or no memory.
pub fn of_shape(alloc: Global, shape: &str, calls: u32) -> Option<Session> {
    match shape {
        "alone" => one_after_another(alloc, calls).ok(),
        "clients" => clients(alloc, calls).ok(),
        "under_one" => under_one(alloc, calls).ok(),
        "stairs" => stairs(alloc, calls).ok(),
        "cancelled" => cancelled(alloc, calls).ok(),
        "refused" => refused(alloc, calls).ok(),
        _ => None,
    }
}
