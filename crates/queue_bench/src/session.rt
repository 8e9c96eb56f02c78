ghost use Rattle.std.specs.Prelude.{◌≡◌, ℕ, ◌<◌, ◌^◌, length, IfOk, IsTrue, true, false};
ghost use Rattle.ask_history.specs.Journal.{is_settled};
ghost use Rattle.ask_history.specs.Legal.{is_legal};
ghost use Rattle.ask_history.specs.Engine.{has_file_names};
ghost use Rattle.work_queue.specs.Reloads.{reloaded_by};

use ask_history::{Answer, Call, Effect};
use pc_terms::{NoMemory, Row, Text};
use std::alloc::Global;
use std::io;
use work_queue::{Limits, Queue, Settling};

const LIMITS: Limits = Limits {
    calls: 65_536,
    text: 268_435_456,
    names: 1_024,
    map: 16_777_216,
    file: 262_144,
};

/// What became of a session's calls.
#[derive(Clone, Copy, Debug, Default)]
pub struct Counts {
    posted: u64,
    refused: u64,
    applied: u64,
    cancelled: u64,
    answered: u64,
    events: u64,
}

impl Counts {
    pub fn print(&self, rt: &impl Print) -> io::Result<()> {
        let Counts {
            posted,
            refused,
            applied,
            cancelled,
            answered,
            events,
        } = *self;
        println!(rt; "posted {posted}, refused {refused}")?;
        println!(rt; "applied {applied}, cancelled {cancelled}, answered {answered}")?;
        println!(rt; "events {events}")
    }

    fn add(&mut self, effect: Effect, answer: &Answer) {
        let count = match (effect, answer) {
            (Effect::Applies, _) => &mut self.applied,
            (Effect::Dropped, Answer::Cancelled) => &mut self.cancelled,
            (Effect::Dropped, _) => &mut self.answered,
        };
        *count = count.saturating_add(1);
    }
}

/// Runs a session of so many rounds.
pub fn run(alloc: Global, rounds: u64) -> Result<Counts, NoMemory> {
    let mut queue = Queue::new(alloc, LIMITS)?;
    let refused = post_all(alloc, &mut queue, rounds)?;
    let mut counts = Counts {
        posted: queue.accepted(),
        refused,
        ..Counts::default()
    };
    settle_all(&mut queue, &mut counts);
    counts.events = queue.journal().len() as u64;
    Ok(counts)
}

/// Posts all rounds, and gives the number of calls that are refused.
fn post_all(alloc: Global, queue: &mut Queue, rounds: u64) -> Result<u64, NoMemory>
    requires unsettled { (ticket : ℕ) → is_settled queue.old.journal ticket ≡ false }
    requires legal { IsTrue (is_legal queue.old.journal) }
    ensures unsettled { (ticket : ℕ) → is_settled queue.new.journal ticket ≡ false }
    ensures legal { IsTrue (is_legal queue.new.journal) }
{
    let mut refused = 0u64;
    for round in 0..rounds {
        refused = refused.saturating_add(post(queue, reload(alloc)?, false));
        refused = refused.saturating_add(post(queue, ask(alloc)?, round % 4 == 0));
    }
    Ok(refused)
}

/// Posts a call, cancels it at once if that is wanted, and gives the number of calls that are refused.
fn post(queue: &mut Queue, call: Call, cancels: bool) -> u64
    requires few { length (reloaded_by call) < 2 ^ 32 }
    requires names { has_file_names call ≡ true }
    requires unsettled { (ticket : ℕ) → is_settled queue.old.journal ticket ≡ false }
    requires legal { IsTrue (is_legal queue.old.journal) }
    ensures unsettled { (ticket : ℕ) → is_settled queue.new.journal ticket ≡ false }
    ensures legal { IsTrue (is_legal queue.new.journal) }
{
    match queue.post(0, 1, call) {
        Ok(ticket) => {
            if cancels {
                let _ = queue.cancel(ticket);
            }
            0
        }
        Err(_) => 1,
    }
}

fn reload(alloc: Global) -> Result<Call, NoMemory>
    ensures few { IfOk result (λ call. length (reloaded_by call) < 2 ^ 32) }
    ensures names { IfOk result (λ call. has_file_names call ≡ true) }
{
    let mut pairs = Row::new(alloc);
    let name = Text::new(alloc, "A.scala")?;
    pairs.push((name, Text::new(alloc, "object A { val x = 1 }")?))?;
    Ok(Call::Reload(pairs))
}

fn ask(alloc: Global) -> Result<Call, NoMemory>
    ensures few { IfOk result (λ call. length (reloaded_by call) < 2 ^ 32) }
    ensures names { IfOk result (λ call. has_file_names call ≡ true) }
{
    Ok(Call::TypeAt(Text::new(alloc, "A.scala")?, 19))
}

/// Settles all calls in order.
fn settle_all(queue: &mut Queue, counts: &mut Counts)
    requires unsettled { (ticket : ℕ) → is_settled queue.old.journal ticket ≡ false }
    requires legal { IsTrue (is_legal queue.old.journal) }
{
    for ticket in 0..queue.accepted() {
        let (effect, answer) = queue.settle(ticket, Settling::Value(Answer::NoTree));
        counts.add(effect, &answer);
    }
}
