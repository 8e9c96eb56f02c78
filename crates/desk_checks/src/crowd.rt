//! Eight callers on threads, beside one that settles what they post.
ghost use Rattle.std.specs.Prelude.{◌≡◌, ◌≤◌, ◌<◌, ◌+◌, ℕ, length, IfOk, IsTrue, Some, is_some, [], true, false};
ghost use Rattle.ask_history.specs.Journal.{is_settled};
ghost use Rattle.counting_word.specs.History.{journal_of, engine_number};
ghost use Rattle.work_queue.specs.Refusal.{IsWithin};

use crate::calls::{ALL, type_at};
use crate::waiting::Waiting;
use ask_desk::{Desk, EnginePass, Pass};
use ask_history::{Answer, Event, Journal};
use counting_word::{Opened, Room};
use pc_terms::NoMemory;
use std::alloc::{AllocError, Global};
use std::marker::Brand;
use std::sync::Wait;
use std::test::Fail;
use std::thread::{Threads, join, map_vec};
use work_queue::{CancelSeen, Limits, Settling};

const CALLERS: usize = 8;

const CALLS: u64 = 5_000;

/// A pass of a number, to be used in a thread.
#[derive(Drop)]
struct Caller<B: Room> {
    pass: Pass<B>,
    ghost named: { IsTrue (is_some pass.name.number) },
}

/// What became of a caller's calls.
#[derive(Clone, Copy, Debug, Default, PartialEq, Eq)]
struct Outcome {
    received: u64,
    marked: u64,
    cancelled: u64,
}

impl Outcome {
    fn add(&mut self, marked: bool, answer: &Answer) {
        count(&mut self.received);
        if marked {
            count(&mut self.marked);
        }
        if matches!(answer, Answer::Cancelled) {
            count(&mut self.cancelled);
        }
    }
}

/// Posts a call, cancels it but every third time, and waits for its answer.
fn call<B: Room, R: Wait>(
    rt: &R,
    alloc: Global,
    desk: &Desk<B>,
    caller: Caller<B>,
    tag: u64,
    outcome: &mut Outcome,
) -> Result<Caller<B>, NoMemory> {
    let call = type_at(alloc, "A.scala", 19)?;
    let Caller { pass } = caller;
    let Ok(mut waiting) = Waiting::post(rt, alloc, desk, pass, tag, call) else {
        return Err(NoMemory {});
    };
    let marked = tag % 3 != 0 && matches!(waiting.cancel(rt, desk), CancelSeen::Marked(_));
    let (pass, answer) = waiting.receive(rt, desk);
    outcome.add(marked, &answer);
    Ok(Caller { pass })
}

/// All calls of one caller.
fn calls<B: Room, R: Wait>(
    rt: &R,
    alloc: Global,
    desk: &Desk<B>,
    caller: Caller<B>,
) -> Result<Outcome, NoMemory> {
    let mut outcome = Outcome::default();
    let mut caller = caller;
    for tag in 0..CALLS {
        caller = call(rt, alloc, desk, caller, tag, &mut outcome)?;
    }
    Ok(outcome)
}

/// The calls of all callers, each in a thread.
fn all_calls<B: Room + Send + Sync, R: Threads + Wait + Sync>(
    rt: &R,
    alloc: Global,
    desk: &Desk<B>,
    callers: Vec<Caller<B>>,
) -> Result<Vec<Result<Outcome, NoMemory>>, AllocError> {
    map_vec(
        rt,
        callers,
        &|caller: Caller<B>| calls(rt, alloc, desk, caller),
    )
}

/// The calls of all callers. When all have their answers, the session is shut down.
fn calls_and_close<B: Room + Send + Sync, R: Threads + Wait + Sync>(
    rt: &R,
    alloc: Global,
    desk: &Desk<B>,
    closer: Pass<B>,
    callers: Vec<Caller<B>>,
) -> Result<Vec<Result<Outcome, NoMemory>>, AllocError> {
    let mut closer = closer;
    let outcomes = all_calls(rt, alloc, desk, callers);
    desk.close(rt, &mut closer);
    outcomes
}

/// Settles all calls in order, until the session is shut down.
fn serve<B: Room, R: Wait>(rt: &R, desk: &Desk<B>, engine: EnginePass<B>) -> EnginePass<B>
    requires engine { engine.pass.name.number ≡ Some engine_number }
    requires fresh { engine.pass.seen ≡ [] }
{
    let mut engine = engine;
    let mut next = 0;
    for _ in rt.forever() {
        let news = desk.await_calls(rt, &mut engine, next);
        if news.is_closed {
            return engine;
        }
        desk.settle(rt, &mut engine, next, Settling::Value(Answer::NoTree));
        next += 1;
    }
    unreachable!()
}

/// The passes of the callers.
fn callers<B: Room>(
    alloc: Global,
    desk: &Desk<B>,
    engine: &mut EnginePass<B>,
) -> Result<Vec<Caller<B>>, AllocError>
    requires engine { engine.old.pass.name.number ≡ Some engine_number }
    requires made { engine.old.pass.name.made ≡ engine.old.made }
    requires few { engine.old.made ≤ 1 }
    requires fresh { engine.old.pass.seen ≡ [] }
    ensures engine { engine.new.pass.name.number ≡ Some engine_number }
    ensures fresh { engine.new.pass.seen ≡ [] }
{
    let mut callers = Vec::new(alloc);
    for _each in 0..CALLERS {
        let pass = desk.new_pass(engine);
        callers.push(Caller { pass })?;
    }
    Ok(callers)
}

/// The callers in threads, beside one that settles.
fn beside<B: Room + Send + Sync, R: Threads + Wait + Sync>(
    rt: &R,
    alloc: Global,
    desk: &Desk<B>,
    engine: EnginePass<B>,
    closer: Pass<B>,
    callers: Vec<Caller<B>>,
) -> (
    EnginePass<B>,
    Result<Vec<Result<Outcome, NoMemory>>, AllocError>,
)
    requires engine { engine.pass.name.number ≡ Some engine_number }
    requires fresh { engine.pass.seen ≡ [] }
{
    join(
        rt,
        || -> EnginePass<B>
            requires { (engine.pass.name.number ≡ Some engine_number) × (engine.pass.seen ≡ []) }
        { serve(rt, desk, engine) },
        || calls_and_close(rt, alloc, desk, closer, callers),
    )
}

/// What became of the callers' calls, and the whole journal.
#[derive(Drop)]
struct Ended {
    outcomes: Vec<Result<Outcome, NoMemory>>,
    journal: Journal,
}

/// A session of eight callers.
fn crowd<R: Threads + Wait + Sync>(rt: &R, alloc: Global) -> Result<Ended, NoMemory> {
    let opened = Opened::new(alloc, ALL)?;
    crowd_over::<Brand, R>(rt, alloc, opened, ALL)
}

fn crowd_over<B: Room + Send + Sync, R: Threads + Wait + Sync>(
    rt: &R,
    alloc: Global,
    opened: Opened,
    limits: Limits,
) -> Result<Ended, NoMemory>
    requires within { IsWithin limits }
    requires table { opened.words.shared.table_id ≡ B.table }
    requires carried { opened.limits ≡ B.limits }
    requires limits { limits ≡ B.limits }
{
    let (desk, mut engine) = Desk::<B>::start(alloc, opened, limits)?;
    let closer = desk.new_pass(&mut engine);
    let callers = callers(alloc, &desk, &mut engine)?;
    let (engine, outcomes) = beside(rt, alloc, &desk, engine, closer, callers);
    let journal = desk.end(engine);
    Ok(Ended {
        outcomes: outcomes?,
        journal,
    })
}

/// How many events of each kind a journal has, and whether the calls of each client stand once, by their tags.
#[derive(Clone, Copy, Debug, Default, PartialEq, Eq)]
struct Counts {
    accepted: u64,
    cancelled: u64,
    settled: u64,
    closed: u64,
    strays: u64,
}

impl Counts {
    fn add(&mut self, event: &Event, next: &mut [u64; CALLERS + 1]) {
        match event {
            Event::Accept { client, tag, .. } => {
                if is_next(next, *client, *tag) {
                    count(&mut self.accepted);
                } else {
                    count(&mut self.strays);
                }
            }
            Event::Cancel { .. } => count(&mut self.cancelled),
            Event::Settle { .. } => count(&mut self.settled),
            Event::Close => count(&mut self.closed),
            Event::Checked { .. } => count(&mut self.strays),
        }
    }
}

fn count(number: &mut u64) {
    *number = number.saturating_add(1);
}

/// Whether this is the next tag of a client, which is then counted.
fn is_next(next: &mut [u64; CALLERS + 1], client: u64, tag: u64) -> bool {
    match next.get_mut(client as usize) {
        Some(expected) if *expected == tag => {
            *expected = tag.saturating_add(1);
            true
        }
        _ => false,
    }
}

fn counted(events: &[Event]) -> Counts {
    let mut next = [0; CALLERS + 1];
    let mut counts = Counts::default();
    for event in events {
        counts.add(event, &mut next);
    }
    counts
}

#[test]
fn eight_callers_and_one_that_settles(rt: HostRuntime) -> Result<(), Fail> {
    let ended = crowd(&rt, rt.alloc())?;
    let counts = counted(ended.journal.events.as_slice());
    let mut marked = 0u64;
    for outcome in &ended.outcomes {
        let Ok(outcome) = outcome else {
            panic!(&rt; "out of memory")
        };
        assert_eq!(&rt; outcome.received, CALLS);
        assert_eq!(&rt; outcome.cancelled, outcome.marked);
        marked = marked.saturating_add(outcome.marked);
    }
    let all = CALLS * CALLERS as u64;
    let expected = Counts {
        accepted: all,
        cancelled: marked,
        settled: all,
        closed: 1,
        strays: 0,
    };
    assert_eq!(&rt; counts, expected);
    Ok(())
}
