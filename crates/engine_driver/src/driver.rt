//! The driver, and the rounds that it makes.
ghost use Rattle.std.specs.Prelude.{◌≡◌, ◌<◌, ◌+◌, ◌^◌, ◌==◌, [], ℕ, List, true, false, IsTrue};
ghost use Rattle.std.specs.List.{list_any};
ghost use Rattle.ask_history.specs.Engine.{EngineState};
ghost use Rattle.ask_history.specs.Journal.{accepted, is_closed, is_open};
ghost use Rattle.ask_history.specs.Legal.{is_next};
ghost use Rattle.report_hub.specs.Hub.{reporters_of, of_box, IsToldMost, OfEach};
ghost use Rattle.engine_driver.specs.History.{journal_of};
ghost use Rattle.engine_driver.specs.Board.{CanFeed};
ghost use Rattle.engine_driver.specs.Serving.{Drives, IsFound, IsStaging};
ghost use Rattle.engine_driver.specs.Runs.{Adds, GoesOn, Made, TurnsOn, without};

use crate::board::{Board, Posted};
use crate::checks::note;
use ask_history::{Answer, Call, Effect, Engine, Fed, Turn};
use pc_terms::{Problem, Row};
use report_hub::Hub;
use std::alloc::Global;

/// How many trees an engine types between two looks.
const STEPS: u64 = 64;

/// What a driver of an engine keeps between two rounds.
#[derive(Debug, Drop)]
pub struct Driver {
    /// The ticket that is fed next: those below it were fed, or are settled.
    pub next: u64,
    /// The tickets of the engine's open asks, in the order of feeding.
    pub opened: Vec<u64>,
}

impl Driver {
    /// A driver that fed nothing. It takes no memory.
    pub fn new(alloc: Global) -> Driver
        ensures next { result.next ≡ 0 }
        ensures opened { result.opened.items ≡ [] }
    {
        Driver {
            next: 0,
            opened: Vec::new(alloc),
        }
    }

    // Forgets an open ask.
    fn take_off(&mut self, ticket: u64)
        ensures next { self.new.next ≡ self.old.next }
        ensures opened { self.new.opened.items ≡ without ticket self.old.opened.items }
    {
        self.opened.retain(|other| *other != ticket);
    }

    // Settles an open ask with what was found for it, and takes it off the engine.
    fn settle_ask<B: Board, E: Engine>(
        &mut self,
        board: &mut B,
        engine: &mut E,
        ticket: u64,
        found: Option<Answer>,
    )
        requires drives { Drives (journal_of (B.history board.old)) (E.state engine.old) self.old.next self.old.opened.items }
        requires unshut { is_closed (journal_of (B.history board.old)) ≡ false }
        requires opened { list_any (λ other. other == ticket) self.old.opened.items ≡ true }
        requires right { IsFound E.answer_of (B.history board.old) ticket found }
        ensures drives { Drives (journal_of (B.history board.new)) (E.state engine.new) self.new.next self.new.opened.items }
        ensures adds { Adds E.answer_of E.problems_of (B.history board.old) (B.history board.new) [] }
        ensures next { self.new.next ≡ self.old.next }
        ensures opened { self.new.opened.items ≡ without ticket self.old.opened.items }
    {
        board.settle(ticket, found);
        engine.settled(ticket, Effect::Dropped);
        self.take_off(ticket);
    }

    // Settles the call of the next ticket, which could not be fed.
    fn settle_unfed<B: Board, E: Engine>(&mut self, board: &mut B)
        requires unanswered { IsTrue (is_open (journal_of (B.history board.old)) self.old.next) }
        requires next { IsTrue (is_next (journal_of (B.history board.old)) self.old.next) }
        requires fits { self.old.next + 1 < 2 ^ 64 }
        ensures drives { (state : EngineState) → Drives (journal_of (B.history board.old)) state self.old.next self.old.opened.items
            → Drives (journal_of (B.history board.new)) state self.new.next self.new.opened.items }
        ensures adds { Adds E.answer_of E.problems_of (B.history board.old) (B.history board.new) [] }
        ensures next { self.new.next ≡ self.old.next + 1 }
    {
        board.settle(self.next, None);
        self.next += 1;
    }

    // Settles the mutation of the next ticket, which is staged, and puts it in force where it takes effect.
    fn settle_staged<B: Board, E: Engine>(&mut self, board: &mut B, engine: &mut E)
        requires staging { IsStaging (journal_of (B.history board.old)) (E.state engine.old) self.old.next self.old.opened.items }
        requires fits { self.old.next + 1 < 2 ^ 64 }
        ensures drives { Drives (journal_of (B.history board.new)) (E.state engine.new) self.new.next self.new.opened.items }
        ensures adds { Adds E.answer_of E.problems_of (B.history board.old) (B.history board.new) [] }
        ensures next { self.new.next ≡ self.old.next + 1 }
    {
        let effect = board.settle(self.next, Some(Answer::Done));
        engine.settled(self.next, effect);
        self.next += 1;
    }

    // Feeds the call of the next ticket. A mutation is settled at once.
    fn feed<B: Board, E: Engine>(&mut self, board: &mut B, engine: &mut E, call: &Call)
        requires drives { Drives (journal_of (B.history board.old)) (E.state engine.old) self.old.next self.old.opened.items }
        requires can { CanFeed (journal_of (B.history board.old)) self.old.next call.now }
        requires fits { self.old.next + 1 < 2 ^ 64 }
        ensures drives { Drives (journal_of (B.history board.new)) (E.state engine.new) self.new.next self.new.opened.items }
        ensures adds { Adds E.answer_of E.problems_of (B.history board.old) (B.history board.new) [] }
        ensures next { self.new.next ≡ self.old.next + 1 }
    {
        if self.opened.reserve(1).is_err() {
            self.settle_unfed::<B, E>(board);
            return;
        }
        match engine.feed(self.next, call) {
            Fed::Taken => {
                self.opened.push_reserved(self.next);
                self.next += 1;
            }
            Fed::Staged => self.settle_staged(board, engine),
            Fed::NoMemory => self.settle_unfed::<B, E>(board),
        }
    }

    // Goes on with the next ticket, which is accepted.
    fn take_next<B: Board, E: Engine>(&mut self, board: &mut B, engine: &mut E)
        requires drives { Drives (journal_of (B.history board.old)) (E.state engine.old) self.old.next self.old.opened.items }
        requires there { self.old.next < accepted (journal_of (B.history board.old)) }
        requires fits { self.old.next + 1 < 2 ^ 64 }
        ensures drives { Drives (journal_of (B.history board.new)) (E.state engine.new) self.new.next self.new.opened.items }
        ensures adds { Adds E.answer_of E.problems_of (B.history board.old) (B.history board.new) [] }
        ensures next { self.new.next ≡ self.old.next + 1 }
    {
        match board.posted(self.next) {
            Posted::Call(call) => self.feed(board, engine, &call),
            Posted::NoMemory => self.settle_unfed::<B, E>(board),
            Posted::Settled => self.next += 1,
        }
    }

    // Has the engine make one turn.
    fn turn<B: Board, E: Engine>(
        &mut self,
        board: &mut B,
        engine: &mut E,
        hub: &mut Hub,
        found: &mut Vec<Row<Problem>>,
    )
        requires drives { Drives (journal_of (B.history board.old)) (E.state engine.old) self.old.next self.old.opened.items }
        requires unshut { is_closed (journal_of (B.history board.old)) ≡ false }
        ensures drives { Drives (journal_of (B.history board.new)) (E.state engine.new) self.new.next self.new.opened.items }
        ensures made { Made E.answer_of E.problems_of (λ findings. OfEach (IsToldMost (of_box told) (of_box faults) findings) (reporters_of hub.old) (reporters_of hub.new))
            (B.history board.old) (B.history board.new) found.old.items found.new.items }
        ensures goes_on { TurnsOn
            (record { next = self.old.next; opened = self.old.opened.items; engine = E.state engine.old; left = E.left engine.old; history = B.history board.old })
            (record { next = self.new.next; opened = self.new.opened.items; engine = E.state engine.new; left = E.left engine.new; history = B.history board.new }) }
    {
        match engine.turn(STEPS) {
            Turn::Safe => board.at_safe_point(),
            Turn::Ready(ticket, answer) => self.settle_ask(board, engine, ticket, Some(answer)),
            Turn::NoMemory(ticket) => self.settle_ask(board, engine, ticket, None),
            Turn::Checked(file, problems) => note::<B, E>(board, hub, found, &file, problems),
            Turn::CheckNoMemory(_) => {}
            Turn::Idle => board.await_calls(self.next),
        }
    }

    /// One round: it looks once, and then drops a cancelled ask, or feeds the next call, or has the engine make one turn. Answers
    /// whether the session is shut down, and then it did none of these.
    pub fn round<B: Board, E: Engine>(
        &mut self,
        board: &mut B,
        engine: &mut E,
        hub: &mut Hub,
        found: &mut Vec<Row<Problem>>,
    ) -> bool
        requires drives { Drives (journal_of (B.history board.old)) (E.state engine.old) self.old.next self.old.opened.items }
        ensures drives { Drives (journal_of (B.history board.new)) (E.state engine.new) self.new.next self.new.opened.items }
        ensures made { Made E.answer_of E.problems_of (λ findings. OfEach (IsToldMost (of_box told) (of_box faults) findings) (reporters_of hub.old) (reporters_of hub.new))
            (B.history board.old) (B.history board.new) found.old.items found.new.items }
        ensures shut { result ≡ true → is_closed (journal_of (B.history board.new)) ≡ true }
        ensures goes_on { result ≡ false → GoesOn
            (record { next = self.old.next; opened = self.old.opened.items; engine = E.state engine.old; left = E.left engine.old; history = B.history board.old })
            (record { next = self.new.next; opened = self.new.opened.items; engine = E.state engine.new; left = E.left engine.new; history = B.history board.new }) }
    {
        let news = board.look(self.opened.as_slice());
        if news.is_closed {
            return true;
        }
        match news.cancelled {
            Some(ticket) => self.settle_ask(board, engine, ticket, Some(Answer::Cancelled)),
            None if self.next < news.accepted => self.take_next(board, engine),
            None => self.turn(board, engine, hub, found),
        }
        false
    }
}
