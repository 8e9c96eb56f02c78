//! What the engine's pass does at a desk: it looks for calls, settles them, and notes checks.
ghost use Rattle.std.specs.List.{find};
ghost use Rattle.std.specs.Prelude.{◌≡◌, ◌⊎◌, ◌<◌, Some, IsTrue, true};
ghost use Rattle.ask_history.specs.Journal.{accepted, is_cancelled, is_open};
ghost use Rattle.ask_history.specs.Legal.{is_next, may_follow};
ghost use Rattle.ask_history.specs.declared.events.Event.TheVariants.{Checked};
ghost use Rattle.counting_word.specs.History.{journal_of, engine_number};
ghost use Rattle.ask_desk.specs.Driving.{Looks, Finds, Settles, Checks};

use crate::desk::Desk;
use crate::locked::Locked;
use crate::pass::{EnginePass, Pass};
use ask_history::{Call, Effect};
use counting_word::{Counter, Room};
use pc_terms::{NoMemory, Problem, Row, Text};
use std::alloc::Global;
use std::sync::Wait;
use work_queue::Settling;

/// What a look at a session finds.
#[derive(Clone, Copy, Debug, PartialEq, Eq)]
pub struct News {
    /// How many calls are accepted; the next ticket.
    pub accepted: u64,
    /// Whether the session was shut down.
    pub is_closed: bool,
}

/// What becomes of a check.
#[derive(Clone, Copy, Debug, PartialEq, Eq)]
pub enum CheckNoted {
    /// It stands in the history.
    Noted,
    /// The session was shut down before.
    ShutDown,
    /// Memory ran out, and nothing is noted.
    NoMemory,
}

impl<B: Room> Locked<B> {
    /// How many calls are accepted, and whether the session is shut down. It takes no memory.
    pub fn look(&mut self, counter: &Counter<B>, pass: &mut Pass<B>) -> News
        requires { pass.old.name.number ≡ Some engine_number }
        ensures looks { Looks pass.old pass.new result }
    {
        self.look_over(counter, pass, &[]).0
    }

    /// The same, with the first of these tickets of which a cancel stands. It takes no memory.
    pub fn look_over(
        &mut self,
        counter: &Counter<B>,
        pass: &mut Pass<B>,
        tickets: &[u64],
    ) -> (News, Option<u64>)
        requires { pass.old.name.number ≡ Some engine_number }
        ensures looks { Looks pass.old pass.new result.0 }
        ensures cancelled { result.1 ≡ find (is_cancelled (journal_of pass.new.seen)) tickets.now }
    {
        counter.take_lead(&mut pass.seat, &mut self.scribe);
        let news = News {
            accepted: self.books.queue.accepted(),
            is_closed: self.books.queue.is_closed(),
        };
        let cancelled = self.books.first_cancelled(tickets);
        counter.give_lead(&mut pass.seat, &mut self.scribe);
        (news, cancelled)
    }

    /// A copy of the call of an accepted ticket, unless it is settled.
    pub fn posted(
        &mut self,
        alloc: Global,
        counter: &Counter<B>,
        pass: &mut Pass<B>,
        ticket: u64,
    ) -> Result<Option<Call>, NoMemory>
        requires engine { pass.old.name.number ≡ Some engine_number }
        requires there { ticket < accepted (journal_of pass.old.seen) }
        ensures { Finds pass.old pass.new ticket result }
    {
        counter.take_lead(&mut pass.seat, &mut self.scribe);
        let found = self.books.posted(alloc, ticket);
        counter.give_lead(&mut pass.seat, &mut self.scribe);
        found
    }

    /// Settles the call of a ticket that was open, unless the session is shut down, where all calls are settled. Says whether
    /// a mutation takes effect. It takes no memory.
    pub fn settle(
        &mut self,
        counter: &Counter<B>,
        pass: &mut Pass<B>,
        ticket: u64,
        what: Settling,
    ) -> Effect
        requires engine { pass.old.name.number ≡ Some engine_number }
        requires unanswered { IsTrue (is_open (journal_of pass.old.seen) ticket) }
        requires next { IsTrue (is_next (journal_of pass.old.seen) ticket) }
        ensures settles { Settles pass.old pass.new ticket what result }
    {
        counter.take_lead(&mut pass.seat, &mut self.scribe);
        if self.books.queue.is_closed() {
            counter.give_lead(&mut pass.seat, &mut self.scribe);
            return Effect::Dropped;
        }
        let effect = self.books.settle(counter, &mut pass.seat, ticket, what);
        counter.give_lead(&mut pass.seat, &mut self.scribe);
        effect
    }

    /// Notes the check of a file with the problems that it found, unless the session is shut down.
    pub fn check(
        &mut self,
        counter: &Counter<B>,
        pass: &mut Pass<B>,
        file: &Text,
        problems: &Row<Problem>,
    ) -> CheckNoted
        requires engine { pass.old.name.number ≡ Some engine_number }
        requires due { IsTrue (may_follow (journal_of pass.old.seen) (Checked file.now)) }
        ensures checks { Checks pass.old pass.new file.now problems.now result }
    {
        counter.take_lead(&mut pass.seat, &mut self.scribe);
        if self.books.queue.is_closed() {
            counter.give_lead(&mut pass.seat, &mut self.scribe);
            return CheckNoted::ShutDown;
        }
        match self.books.check(counter, &mut pass.seat, file, problems) {
            Ok(()) => {
                counter.give_lead(&mut pass.seat, &mut self.scribe);
                CheckNoted::Noted
            }
            Err(_) => {
                counter.give_lead(&mut pass.seat, &mut self.scribe);
                CheckNoted::NoMemory
            }
        }
    }
}

impl<B: Room> Desk<B> {
    /// How many calls are accepted, and whether the session is shut down. It takes no memory.
    pub fn look<R: Wait>(&self, rt: &R, engine: &mut EnginePass<B>) -> News
        requires { engine.old.pass.name.number ≡ Some engine_number }
        ensures looks { Looks engine.old.pass engine.new.pass result }
        ensures made { engine.new.made ≡ engine.old.made }
    {
        self.locked.lock(rt).look(&self.counter, &mut engine.pass)
    }

    /// The same, with the first of these tickets of which a cancel stands. It takes no memory.
    pub fn look_over<R: Wait>(
        &self,
        rt: &R,
        engine: &mut EnginePass<B>,
        tickets: &[u64],
    ) -> (News, Option<u64>)
        requires { engine.old.pass.name.number ≡ Some engine_number }
        ensures looks { Looks engine.old.pass engine.new.pass result.0 }
        ensures cancelled { result.1 ≡ find (is_cancelled (journal_of engine.new.pass.seen)) tickets.now }
        ensures made { engine.new.made ≡ engine.old.made }
    {
        self.locked
            .lock(rt)
            .look_over(&self.counter, &mut engine.pass, tickets)
    }

    /// A copy of the call of an accepted ticket, unless it is settled.
    pub fn posted<R: Wait>(
        &self,
        rt: &R,
        alloc: Global,
        engine: &mut EnginePass<B>,
        ticket: u64,
    ) -> Result<Option<Call>, NoMemory>
        requires engine { engine.old.pass.name.number ≡ Some engine_number }
        requires there { ticket < accepted (journal_of engine.old.pass.seen) }
        ensures finds { Finds engine.old.pass engine.new.pass ticket result }
        ensures made { engine.new.made ≡ engine.old.made }
    {
        self.locked
            .lock(rt)
            .posted(alloc, &self.counter, &mut engine.pass, ticket)
    }

    /// Waits until more calls than these are accepted, or the session is shut down. It takes no memory.
    pub fn await_calls<R: Wait>(&self, rt: &R, engine: &mut EnginePass<B>, count: u64) -> News
        requires { engine.old.pass.name.number ≡ Some engine_number }
        ensures looks { Looks engine.old.pass engine.new.pass result }
        ensures made { engine.new.made ≡ engine.old.made }
        ensures more { (result.is_closed ≡ true) ⊎ (count < result.accepted) }
    {
        let mut locked = self.locked.lock(rt);
        for _ in rt.forever() {
            let news = locked.look(&self.counter, &mut engine.pass);
            if news.is_closed || count < news.accepted {
                return news;
            }
            locked = self.posted.wait(rt, locked);
        }
        unreachable!()
    }

    /// Settles the call of a ticket that was open, unless the session is shut down, where all calls are settled, and wakes all
    /// that wait for an answer. Says whether a mutation takes effect. It takes no memory.
    pub fn settle<R: Wait>(
        &self,
        rt: &R,
        engine: &mut EnginePass<B>,
        ticket: u64,
        what: Settling,
    ) -> Effect
        requires engine { engine.old.pass.name.number ≡ Some engine_number }
        requires unanswered { IsTrue (is_open (journal_of engine.old.pass.seen) ticket) }
        requires next { IsTrue (is_next (journal_of engine.old.pass.seen) ticket) }
        ensures settles { Settles engine.old.pass engine.new.pass ticket what result }
        ensures made { engine.new.made ≡ engine.old.made }
    {
        let effect = self
            .locked
            .lock(rt)
            .settle(&self.counter, &mut engine.pass, ticket, what);
        self.settled.notify_all();
        effect
    }

    /// Notes the check of a file with the problems that it found, unless the session is shut down.
    pub fn check<R: Wait>(
        &self,
        rt: &R,
        engine: &mut EnginePass<B>,
        file: &Text,
        problems: &Row<Problem>,
    ) -> CheckNoted
        requires engine { engine.old.pass.name.number ≡ Some engine_number }
        requires due { IsTrue (may_follow (journal_of engine.old.pass.seen) (Checked file.now)) }
        ensures checks { Checks engine.old.pass engine.new.pass file.now problems.now result }
        ensures made { engine.new.made ≡ engine.old.made }
    {
        self.locked
            .lock(rt)
            .check(&self.counter, &mut engine.pass, file, problems)
    }
}
