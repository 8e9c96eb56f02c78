ghost use Rattle.std.specs.Prelude.{◌≡◌, ℕ, ◌<◌, ◌≤◌, ◌+◌, ◌++◌, ◌∷◌, ◌^◌, [], length, Some, None, Ok, Err, IsTrue, IfOk, IfErr, OnOk, OnErr, true, false};
ghost use Rattle.ask_history.specs.Sources.{mutated};
ghost use Rattle.ask_history.specs.Journal.{accepted, after, call_of, is_closed, is_cancelled, is_settled, is_open, reply, taking_effect};
ghost use Rattle.ask_history.specs.Engine.{HasFileSizes, has_file_names};
ghost use Rattle.ask_history.specs.Legal.{is_legal, is_next, may_follow};
ghost use Rattle.ask_history.specs.declared.events.Event.TheVariants.{Accept, Cancel, Close, Settle, Checked};
ghost use Rattle.work_queue.specs.declared.limits.PostRefused.{PostRefused as Refused};
ghost use Rattle.work_queue.specs.Indexes.{close_index};
ghost use Rattle.work_queue.specs.Closing.{after_close};
ghost use Rattle.work_queue.specs.Reloads.{reloaded_by, reloads, usage_of};
ghost use Rattle.work_queue.specs.Refusal.{IsWithin, refusal};
ghost use Rattle.work_queue.specs.Queue.{next_ticket, after_next, with_events, cancel_seen, cancelling, mark_of, value_of, effect_of};

use crate::calls::{is_mutation, mark_of, outcome, overfull, reloaded, too_large};
use crate::limits::{CancelSeen, Limits, PostRefused, Settling};
use crate::log::Log;
use crate::tally::Tally;
use crate::usage::Usage;
use ask_history::{Answer, Call, Effect, Event, Journal};
use pc_terms::{NoMemory, Row, Text};
use std::alloc::Global;
use std::marker::Model;

/// The calls of a session, in the order of their tickets.
#[derive(Debug, Drop)]
pub struct Queue {
    log: Log,
    tally: Tally,
    limits: Limits,
    given: u64,
}

impl Model for Queue {
    ghost use Rattle.work_queue.specs.Queue.{QueueState};

    ghost Value = { QueueState };

    ghost use Rattle.work_queue.specs.QueueFacts.{IsQueue};

    ghost view = { λ queue. record { journal = queue.log; limits = queue.limits; given = queue.given } };

    ghost invariant = { IsQueue };
}

impl Queue {
    /// A queue with an empty journal. It makes room for the shutdown.
    pub fn new(alloc: Global, limits: Limits) -> Result<Queue, NoMemory>
        requires { IsWithin limits }
        ensures { IfOk result (λ queue. queue ≡ record { journal = []; limits = limits; given = 0 }) }
    {
        Ok(Queue {
            log: Log::new(alloc)?,
            tally: Tally::new(alloc),
            limits,
            given: 0,
        })
    }

    /// Accepts a call under the next ticket, and makes room for its cancel and its settling. A refused call comes back.
    pub fn post(&mut self, client: u64, tag: u64, call: Call) -> Result<u64, (PostRefused, Call)>
        requires few { length (reloaded_by call) < 2 ^ 32 }
        requires names { has_file_names call ≡ true }

        // It is refused where the limits say so, and else only out of memory.
        ensures refused { (why : Refused) → refusal self.old.limits self.old.journal call ≡ Some why → result ≡ Err (why, call) }
        ensures free { refusal self.old.limits self.old.journal call ≡ None → IfErr result (λ back. back ≡ (PostRefused.NoMemory, call)) }

        ensures ticket { IfOk result (λ ticket. ticket ≡ accepted self.old.journal) }
        ensures ok { IfOk result (λ ticket. self.new ≡ with_events self.old (Accept ticket client tag call ∷ [])) }
        ensures err { OnErr result (self.new ≡ self.old) }
        ensures legal { IsTrue (is_legal self.new.journal) }
    {
        match self.usage_with(&call) {
            Ok(usage) => self.accept(client, tag, call, usage),
            Err(why) => Err((why, call)),
        }
    }

    /// What the reloads take up with this call, or why it is refused.
    fn usage_with(&self, call: &Call) -> Result<Usage, PostRefused>
        requires { length (reloaded_by call.now) < 2 ^ 32 }
        ensures refused { IfErr result (λ why. refusal self.now.limits self.now.journal call.now ≡ Some why) }
        ensures free { OnOk result (refusal self.now.limits self.now.journal call.now ≡ None) }
        ensures usage { IfOk result (λ usage. usage ≡ usage_of (reloads self.now.journal ++ reloaded_by call.now)) }
        ensures legal { IsTrue (is_legal self.now.journal) }
    {
        if let Some(index) = self.log.close_index() {
            return Err(PostRefused::Closed(index));
        }
        let pairs = reloaded(call);
        if let Some(size) = too_large(self.limits.file, pairs) {
            return Err(PostRefused::TooLarge(size));
        }
        let count = self.accepted();
        if count == self.limits.calls {
            return Err(PostRefused::CallsFull(count));
        }
        let usage = self.tally.usage_with(pairs);
        match overfull(self.limits, usage) {
            Some(why) => Err(why),
            None => Ok(usage),
        }
    }

    fn accept(
        &mut self,
        client: u64,
        tag: u64,
        call: Call,
        usage: Usage,
    ) -> Result<u64, (PostRefused, Call)>
        requires free { refusal self.old.limits self.old.journal call ≡ None }
        requires names { has_file_names call ≡ true }
        requires usage { usage ≡ usage_of (reloads self.old.journal ++ reloaded_by call) }
        ensures ticket { IfOk result (λ ticket. ticket ≡ accepted self.old.journal) }
        ensures ok { IfOk result (λ ticket. self.new ≡ with_events self.old (Accept ticket client tag call ∷ [])) }
        ensures refused { IfErr result (λ back. back ≡ (PostRefused.NoMemory, call)) }
        ensures err { OnErr result (self.new ≡ self.old) }
        ensures legal { IsTrue (is_legal self.new.journal) }
    {
        let names = self.tally.longest.len();
        if self.tally.make_room(reloaded(&call)).is_err() {
            return Err((PostRefused::NoMemory, call));
        }
        match self.log.accept(client, tag, call) {
            Ok(ticket) => {
                let call = self.log.call(ticket as usize);
                self.tally.take_in(reloaded(call), usage);
                Ok(ticket)
            }
            Err(call) => {
                self.tally.keep(names);
                Err((PostRefused::NoMemory, call))
            }
        }
    }

    /// How many calls are accepted; the next ticket.
    pub fn accepted(&self) -> u64
        ensures { result ≡ accepted self.now.journal }
    {
        self.log.accepted() as u64
    }

    /// The call of an accepted ticket. Its texts are no longer than a file may be, its files have names that files may
    /// have, and it loads no more files than there may be.
    pub fn call(&self, ticket: u64) -> &Call
        requires { ticket < accepted self.now.journal }
        ensures call { call_of self.now.journal ticket ≡ Some result.now }
        ensures sizes { HasFileSizes result.now }
        ensures names { has_file_names result.now ≡ true }
        ensures few { length (mutated (after self.now.journal) result.now) ≤ 1024 }
    {
        self.log.call(ticket as usize)
    }

    /// Gives the accepted tickets in order, each once.
    pub fn take_next(&mut self) -> Option<u64>
        ensures ticket { result ≡ next_ticket self.old }
        ensures queue { self.new ≡ after_next self.old }
    {
        if self.log.close_index().is_some() || self.given == self.accepted() {
            return None;
        }
        let ticket = self.given;
        self.given += 1;
        Some(ticket)
    }

    /// Whether the session was shut down.
    pub fn is_closed(&self) -> bool
        ensures { result ≡ is_closed self.now.journal }
    {
        self.log.close_index().is_some()
    }

    /// Whether a cancel of the ticket stands.
    pub fn is_cancelled(&self, ticket: u64) -> bool
        ensures { result ≡ is_cancelled self.now.journal ticket }
    {
        self.log.is_cancelled(ticket)
    }

    /// Whether the ticket is settled, as every accepted one is after the shutdown.
    pub fn is_settled(&self, ticket: u64) -> bool
        ensures settled { result ≡ is_settled self.now.journal ticket }
        ensures shut { is_closed self.now.journal ≡ true → ticket < accepted self.now.journal → result ≡ true }
    {
        self.log.is_settled(ticket)
    }

    /// Cancels the call of an accepted ticket, unless it is settled. It takes no memory.
    pub fn cancel(&mut self, ticket: u64) -> CancelSeen
        requires { ticket < accepted self.old.journal }
        ensures seen { result ≡ cancel_seen self.old.journal ticket }
        ensures queue { self.new ≡ with_events self.old (cancelling self.old.journal ticket) }
        ensures legal { IsTrue (is_legal self.new.journal) }
    {
        let at = ticket as usize;
        if let Some(index) = self.log.settle_index(at) {
            return CancelSeen::Late(index);
        }
        match self.log.cancel_index(at) {
            Some(index) => CancelSeen::Marked(index),
            None => CancelSeen::Marked(self.log.cancel(at)),
        }
    }

    /// Settles the call of an open ticket, after all earlier mutations. Gives its answer, and whether the mutation that
    /// it is takes effect. It takes no memory.
    pub fn settle(&mut self, ticket: u64, what: Settling) -> (Effect, Answer)
        requires unanswered { IsTrue (is_open self.old.journal ticket) }
        requires next { IsTrue (is_next self.old.journal ticket) }
        ensures answer { result.1 ≡ reply (λ files call. value_of what) self.old.journal ticket (mark_of what) }
        ensures effect { result.0 ≡ effect_of (taking_effect self.old.journal ticket (mark_of what)) }
        ensures queue { self.new ≡ with_events self.old (Settle ticket (mark_of what) ∷ []) }
        ensures legal { IsTrue (is_legal self.new.journal) }
    {
        let at = ticket as usize;
        let is_cancelled = self.log.is_cancelled(ticket);
        let mutates = is_mutation(self.log.call(at));
        self.log.settle(at, mark_of(&what));
        outcome(is_cancelled, mutates, what)
    }

    /// Notes that a file was checked, in room of its own.
    pub fn checked(&mut self, file: &Text) -> Result<(), NoMemory>
        requires { IsTrue (may_follow self.old.journal (Checked file.now)) }
        ensures ok { OnOk result (self.new ≡ with_events self.old (Checked file.now ∷ [])) }
        ensures err { OnErr result (self.new ≡ self.old) }
        ensures legal { IsTrue (is_legal self.new.journal) }
    {
        let file = Text::new(*self.tally.longest.allocator(), file.as_str())?;
        self.log.check(file)
    }

    /// Shuts the session down, where it is not shut down, and settles all open tickets. Gives the journal index of the shutdown.
    /// It takes no memory.
    pub fn close(&mut self) -> u64
        ensures index { close_index self.new.journal ≡ Some result }
        ensures queue { self.new ≡ record self.old { journal = after_close self.old.journal } }
        ensures settled { (ticket : ℕ) → ticket < accepted self.new.journal → is_settled self.new.journal ticket ≡ true }
        ensures legal { IsTrue (is_legal self.new.journal) }
    {
        match self.log.close_index() {
            Some(index) => index,
            None => self.log.close(),
        }
    }

    /// The events so far. An event's position in them, from 0, is its journal index.
    pub fn journal(&self) -> &[Event]
        ensures journal { result.now ≡ self.now.journal }
        ensures legal { IsTrue (is_legal self.now.journal) }
    {
        self.log.events()
    }

    /// The journal by itself. It takes no memory.
    pub fn into_journal(self) -> Journal
        ensures journal { result.events ≡ self.journal }
        ensures legal { IsTrue (is_legal self.journal) }
    {
        let Queue {
            log,
            tally: _,
            limits: _,
            given: _,
        } = self;
        Journal {
            events: Row::from_vec(log.into_events()),
        }
    }
}
