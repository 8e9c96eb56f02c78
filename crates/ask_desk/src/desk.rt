//! The thin layer that takes the lock, applies a change of the locked state, and lets go.
ghost use Rattle.std.specs.Prelude.{◌≡◌, ℕ, ◌<◌, ◌+◌, ◌^◌, length, Some, is_some, IsTrue, IfOk, IfErr, true, false};
ghost use mathlib.Core.List.{IsPrefix};
ghost use Rattle.ask_history.specs.Engine.{has_file_names};
ghost use Rattle.ask_history.specs.Legal.{is_legal};
ghost use Rattle.work_queue.specs.Refusal.{IsWithin};
ghost use Rattle.work_queue.specs.Reloads.{reloaded_by};
ghost use Rattle.counting_word.specs.History.{journal_of, taker_of, has, engine_number};
ghost use Rattle.counting_word.specs.Calls.{Meets};
ghost use Rattle.counting_word.specs.Views.{loaded, first_view, after_scribe, client_of, after_client};
ghost use Rattle.counting_word.specs.Steps.{Learns};
ghost use Rattle.ask_desk.specs.Passes.{Accepts, Refuses, Cancels, Closes, Receives};
ghost use Rattle.ask_desk.specs.Results.{Tries};

use crate::locked::{Locked, Tried};
use crate::pass::{EnginePass, Pass, Ticket, meet};
use ask_history::{Answer, Call, Journal};
use counting_word::{Counter, Opened, Room};
use pc_terms::NoMemory;
use response_cell::Cells;
use std::alloc::Global;
use std::sync::{Condvar, Mutex, Wait};
use work_queue::{CancelSeen, Limits, PostRefused, Queue};

// The number of the engine's pass.
const ENGINE: u64 = 1 << 32;

/// One history, which callers of any number add to and wait on.
#[derive(Drop)]
pub struct Desk<B: Room> {
    pub(crate) counter: Counter<B>,
    pub(crate) locked: Mutex<Locked<B>>,
    pub(crate) posted: Condvar,
    pub(crate) settled: Condvar,
}

impl<B: Room> Desk<B> {
    /// A desk with an empty history that carries these limits, over the table that was made for it, and the engine's pass.
    pub fn start(
        alloc: Global,
        opened: Opened,
        limits: Limits,
    ) -> Result<(Desk<B>, EnginePass<B>), NoMemory>
        requires within { IsWithin limits }
        requires table { opened.words.shared.table_id ≡ B.table }
        requires carried { opened.limits ≡ B.limits }
        requires limits { limits ≡ B.limits }
        ensures { IfOk result (λ made. (made.1.pass ≡ after_scribe first_view) × (made.1.made ≡ 0)) }
    {
        let queue = Queue::new(alloc, limits)?;
        let cells = Cells::new(alloc)?;
        let (counter, mut engine) = opened.named::<B>();
        let locked = Locked::new(&counter, &mut engine, queue, cells);
        let pass = Pass {
            seat: engine,
            number: ENGINE,
        };
        let desk = Desk {
            counter,
            locked: Mutex::new(locked),
            posted: Condvar::new(),
            settled: Condvar::new(),
        };
        Ok((desk, EnginePass { pass, made: 0 }))
    }

    /// A pass for a new client, of the next number.
    pub fn new_pass(&self, engine: &mut EnginePass<B>) -> Pass<B>
        requires engine { engine.old.pass.name.number ≡ Some engine_number }
        requires made { engine.old.pass.name.made ≡ engine.old.made }
        requires few { engine.old.made < engine_number }
        ensures client { (found : ℕ) × (result ≡ loaded (client_of engine.old.pass) found) }
        ensures engine { (found : ℕ) × (engine.new.pass ≡ loaded (after_client engine.old.pass) found) }
        ensures made { engine.new.made ≡ engine.old.made + 1 }
    {
        let number = engine.made;
        let pass = engine.pass.client(&self.counter, number);
        engine.made = number + 1;
        pass
    }

    /// The whole journal, which what the pass has seen begins. It takes no memory.
    pub fn end(self, engine: EnginePass<B>) -> Journal
        ensures begins { IsPrefix (journal_of engine.pass.seen) result.events }
        ensures legal { IsTrue (is_legal result.events) }
    {
        let Desk {
            counter,
            locked,
            posted: _,
            settled: _,
        } = self;
        let EnginePass { pass, made: _ } = engine;
        locked.into_inner().into_journal(&counter, pass)
    }

    /// Accepts a call in the name of a pass. A refused call comes back.
    pub fn post<R: Wait>(
        &self,
        rt: &R,
        alloc: Global,
        pass: &mut Pass<B>,
        tag: u64,
        call: Call,
    ) -> Result<Ticket<B>, (PostRefused, Call)>
        requires few { length (reloaded_by call) < 2 ^ 32 }
        requires names { has_file_names call ≡ true }
        ensures ok { IfOk result (λ ticket. Accepts B.limits pass.old pass.new ticket.ticket tag call) }
        ensures refused { IfErr result (λ back. (back.1 ≡ call) × Refuses B.limits pass.old pass.new back.0 call) }
    {
        let posted = self
            .locked
            .lock(rt)
            .post(alloc, &self.counter, pass, tag, call);
        self.posted.notify_all();
        posted
    }

    /// Cancels the call of a ticket, unless it is settled. It takes no memory.
    pub fn cancel<R: Wait>(&self, rt: &R, pass: &mut Pass<B>, ticket: &Ticket<B>) -> CancelSeen
        requires { IsTrue (is_some (taker_of pass.old.seen ticket.now.ticket)) }
        ensures { Cancels pass.old pass.new ticket.now.ticket result }
    {
        self.locked.lock(rt).cancel(&self.counter, pass, ticket)
    }

    /// The answer of a ticket, where its settling stands. It takes no memory.
    pub fn try_receive<R: Wait>(&self, rt: &R, pass: &mut Pass<B>, ticket: Ticket<B>) -> Tried<B>
        requires mine { taker_of pass.old.seen ticket.ticket ≡ pass.old.name.number }
        requires first { has pass.old.name.got ticket.ticket ≡ false }
        ensures { Tries pass.old pass.new ticket.ticket result }
    {
        self.locked
            .lock(rt)
            .try_receive(&self.counter, pass, ticket)
    }

    /// Waits for the answer of a ticket, until its settling stands. It takes no memory.
    pub fn receive<R: Wait>(&self, rt: &R, pass: &mut Pass<B>, ticket: Ticket<B>) -> Answer
        requires mine { taker_of pass.old.seen ticket.ticket ≡ pass.old.name.number }
        requires first { has pass.old.name.got ticket.ticket ≡ false }
        ensures { Receives pass.old pass.new ticket.ticket result }
    {
        let mut ticket = ticket;
        let mut locked = self.locked.lock(rt);
        for _ in rt.forever() {
            match locked.try_receive(&self.counter, pass, ticket) {
                Tried::Got(answer) => return answer,
                Tried::NotYet(back) => {
                    ticket = back;
                    locked = self.settled.wait(rt, locked);
                }
            }
        }
        unreachable!()
    }

    /// Shuts the session down, unless it is shut down, settles all open tickets, and wakes all that wait. Gives the
    /// journal index of the shutdown. It takes no memory.
    pub fn close<R: Wait>(&self, rt: &R, pass: &mut Pass<B>) -> u64
        ensures { Closes pass.old pass.new result }
    {
        let index = self.locked.lock(rt).close(&self.counter, pass);
        self.posted.notify_all();
        self.settled.notify_all();
        index
    }

    /// How many events the history has. It takes no lock and waits for nobody.
    pub fn glance(&self, pass: &mut Pass<B>) -> u64
        ensures view { pass.new ≡ loaded pass.old result }
        ensures learns { Learns pass.old result }
    {
        pass.glance(&self.counter)
    }

    /// Both passes then know what either has seen. It takes no lock and waits for nobody.
    pub fn meet(&self, one: &mut Pass<B>, other: &mut Pass<B>)
        ensures { Meets one.old other.old one.new other.new }
    {
        meet(&self.counter, one, other);
    }
}
