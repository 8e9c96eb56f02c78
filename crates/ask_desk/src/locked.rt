//! The desk's state under its lock.
ghost use Rattle.std.specs.Prelude.{◌≡◌, ◌⊎◌, ℕ, ◌<◌, ◌+◌, ◌^◌, ◌++◌, ◌∷◌, [], length, Some, None, is_some, IsTrue, IfOk, IfErr, OnOk, OnErr, true, false};
ghost use mathlib.Core.List.{IsPrefix};
ghost use Rattle.ask_history.specs.Engine.{has_file_names};
ghost use Rattle.ask_history.specs.Legal.{is_legal};
ghost use Rattle.work_queue.specs.Reloads.{reloaded_by};
ghost use Rattle.counting_word.specs.Views.{first_view, after_scribe};
ghost use Rattle.counting_word.specs.History.{journal_of, taker_of, has};
ghost use Rattle.ask_desk.specs.Passes.{Accepts, Refuses, Cancels, Closes};
ghost use Rattle.ask_desk.specs.Results.{Tries};

use crate::books::Books;
use crate::pass::{Pass, Ticket};
use ask_history::{Answer, Call, Journal};
use counting_word::{Counter, Room, Seat};
use response_cell::Cells;
use std::alloc::Global;
use std::marker::{Model, PhantomData};
use work_queue::{CancelSeen, PostRefused, Queue};

/// What lies under the lock: the queue, the cells and the seat that leads between calls. Contracts see that seat's view.
#[derive(Drop)]
pub struct Locked<B: Room> {
    pub(crate) books: Books,
    pub(crate) scribe: Seat<B>,
}

impl<B: Room> Model for Locked<B> {
    ghost use Rattle.std.specs.Prelude.{◌≡◌, true};
    ghost use Rattle.counting_word.specs.declared.view.View.{View};
    ghost use Rattle.counting_word.specs.contracts.view.View as known;

    ghost Value = { View };

    ghost coded = { known.the_row.coded };

    ghost use Rattle.ask_desk.specs.Locked.{IsDesk};

    ghost view = { λ desk. desk.scribe };

    ghost invariant = { λ desk. (desk.scribe.leads ≡ true) × IsDesk desk.books.queue desk.books.cells desk.scribe.seen desk.scribe.name.given B.limits };
}

/// What a look for an answer finds.
#[derive(Drop)]
pub enum Tried<B: Room> {
    Got(Answer),
    NotYet(Ticket<B>),
}

impl<B: Room> Locked<B> {
    /// The state of a desk with an empty history. The engine's first seat hands its lead to the scribe.
    pub(crate) fn new(
        counter: &Counter<B>,
        engine: &mut Seat<B>,
        queue: Queue,
        cells: Cells,
    ) -> Locked<B>
        requires first { engine.old ≡ first_view }
        requires queue { (queue.journal ≡ []) × (queue.limits ≡ B.limits) }
        requires cells { cells ≡ [] }
        ensures { engine.new ≡ after_scribe first_view }
    {
        let scribe = counter.scribe(engine);
        Locked {
            books: Books { queue, cells },
            scribe,
        }
    }

    /// The whole journal, which what the pass has seen begins. It takes no memory.
    pub(crate) fn into_journal(self, counter: &Counter<B>, pass: Pass<B>) -> Journal
        ensures begins { IsPrefix (journal_of pass.seen) result.events }
        ensures legal { IsTrue (is_legal result.events) }
    {
        let Locked { books, mut scribe } = self;
        let Pass {
            mut seat,
            number: _,
        } = pass;
        counter.take_lead(&mut seat, &mut scribe);
        let Books { queue, cells: _ } = books;
        queue.into_journal()
    }

    /// Accepts a call in the name of a pass. A refused call comes back.
    pub fn post(
        &mut self,
        alloc: Global,
        counter: &Counter<B>,
        pass: &mut Pass<B>,
        tag: u64,
        call: Call,
    ) -> Result<Ticket<B>, (PostRefused, Call)>
        requires few { length (reloaded_by call) < 2 ^ 32 }
        requires names { has_file_names call ≡ true }
        ensures ok { IfOk result (λ ticket. Accepts B.limits pass.old pass.new ticket.ticket tag call) }
        ensures refused { IfErr result (λ back. (back.1 ≡ call) × Refuses B.limits pass.old pass.new back.0 call) }
    {
        counter.take_lead(&mut pass.seat, &mut self.scribe);
        let number = pass.number;
        match self
            .books
            .accept(alloc, counter, &mut pass.seat, number, tag, call)
        {
            Ok(ticket) => {
                counter.give_lead(&mut pass.seat, &mut self.scribe);
                Ok(Ticket {
                    ticket,
                    room: PhantomData,
                })
            }
            Err(refused) => {
                counter.give_lead(&mut pass.seat, &mut self.scribe);
                Err(refused)
            }
        }
    }

    /// Cancels the call of a ticket, unless it is settled. It takes no memory.
    pub fn cancel(
        &mut self,
        counter: &Counter<B>,
        pass: &mut Pass<B>,
        ticket: &Ticket<B>,
    ) -> CancelSeen
        requires { IsTrue (is_some (taker_of pass.old.seen ticket.now.ticket)) }
        ensures cancels { Cancels pass.old pass.new ticket.now.ticket result }
    {
        counter.take_lead(&mut pass.seat, &mut self.scribe);
        let seen = self.books.cancel(counter, &mut pass.seat, ticket.ticket);
        counter.give_lead(&mut pass.seat, &mut self.scribe);
        seen
    }

    /// Shuts the session down, unless it is shut down, and settles all open tickets. Gives the journal index of the shutdown. It
    /// takes no memory.
    pub fn close(&mut self, counter: &Counter<B>, pass: &mut Pass<B>) -> u64
        ensures closes { Closes pass.old pass.new result }
    {
        counter.take_lead(&mut pass.seat, &mut self.scribe);
        let index = self.books.close(counter, &mut pass.seat);
        counter.give_lead(&mut pass.seat, &mut self.scribe);
        index
    }

    /// The answer of a ticket, where its settling stands. It takes no memory.
    pub fn try_receive(
        &mut self,
        counter: &Counter<B>,
        pass: &mut Pass<B>,
        ticket: Ticket<B>,
    ) -> Tried<B>
        requires mine { taker_of pass.old.seen ticket.ticket ≡ pass.old.name.number }
        requires first { has pass.old.name.got ticket.ticket ≡ false }
        ensures tries { Tries pass.old pass.new ticket.ticket result }
    {
        counter.take_lead(&mut pass.seat, &mut self.scribe);
        match self.books.cells.take(ticket.ticket) {
            Some(answer) => {
                counter.hand(&mut pass.seat, ticket.ticket);
                counter.give_lead(&mut pass.seat, &mut self.scribe);
                Tried::Got(answer)
            }
            None => {
                counter.give_lead(&mut pass.seat, &mut self.scribe);
                Tried::NotYet(ticket)
            }
        }
    }
}
