//! The queue and the cells of a desk, which a pass that leads writes into the history.
ghost use Rattle.std.specs.Prelude.{◌≡◌, ◌⊎◌, ℕ, ◌<◌, ◌≤◌, ◌+◌, ◌^◌, ◌++◌, ◌∷◌, [], length, Some, None, IsTrue, IfOk, IfErr, OnOk, OnErr, true, false, is_some, List};
ghost use Rattle.std.specs.List.{find};
ghost use Rattle.ask_history.specs.Engine.{has_file_names};
ghost use Rattle.ask_history.specs.Journal.{accepted, is_cancelled, is_closed, is_open, is_settled, taking_effect};
ghost use Rattle.ask_history.specs.Legal.{is_legal, is_next, may_follow};
ghost use Rattle.ask_history.specs.declared.events.Event.{Event as AnEvent};
ghost use Rattle.ask_history.specs.declared.events.Event.TheVariants.{Accept, Cancel, Checked};
ghost use Rattle.work_queue.specs.Reloads.{reloaded_by};
ghost use Rattle.work_queue.specs.Refusal.{refusal};
ghost use Rattle.work_queue.specs.Queue.{cancel_seen, cancelling, effect_of, mark_of};
ghost use Rattle.counting_word.specs.History.{journal_of, engine_number};
ghost use Rattle.counting_word.specs.Views.{appended};
ghost use Rattle.work_queue.specs.Indexes.{close_index};
ghost use Rattle.ask_desk.specs.Answers.{written, closing};
ghost use Rattle.ask_desk.specs.Driving.{settled_as, checking, IsPosted};
ghost use Rattle.ask_desk.specs.Locked.{IsDesk, AreSettled, told};
ghost use Rattle.ask_desk.specs.Events.{settled_ticket};
ghost use Rattle.work_queue.specs.declared.limits.PostRefused.TheVariants.{NoMemory as NoRoom};

use ask_history::{Answer, Call, Effect, Event};
use counting_word::{Counter, Room, Seat};
use pc_terms::{NoMemory, Problem, Row, Text};
use response_cell::Cells;
use std::alloc::Global;
use work_queue::{CancelSeen, PostRefused, Queue, Settling, copied};

/// What a desk keeps: its calls, and the answers that wait.
#[derive(Drop)]
pub struct Books {
    pub queue: Queue,
    pub cells: Cells,
}

impl Books {
    /// Accepts a call, and puts it at the end of the history in the name of the seat, which leads.
    pub fn accept<B: Room>(
        &mut self,
        alloc: Global,
        counter: &Counter<B>,
        seat: &mut Seat<B>,
        number: u64,
        tag: u64,
        call: Call,
    ) -> Result<u64, (PostRefused, Call)>
        requires few { length (reloaded_by call) < 2 ^ 32 }
        requires names { has_file_names call ≡ true }
        requires leads { seat.old.leads ≡ true }
        requires named { seat.old.name.number ≡ Some number }
        requires desk { IsDesk self.old.queue self.old.cells seat.old.seen seat.old.name.given B.limits }
        requires legal { IsTrue (is_legal (journal_of seat.old.seen)) }
        ensures desk { IsDesk self.new.queue self.new.cells seat.new.seen seat.new.name.given B.limits }
        ensures next { IfOk result (λ ticket. ticket ≡ accepted (journal_of seat.old.seen)) }
        ensures free { OnOk result (refusal B.limits (journal_of seat.old.seen) call ≡ None) }
        ensures ok { IfOk result (λ ticket. seat.new ≡ written seat.old (Accept ticket number tag call ∷ [])) }
        ensures refused { IfErr result (λ back. (back.1 ≡ call) × ((back.0 ≡ NoRoom) ⊎ (refusal B.limits (journal_of seat.old.seen) call ≡ Some back.0))) }
        ensures err { OnErr result (seat.new ≡ seat.old) }
    {
        let ticket = self.queue.accepted();
        match self.cells.cover(ticket) {
            Ok(()) => self.accept_covered(counter, seat, number, tag, call),
            Err(_) => Err((PostRefused::NoMemory, call)),
        }
    }

    /// The same, where the next ticket has its cell.
    fn accept_covered<B: Room>(
        &mut self,
        counter: &Counter<B>,
        seat: &mut Seat<B>,
        number: u64,
        tag: u64,
        call: Call,
    ) -> Result<u64, (PostRefused, Call)>
        requires few { length (reloaded_by call) < 2 ^ 32 }
        requires names { has_file_names call ≡ true }
        requires leads { seat.old.leads ≡ true }
        requires named { seat.old.name.number ≡ Some number }
        requires desk { IsDesk self.old.queue self.old.cells seat.old.seen seat.old.name.given B.limits }
        requires covered { accepted (journal_of seat.old.seen) + 1 ≤ length self.old.cells }
        requires legal { IsTrue (is_legal (journal_of seat.old.seen)) }
        ensures desk { IsDesk self.new.queue self.new.cells seat.new.seen seat.new.name.given B.limits }
        ensures next { IfOk result (λ ticket. ticket ≡ accepted (journal_of seat.old.seen)) }
        ensures free { OnOk result (refusal B.limits (journal_of seat.old.seen) call ≡ None) }
        ensures ok { IfOk result (λ ticket. seat.new ≡ written seat.old (Accept ticket number tag call ∷ [])) }
        ensures refused { IfErr result (λ back. (back.1 ≡ call) × ((back.0 ≡ NoRoom) ⊎ (refusal B.limits (journal_of seat.old.seen) call ≡ Some back.0))) }
        ensures err { OnErr result (seat.new ≡ seat.old) }
    {
        match self.queue.post(number, tag, call) {
            Ok(ticket) => {
                counter.append(seat, last_event(self.queue.journal()));
                Ok(ticket)
            }
            Err(refused) => Err(refused),
        }
    }

    /// Cancels a call, and puts the cancel at the end of the history in the name of the seat, which leads.
    pub fn cancel<B: Room>(
        &mut self,
        counter: &Counter<B>,
        seat: &mut Seat<B>,
        ticket: u64,
    ) -> CancelSeen
        requires accepted { ticket < accepted (journal_of seat.old.seen) }
        requires leads { seat.old.leads ≡ true }
        requires named { IsTrue (is_some seat.old.name.number) }
        requires desk { IsDesk self.old.queue self.old.cells seat.old.seen seat.old.name.given B.limits }
        requires legal { IsTrue (is_legal (journal_of seat.old.seen)) }
        ensures desk { IsDesk self.new.queue self.new.cells seat.new.seen seat.new.name.given B.limits }
        ensures seat { seat.new ≡ written seat.old (cancelling (journal_of seat.old.seen) ticket) }
        ensures seen { result ≡ cancel_seen (journal_of seat.old.seen) ticket }
    {
        let count = self.queue.journal().len();
        let seen = self.queue.cancel(ticket);
        if count < self.queue.journal().len() {
            counter.append(seat, last_event(self.queue.journal()));
            return seen;
        }
        seen
    }

    /// Settles a call in the name of the seat, which leads and is the engine's, and puts the answer into its cell. Says whether
    /// a mutation takes effect.
    pub fn settle<B: Room>(
        &mut self,
        counter: &Counter<B>,
        seat: &mut Seat<B>,
        ticket: u64,
        what: Settling,
    ) -> Effect
        requires leads { seat.old.leads ≡ true }
        requires engine { seat.old.name.number ≡ Some engine_number }
        requires desk { IsDesk self.old.queue self.old.cells seat.old.seen seat.old.name.given B.limits }
        requires given { AreSettled seat.old.name.given seat.old.seen }
        requires legal { IsTrue (is_legal (journal_of seat.old.seen)) }
        requires unanswered { IsTrue (is_open (journal_of seat.old.seen) ticket) }
        requires next { IsTrue (is_next (journal_of seat.old.seen) ticket) }
        ensures desk { IsDesk self.new.queue self.new.cells seat.new.seen seat.new.name.given B.limits }
        ensures seat { seat.new ≡ appended seat.old (settled_as seat.old.name (journal_of seat.old.seen) ticket what) }
        ensures effect { result ≡ effect_of (taking_effect (journal_of seat.old.seen) ticket (mark_of what)) }
    {
        let (effect, answer) = self.queue.settle(ticket, what);
        counter.append_answer(seat, last_event(self.queue.journal()), &answer);
        self.cells.set(ticket, answer);
        effect
    }

    /// The first of these tickets of which a cancel stands.
    pub fn first_cancelled(&self, tickets: &[u64]) -> Option<u64>
        ensures { result ≡ find (is_cancelled self.now.queue.journal) tickets.now }
    {
        for ticket in tickets {
            if self.queue.is_cancelled(*ticket) {
                return Some(*ticket);
            }
        }
        None
    }

    /// A copy of the call of an accepted ticket, unless it is settled.
    pub fn posted(&self, alloc: Global, ticket: u64) -> Result<Option<Call>, NoMemory>
        requires { ticket < accepted self.now.queue.journal }
        ensures { IsPosted self.now.queue.journal ticket result }
    {
        if self.queue.is_settled(ticket) {
            return Ok(None);
        }
        match copied(alloc, self.queue.call(ticket)) {
            Ok(call) => Ok(Some(call)),
            Err(refused) => Err(refused),
        }
    }

    /// Notes a check in the name of the seat, which leads and is the engine's, with the problems that it found.
    pub fn check<B: Room>(
        &mut self,
        counter: &Counter<B>,
        seat: &mut Seat<B>,
        file: &Text,
        problems: &Row<Problem>,
    ) -> Result<(), NoMemory>
        requires leads { seat.old.leads ≡ true }
        requires engine { seat.old.name.number ≡ Some engine_number }
        requires desk { IsDesk self.old.queue self.old.cells seat.old.seen seat.old.name.given B.limits }
        requires legal { IsTrue (is_legal (journal_of seat.old.seen)) }
        requires due { IsTrue (may_follow (journal_of seat.old.seen) (Checked file.now)) }
        ensures desk { IsDesk self.new.queue self.new.cells seat.new.seen seat.new.name.given B.limits }
        ensures ok { OnOk result (seat.new ≡ appended seat.old (checking seat.old.name file.now problems.now)) }
        ensures err { OnErr result (seat.new ≡ seat.old) }
    {
        match self.queue.checked(file) {
            Ok(()) => {
                counter.append_check(seat, last_event(self.queue.journal()), problems);
                Ok(())
            }
            Err(refused) => Err(refused),
        }
    }

    /// Shuts the session down, unless it is shut down, and puts that at the end of the history in the name of the seat,
    /// which leads. Gives the journal index of the shutdown.
    pub fn close<B: Room>(&mut self, counter: &Counter<B>, seat: &mut Seat<B>) -> u64
        requires leads { seat.old.leads ≡ true }
        requires named { IsTrue (is_some seat.old.name.number) }
        requires desk { IsDesk self.old.queue self.old.cells seat.old.seen seat.old.name.given B.limits }
        requires given { AreSettled seat.old.name.given seat.old.seen }
        requires legal { IsTrue (is_legal (journal_of seat.old.seen)) }
        ensures desk { IsDesk self.new.queue self.new.cells seat.new.seen seat.new.name.given B.limits }
        ensures seat { seat.new ≡ written seat.old (closing (journal_of seat.old.seen)) }
        ensures index { close_index (journal_of seat.new.seen) ≡ Some result }
        ensures settled { (ticket : ℕ) → ticket < accepted (journal_of seat.new.seen) → is_settled (journal_of seat.new.seen) ticket ≡ true }
    {
        let count = self.queue.journal().len();
        let index = self.queue.close();
        write_shutdown(
            counter,
            seat,
            &mut self.cells,
            &self.queue.journal()[count..],
        );
        index
    }
}

/// Puts the events of a shutdown at the end of the history.
fn write_shutdown<B: Room>(
    counter: &Counter<B>,
    seat: &mut Seat<B>,
    cells: &mut Cells,
    events: &[Event],
)
    requires leads { seat.old.leads ≡ true }
    requires named { IsTrue (is_some seat.old.name.number) }
    requires desk { IsDesk (told seat.old.seen B.limits) cells.old seat.old.seen seat.old.name.given B.limits }
    requires given { AreSettled seat.old.name.given seat.old.seen }
    requires events { events.now ≡ closing (journal_of seat.old.seen) }
    requires legal { IsTrue (is_legal (journal_of seat.old.seen ++ events.now)) }
    requires room { length (journal_of seat.old.seen ++ events.now) < 2 ^ 64 }
    ensures desk { IsDesk (told seat.new.seen B.limits) cells.new seat.new.seen seat.new.name.given B.limits }
    ensures seat { seat.new ≡ written seat.old events.now }
{
    if let Some((close, settlings)) = events.split_first() {
        counter.append(seat, close);
        write_settlings(counter, seat, cells, settlings);
    }
}

/// Puts the settlings of a shutdown at the end of the history, and the answers into their cells.
fn write_settlings<B: Room>(
    counter: &Counter<B>,
    seat: &mut Seat<B>,
    cells: &mut Cells,
    events: &[Event],
)
    requires leads { seat.old.leads ≡ true }
    requires named { IsTrue (is_some seat.old.name.number) }
    requires desk { IsDesk (told seat.old.seen B.limits) cells.old seat.old.seen seat.old.name.given B.limits }
    requires given { AreSettled seat.old.name.given seat.old.seen }
    requires closed { is_closed (journal_of seat.old.seen) ≡ true }
    requires legal { IsTrue (is_legal (journal_of seat.old.seen ++ events.now)) }
    requires room { length (journal_of seat.old.seen ++ events.now) < 2 ^ 64 }
    ensures desk { IsDesk (told seat.new.seen B.limits) cells.new seat.new.seen seat.new.name.given B.limits }
    ensures seat { seat.new ≡ written seat.old events.now }
{
    for event in events {
        if let Some(ticket) = settled_ticket(event) {
            counter.append_answer(seat, event, &Answer::Closed);
            cells.set(ticket, Answer::Closed);
        }
    }
}

fn settled_ticket(event: &Event) -> Option<u64>
    ensures { result ≡ settled_ticket event.now }
{
    match event {
        Event::Settle { ticket, mark: _ } => Some(*ticket),
        _ => None,
    }
}

fn last_event(events: &[Event]) -> &Event
    requires { 0 < length events.now }
    ensures { (front : List AnEvent) (event : AnEvent) → events.now ≡ front ++ event ∷ [] → result.now ≡ event }
{
    &events[events.len() - 1]
}
