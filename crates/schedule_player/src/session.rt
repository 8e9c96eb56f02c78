ghost use Rattle.std.specs.Prelude.{◌≡◌, ℕ, ◌<◌, ◌≤◌, ◌+◌, ◌^◌, ◌++◌, ◌∷◌, [], length, slice_set, slice_index_or, unwrap_or, is_some, Some, None, Ok, Err, IsTrue, IfOk, OnOk, OnErr, IsSome, true, false};
ghost use Rattle.ask_history.specs.Sources.{mutated};
ghost use Rattle.ask_history.specs.Engine.{HasFileSizes, has_file_names};
ghost use Rattle.ask_history.specs.Journal.{accepted, after, call_of, is_cancelled, is_open, reply, taking_effect};
ghost use Rattle.ask_history.specs.Closing.{after_close};
ghost use Rattle.ask_history.specs.Schedule.{cancel_ticket};
ghost use Rattle.ask_history.specs.Legal.{is_legal, is_next, may_follow};
ghost use Rattle.ask_history.specs.declared.answers.Answer.TheVariants as answer;
ghost use Rattle.ask_history.specs.declared.events.Event.TheVariants.{Accept, Settle, Checked};
ghost use Rattle.work_queue.specs.Reloads.{reloaded_by};
ghost use Rattle.work_queue.specs.Queue.{mark_of, value_of, effect_of};
ghost use Rattle.report_hub.specs.Hub.{reporters_of, of_box, OfEach, IsTold};
ghost use Rattle.schedule_player.specs.Around.{first_of, around, onto, with_work, top_work, top_under_ask, is_ask};
ghost use Rattle.schedule_player.specs.SessionState.{fresh_session};
ghost use Rattle.schedule_player.specs.Steps.{IsAccepted};

use crate::Played;
use crate::outers::{Outer, Work};
use ask_history::{Answer, Call, Effect};
use pc_terms::{NoMemory, Problem, Row, Text};
use report_hub::Hub;
use std::alloc::Global;
use std::collections::VecDeque;
use std::marker::Model;
use work_queue::{Limits, Queue, Settling};

/// The problems of a file that a check found, before they are noted.
#[derive(Debug, Drop)]
pub struct Pending {
    pub file: Text,
    pub problems: Row<Problem>,
}

// Whether it is an ask.
fn is_ask(work: Work) -> bool
    ensures { result ≡ is_ask work }
{
    matches!(work, Work::Ask { .. })
}

/// A session that is played, between two steps.
#[derive(Drop)]
pub struct Session {
    queue: Queue,
    // The ticket of each call line, by its number, where it was accepted. No line has the number 0.
    tickets: Vec<Option<u64>>,
    // The answer of each ticket. A call that is open has the answer that a shutdown would give it.
    answers: Vec<Answer>,
    // The problems of each check, in order.
    problems: Vec<Row<Problem>>,
    // The lines around the next one, the innermost first.
    outers: VecDeque<Outer>,
    // What the engine has told of a check that is not noted.
    found: Option<Pending>,
    closed: bool,
}

impl Model for Session {
    ghost use Rattle.schedule_player.specs.SessionState.{SessionState};
    ghost use Rattle.std.specs.Coded.{codes};
    ghost use Rattle.ask_history.specs.contracts.answers.Answer as answer;

    ghost Value = { SessionState };

    ghost coded = { Prim.hlevel (codes, answer.the_row.coded) };

    ghost view = { λ session. record { journal = session.queue.journal; tickets = session.tickets.items; answers = session.answers.items; problems = session.problems.items; outers = session.outers.items; found = session.found; closed = session.closed } };
}

impl Session {
    /// A session in which nothing was played. Its queue takes on as much as any may.
    pub fn new(alloc: Global) -> Result<Session, NoMemory>
        ensures { IfOk result (λ session. session ≡ fresh_session) }
    {
        let limits = Limits {
            calls: 65_536,
            text: 268_435_456,
            names: 1024,
            map: 16_777_216,
            file: 262_144,
        };
        let mut tickets = Vec::new(alloc);
        tickets.push(None)?;
        Ok(Session {
            queue: Queue::new(alloc, limits)?,
            tickets,
            answers: Vec::new(alloc),
            problems: Vec::new(alloc),
            outers: VecDeque::new(alloc),
            found: None,
            closed: false,
        })
    }

    /// Whether the session is shut down.
    pub fn is_closed(&self) -> bool
        ensures { result ≡ self.now.closed }
    {
        self.closed
    }

    /// Whether a cancel of the ticket stands.
    pub fn is_cancelled(&self, ticket: u64) -> bool
        ensures { result ≡ is_cancelled self.now.journal ticket }
    {
        self.queue.is_cancelled(ticket)
    }

    /// Numbers a call line that is not accepted.
    pub fn refuse(&mut self) -> Result<(), NoMemory>
        ensures ok { OnOk result (self.new ≡ record self.old { tickets = self.old.tickets ++ None ∷ [] }) }
        ensures err { OnErr result (self.new ≡ self.old) }
    {
        self.tickets.push(None)?;
        Ok(())
    }

    /// Numbers a call line and accepts its call. Gives the ticket.
    pub fn accept(&mut self, call: Call) -> Result<u64, NoMemory>
        requires names { has_file_names call ≡ true }
        requires few { length (reloaded_by call) < 2 ^ 32 }
        ensures ticket { IfOk result (λ ticket. ticket ≡ accepted self.old.journal) }
        ensures ok { OnOk result (self.new ≡ record self.old { journal = self.old.journal ++ Accept (accepted self.old.journal) 0 (length self.old.tickets) call ∷ []; tickets = self.old.tickets ++ Some (accepted self.old.journal) ∷ []; answers = self.old.answers ++ answer.Closed ∷ [] }) }
        ensures err { OnErr result (self.new ≡ self.old) }
    {
        self.tickets.reserve(1)?;
        self.answers.reserve(1)?;
        let number = self.tickets.len() as u64;
        match self.queue.post(0, number, call) {
            Ok(ticket) => {
                self.tickets.push_reserved(Some(ticket));
                self.answers.push_reserved(Answer::Closed);
                Ok(ticket)
            }
            Err(_refused) => Err(NoMemory {}),
        }
    }

    /// The call of an accepted ticket.
    pub fn call(&self, ticket: u64) -> &Call
        requires { ticket < accepted self.now.journal }
        ensures call { call_of self.now.journal ticket ≡ Some result.now }
        ensures sizes { HasFileSizes result.now }
        ensures few { length (mutated (after self.now.journal) result.now) ≤ 1024 }
    {
        self.queue.call(ticket)
    }

    /// Settles an open call, and keeps its answer.
    pub fn settle(&mut self, ticket: u64, what: Settling) -> Effect
        requires unanswered { IsTrue (is_open self.old.journal ticket) }
        requires next { IsTrue (is_next self.old.journal ticket) }
        requires within { ticket < length self.old.answers }
        ensures effect { result ≡ effect_of (taking_effect self.old.journal ticket (mark_of what)) }
        ensures session { self.new ≡ record self.old { journal = self.old.journal ++ Settle ticket (mark_of what) ∷ []; answers = slice_set self.old.answers ticket (reply (λ files call. value_of what) self.old.journal ticket (mark_of what)) } }
    {
        let (effect, answer) = self.queue.settle(ticket, what);
        self.answers[ticket as usize] = answer;
        effect
    }

    /// The ticket of the call line of this number, where it was accepted.
    fn ticket_of(&self, number: u32) -> Option<u64>
        ensures { result ≡ slice_index_or self.now.tickets number None }
    {
        *self.tickets.get(number as usize)?
    }

    #[tactic(auto, using(crate::proofs::Cancels::cancelling_is))]
    fn cancel_ticket(&mut self, ticket: u64)
        requires { IsAccepted self.old.journal ticket }
        ensures { self.new ≡ record self.old { journal = cancel_ticket (Some ticket) self.old.journal } }
    {
        self.queue.cancel(ticket);
    }

    /// Cancels the call line of this number, where it was accepted and is open.
    pub fn cancel(&mut self, number: u32)
        requires { (ticket : ℕ) → slice_index_or self.old.tickets number None ≡ Some ticket → IsAccepted self.old.journal ticket }
        ensures { self.new ≡ record self.old { journal = cancel_ticket (slice_index_or self.old.tickets number None) self.old.journal } }
    {
        if let Some(ticket) = self.ticket_of(number) {
            self.cancel_ticket(ticket);
        }
    }

    /// Shuts the session down.
    pub fn close(&mut self)
        ensures { self.new ≡ record self.old { journal = after_close self.old.journal; closed = true } }
    {
        self.queue.close();
        self.closed = true;
    }

    /// Keeps what the engine has told of a check.
    pub fn find(&mut self, found: Pending)
        ensures { self.new ≡ record self.old { found = Some found } }
    {
        self.found = Some(found);
    }

    /// Whether the engine has told of a check that is not noted.
    pub fn has_found(&self) -> bool
        ensures { result ≡ is_some self.now.found }
    {
        self.found.is_some()
    }

    /// Drops what the engine has told of a check that is not noted: the sources have changed.
    pub fn forget_found(&mut self)
        ensures { self.new ≡ record self.old { found = None } }
    {
        self.found = None;
    }

    /// Notes a check of which the engine has told, and then tells the reporters.
    pub fn note(&mut self, found: Pending, hub: &mut Hub) -> Result<(), NoMemory>
        requires { IsTrue (may_follow self.old.journal (Checked found.file)) }
        ensures ok { OnOk result (self.new ≡ record self.old { journal = self.old.journal ++ Checked found.file ∷ []; problems = self.old.problems ++ found.problems ∷ [] }) }
        ensures told { OnOk result (OfEach (IsTold (of_box told) (of_box faults) (found.file, found.problems)) (reporters_of hub.old) (reporters_of hub.new)) }
        ensures err { OnErr result (self.new ≡ self.old) }
        ensures untold { OnErr result (reporters_of hub.new ≡ reporters_of hub.old) }
    {
        let Pending { file, problems } = found;
        self.problems.reserve(1)?;
        self.queue.checked(&file)?;
        hub.tell(&file, &problems);
        self.problems.push_reserved(problems);
        Ok(())
    }

    /// What the engine has told of a check that is not noted, to be noted now.
    pub fn take_found(&mut self) -> Option<Pending>
        ensures found { result ≡ self.old.found }
        ensures session { self.new ≡ record self.old { found = None } }
    {
        self.found.take()
    }

    /// The innermost line with lines still to come.
    pub fn top(&self) -> Option<Outer>
        ensures { result ≡ first_of self.now.outers }
    {
        self.outers.front().copied()
    }

    /// What becomes of the lines under the innermost one. Lines under none are played in their place.
    pub fn top_work(&self) -> Work
        ensures { result ≡ top_work self.now.outers }
    {
        match self.top() {
            Some(outer) => outer.work,
            None => Work::Beside,
        }
    }

    /// Whether the lines to come stand under an ask.
    pub fn is_under_ask(&self) -> bool
        ensures { result ≡ top_under_ask self.now.outers }
    {
        match self.top() {
            Some(outer) => outer.under_ask,
            None => false,
        }
    }

    /// Puts a line of this level around those to come, of which nothing was played.
    pub fn push(&mut self, level: u32) -> Result<(), NoMemory>
        ensures ok { OnOk result (self.new ≡ record self.old { outers = onto level self.old.outers }) }
        ensures err { OnErr result (self.new ≡ self.old) }
    {
        let outer = Outer {
            level,
            under_ask: self.is_under_ask(),
            work: Work::Passed,
        };
        self.outers.push_front(outer)?;
        Ok(())
    }

    /// Takes the innermost line off.
    pub fn pop(&mut self)
        ensures { self.new ≡ record self.old { outers = around self.old.outers } }
    {
        self.outers.pop_front();
    }

    /// Changes what becomes of the lines under the innermost one.
    pub fn set_work(&mut self, work: Work)
        ensures { self.new ≡ record self.old { outers = with_work work self.old.outers } }
    {
        if let Some(outer) = self.outers.pop_front() {
            self.outers.push_front_reserved(Outer {
                level: outer.level,
                under_ask: outer.under_ask || is_ask(work),
                work,
            });
        }
    }

    /// What was played.
    pub fn into_played(self, whole: bool) -> Played
        ensures journal { result.journal.events ≡ self.journal }
        ensures answers { result.answers ≡ self.answers }
        ensures problems { result.problems ≡ self.problems }
        ensures whole { result.whole ≡ whole }
    {
        let Session {
            queue,
            tickets: _,
            answers,
            problems,
            outers: _,
            found: _,
            closed: _,
        } = self;
        Played {
            journal: queue.into_journal(),
            answers: Row::from_vec(answers),
            problems: Row::from_vec(problems),
            whole,
        }
    }
}
