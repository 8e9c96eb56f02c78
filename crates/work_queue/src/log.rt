ghost use Rattle.std.specs.Prelude.{◌≡◌, ℕ, ◌<◌, ◌≤◌, ◌+◌, ◌++◌, ◌∷◌, [], length, Some, None, IsTrue, IfOk, IfErr, OnOk, OnErr, true, false, not, is_none, vec_len, vec_capacity};
ghost use Rattle.ask_history.specs.Journal.{accepted, call_of, is_closed, is_cancelled, is_settled, is_open};
ghost use Rattle.ask_history.specs.Legal.{is_legal, may_follow};
ghost use Rattle.ask_history.specs.declared.events.Event.TheVariants.{Accept, Cancel, Close, Settle, Checked};
ghost use Rattle.work_queue.specs.Indexes.{cancel_index, settle_index, close_index};
ghost use Rattle.work_queue.specs.Closing.{open_below, settled};

use ask_history::{Call, Event, Mark};
use pc_terms::{NoMemory, Text};
use std::alloc::Global;
use std::marker::Model;

/// The journal indexes of a ticket's events.
#[derive(Clone, Copy, Debug)]
pub struct Indexes {
    pub accept: usize,
    pub cancel: Option<u64>,
    pub settle: Option<u64>,
}

impl Indexes {
    ghost use Rattle.work_queue.specs.Log.{events_left};

    fn events_left(self) -> usize
        ensures { result ≡ events_left self }
    {
        match (self.settle, self.cancel) {
            (Some(_), _) => 0,
            (None, Some(_)) => 1,
            (None, None) => 2,
        }
    }
}

/// A legal journal. It keeps the journal indexes of each ticket's events, and room for the events that may come of them.
#[derive(Debug, Drop)]
pub struct Log {
    events: Vec<Event>,
    indexes: Vec<Indexes>,
    closed: Option<u64>,
    promised: usize,
}

impl Model for Log {
    ghost use Rattle.std.specs.Prelude.{List};
    ghost use Rattle.ask_history.specs.declared.events.Event.{Event};

    ghost Value = { List Event };

    ghost use Rattle.work_queue.specs.Log.{IsLog};

    ghost view = { λ log. log.events.items };

    ghost invariant = { IsLog };
}

impl Log {
    pub fn new(alloc: Global) -> Result<Log, NoMemory>
        ensures { IfOk result (λ log. log ≡ []) }
    {
        let events = Vec::with_capacity(alloc, 1)?;
        Ok(Log {
            events,
            indexes: Vec::new(alloc),
            closed: None,
            promised: 1,
        })
    }

    pub fn accepted(&self) -> usize
        ensures { result ≡ accepted self.now }
    {
        self.indexes.len()
    }

    pub fn close_index(&self) -> Option<u64>
        ensures { result ≡ close_index self.now }
    {
        self.closed
    }

    pub fn cancel_index(&self, ticket: usize) -> Option<u64>
        requires { ticket < accepted self.now }
        ensures { result ≡ cancel_index self.now ticket }
    {
        self.indexes[ticket].cancel
    }

    pub fn is_cancelled(&self, ticket: u64) -> bool
        ensures { result ≡ is_cancelled self.now ticket }
    {
        match self.indexes.get(ticket as usize) {
            Some(indexes) => indexes.cancel.is_some(),
            None => false,
        }
    }

    pub fn is_settled(&self, ticket: u64) -> bool
        ensures { result ≡ is_settled self.now ticket }
    {
        match self.indexes.get(ticket as usize) {
            Some(indexes) => indexes.settle.is_some(),
            None => false,
        }
    }

    fn is_open(&self, ticket: usize) -> bool
        requires { ticket < accepted self.now }
        ensures unanswered { result ≡ is_open self.now ticket }
        ensures unsettled { result ≡ not (is_settled self.now ticket) }
    {
        self.indexes[ticket].settle.is_none()
    }

    pub fn settle_index(&self, ticket: usize) -> Option<u64>
        requires { ticket < accepted self.now }
        ensures index { result ≡ settle_index self.now ticket }
        ensures unanswered { is_open self.now ticket ≡ is_none result }
    {
        self.indexes[ticket].settle
    }

    pub fn events(&self) -> &[Event]
        ensures events { result.now ≡ self.now }
        ensures legal { IsTrue (is_legal self.now) }
    {
        self.events.as_slice()
    }

    /// The events as a vector. It takes no memory.
    pub fn into_events(self) -> Vec<Event>
        ensures { result.items ≡ self }
    {
        let Log {
            events,
            indexes: _,
            closed: _,
            promised: _,
        } = self;
        events
    }

    pub fn call(&self, ticket: usize) -> &Call
        requires { ticket < accepted self.now }
        ensures { call_of self.now ticket ≡ Some result.now }
    {
        match &self.events[self.indexes[ticket].accept] {
            Event::Accept { call, .. } => call,
            _ => unreachable!(),
        }
    }

    /// Accepts a call under the next ticket, and makes room for its cancel and its settling. Out of memory the
    /// call comes back.
    pub fn accept(&mut self, client: u64, tag: u64, call: Call) -> Result<u64, Call>
        requires { is_closed self.old ≡ false }
        ensures ticket { IfOk result (λ ticket. ticket ≡ accepted self.old) }
        ensures ok { IfOk result (λ ticket. self.new ≡ self.old ++ Accept ticket client tag call ∷ []) }
        ensures call { IfErr result (λ back. back ≡ call) }
        ensures err { OnErr result (self.new ≡ self.old) }
        ensures legal { IsTrue (is_legal self.new) }
    {
        let promised = self.promised + 2;
        if self.events.reserve(promised + 1).is_err() {
            return Err(call);
        }
        let accept = self.events.len();
        let ticket = self.indexes.len();
        let indexes = Indexes {
            accept,
            cancel: None,
            settle: None,
        };
        if self.indexes.push(indexes).is_err() {
            return Err(call);
        }
        let ticket = ticket as u64;
        put(
            &mut self.events,
            Event::Accept {
                ticket,
                client,
                tag,
                call,
            },
        );
        self.promised = promised;
        Ok(ticket)
    }

    /// Appends the ticket's cancel, and gives its journal index. It takes no memory.
    pub fn cancel(&mut self, ticket: usize) -> u64
        requires { IsTrue (may_follow self.old (Cancel ticket)) }
        ensures index { result ≡ length self.old }
        ensures journal { self.new ≡ self.old ++ Cancel ticket ∷ [] }
        ensures legal { IsTrue (is_legal self.new) }
    {
        let index = self.events.len() as u64;
        let was = self.indexes[ticket];
        self.indexes[ticket] = Indexes {
            cancel: Some(index),
            ..was
        };
        put(
            &mut self.events,
            Event::Cancel {
                ticket: ticket as u64,
            },
        );
        self.promised -= 1;
        index
    }

    /// Appends the ticket's answer. It takes no memory.
    pub fn settle(&mut self, ticket: usize, mark: Mark)
        requires { IsTrue (may_follow self.old (Settle ticket mark)) }
        ensures journal { self.new ≡ self.old ++ Settle ticket mark ∷ [] }
        ensures legal { IsTrue (is_legal self.new) }
    {
        let index = self.events.len() as u64;
        let was = self.indexes[ticket];
        self.indexes[ticket] = Indexes {
            settle: Some(index),
            ..was
        };
        put(
            &mut self.events,
            Event::Settle {
                ticket: ticket as u64,
                mark,
            },
        );
        self.promised -= was.events_left();
    }

    /// Appends the shutdown, and gives its journal index. It takes no memory.
    pub fn shut(&mut self) -> u64
        requires { is_closed self.old ≡ false }
        ensures index { result ≡ length self.old }
        ensures journal { self.new ≡ self.old ++ Close ∷ [] }
        ensures legal { IsTrue (is_legal self.new) }
    {
        let index = self.events.len() as u64;
        put(&mut self.events, Event::Close);
        self.closed = Some(index);
        self.promised -= 1;
        index
    }

    /// Appends the shutdown, and the answers of all open tickets. It gives the shutdown's journal index, and takes no memory.
    pub fn close(&mut self) -> u64
        requires { is_closed self.old ≡ false }
        ensures index { result ≡ length self.old }
        ensures journal { self.new ≡ self.old ++ Close ∷ settled (open_below self.old (accepted self.old)) }
        ensures settled { (ticket : ℕ) → ticket < accepted self.new → is_settled self.new ticket ≡ true }
        ensures legal { IsTrue (is_legal self.new) }
    {
        let index = self.shut();
        self.settle_open();
        index
    }

    fn settle_open(&mut self)
        requires { IsTrue (is_legal self.old) }
        ensures journal { self.new ≡ self.old ++ settled (open_below self.old (accepted self.old)) }
        ensures settled { (ticket : ℕ) → ticket < accepted self.new → is_settled self.new ticket ≡ true }
        ensures legal { IsTrue (is_legal self.new) }
    {
        for ticket in 0..self.accepted() {
            if self.is_open(ticket) {
                self.settle(ticket, Mark::Done);
            }
        }
    }

    /// Appends a check, in room of its own.
    pub fn check(&mut self, file: Text) -> Result<(), NoMemory>
        requires { IsTrue (may_follow self.old (Checked file)) }
        ensures ok { OnOk result (self.new ≡ self.old ++ Checked file ∷ []) }
        ensures err { OnErr result (self.new ≡ self.old) }
        ensures legal { IsTrue (is_legal self.new) }
    {
        self.events.reserve(self.promised + 1)?;
        put(&mut self.events, Event::Checked { file });
        Ok(())
    }
}

/// Puts an item where room is made for it. It takes no memory.
fn put<T: Drop>(items: &mut Vec<T>, item: T)
    requires { vec_len items.old < vec_capacity items.old }
    ensures items { items.new.items ≡ items.old.items ++ item ∷ [] }
    ensures len { vec_len items.new ≡ vec_len items.old + 1 }
    ensures capacity { vec_capacity items.old ≤ vec_capacity items.new }
{
    match items.push(item) {
        Ok(()) => {}
        Err(_) => unreachable!(),
    }
}
