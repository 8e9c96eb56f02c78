//! Seats at the table that has the word, and their steps.
ghost use Rattle.std.specs.Prelude.{◌≡◌, ℕ, ◌≤◌, ◌<◌, ◌+◌, ◌^◌, ◌⊎◌, true, false, length, Some, is_some, unwrap_or, [], ◌∷◌, ◌++◌, IsTrue, IfOk};
ghost use mathlib.Core.List.{IsPrefix};
ghost use Rattle.ask_history.specs.Journal.{is_settled};
ghost use Rattle.ask_history.specs.Legal.{is_legal};
ghost use Rattle.counting_word.specs.History.{journal_of, taker_of, engine_number};
ghost use Rattle.counting_word.specs.Views.{first_view, loaded, handed, appended, client_of, after_client, note_of, joined, scribe_of, after_scribe};
ghost use Rattle.counting_word.specs.Steps.{Learns};
ghost use Rattle.counting_word.specs.Calls.{entry_of, Meets, TakesLead, GivesLead};
ghost use Rattle.counting_word.specs.declared.view.Found.TheVariants.{Nothing, Answered, Problems};

use crate::rule::{
    Append, Both, Client, CountingWord, HandOut, Handing, Load, Note, Scribe, Writing,
};
use crate::view::View;
use ask_history::{Answer, Event};
use atomic_table::Table;
use pc_terms::{NoMemory, Problem, Row};
use std::alloc::Global;
use std::marker::{Brand, Model, PhantomData};
use std::mem;
use work_queue::Limits;

/// Names one table, and the limits that its history carries.
pub trait Room {
    ghost use Rattle.atomic_table.specs.Seated.{TableId};
    ghost use Rattle.work_queue.specs.declared.limits.Limits.{Limits};

    ghost table: { TableId };

    ghost limits: { Limits };
}

impl Room for Brand {
    ghost use Rattle.counting_word.specs.Rooms.{no_table, no_limits};

    ghost table = { no_table };

    ghost limits = { no_limits };
}

type Words = Table<u8, View, (), CountingWord, Global>;

/// A table whose word is 0 and whose history is empty, with its first seat. It has no name yet.
#[derive(Drop)]
pub struct Opened {
    words: Words,
    first: atomic_table::Seat<u8, View>,
    limits: Limits,
    ghost one_word: { words.shared.table_id.words ≡ 1 },
    ghost same_table: { first.table_id ≡ words.shared.table_id },
    ghost is_first: { first.me ≡ (first_view, []) },
}

/// The word that all threads share: the length of the history.
#[derive(Drop)]
pub struct Counter<B: Room> {
    words: Words,
    room: PhantomData<B>,
    ghost one_word: { words.shared.table_id.words ≡ 1 },
    ghost named: { words.shared.table_id ≡ B.table },
}

/// A seat at the table. Contracts see its view.
#[derive(Drop)]
pub struct Seat<B: Room> {
    seat: atomic_table::Seat<u8, View>,
    room: PhantomData<B>,
}

impl<B: Room> Model for Seat<B> {
    ghost use Rattle.std.specs.Prelude.{◌≡◌, []};
    ghost use Rattle.counting_word.specs.declared.view.View.{View};
    ghost use Rattle.counting_word.specs.contracts.view.View as known;

    ghost Value = { View };

    ghost coded = { known.the_row.coded };

    ghost view = { λ s. s.seat.me.0 };

    ghost invariant = { λ s. (s.seat.table_id ≡ B.table) × (s.seat.me.1 ≡ []) };
}

impl Opened {
    /// A new table, for a history that carries these limits.
    pub fn new(alloc: Global, limits: Limits) -> Result<Opened, NoMemory>
        ensures { IfOk result (λ opened. opened.limits ≡ limits) }
    {
        let (words, first) = Table::of_words(alloc, &[0], &())?;
        Ok(Opened {
            words,
            first,
            limits,
        })
    }

    /// The table under a name, and the engine's seat, which leads.
    pub fn named<B: Room>(self) -> (Counter<B>, Seat<B>)
        requires table { self.words.shared.table_id ≡ B.table }
        requires limits { self.limits ≡ B.limits }
        ensures { result.1 ≡ first_view }
    {
        let Opened {
            words,
            first,
            limits: _,
        } = self;
        (
            Counter {
                words,
                room: PhantomData,
            },
            Seat {
                seat: first,
                room: PhantomData,
            },
        )
    }
}

impl<B: Room> Counter<B> {
    /// How many entries the history has. It waits for nobody.
    pub fn glance(&self, seat: &mut Seat<B>) -> u64
        ensures view { seat.new ≡ loaded seat.old result }
        ensures learns { Learns seat.old result }
    {
        self.words.shared.load::<Load>(&mut seat.seat, 0)
    }

    /// A seat that knows what this one has seen.
    fn note(&self, seat: &mut Seat<B>) -> Seat<B>
        ensures note { result ≡ note_of seat.old }
        ensures same { seat.new ≡ seat.old }
    {
        let note = self.words.shared.split_seat::<Note>(&mut seat.seat);
        Seat {
            seat: note,
            room: PhantomData,
        }
    }

    /// Takes in what another seat has seen.
    fn join(&self, seat: &mut Seat<B>, other: Seat<B>)
        ensures { seat.new ≡ joined seat.old other }
    {
        let Seat { seat: note, .. } = other;
        self.words.shared.join_seat::<Both>(&mut seat.seat, note);
    }

    /// Takes in what another seat has seen, which leaves that one as it is.
    fn learn(&self, seat: &mut Seat<B>, other: &mut Seat<B>)
        ensures found { (found : ℕ) × (seat.new ≡ loaded (joined seat.old (note_of other.old)) found) × Learns (joined seat.old (note_of other.old)) found }
        ensures same { other.new ≡ other.old }
    {
        let note = self.note(other);
        self.join(seat, note);
        self.glance(seat);
    }

    /// Both seats then know what either has seen. It waits for nobody.
    pub fn meet(&self, one: &mut Seat<B>, other: &mut Seat<B>)
        requires one { one.old.leads ≡ false }
        requires other { other.old.leads ≡ false }
        ensures { Meets one.old other.old one.new other.new }
    {
        self.learn(other, one);
        self.learn(one, other);
    }

    /// Takes the lead over from the scribe, and so knows all of the history. Give it back before the lock is let go.
    pub fn take_lead(&self, seat: &mut Seat<B>, scribe: &mut Seat<B>)
        requires scribe { scribe.old.leads ≡ true }
        requires seat { seat.old.leads ≡ false }
        ensures { TakesLead seat.old scribe.old seat.new }
    {
        let note = self.note(seat);
        let leader = mem::replace(scribe, note);
        self.join(seat, leader);
        self.glance(seat);
    }

    /// Looks at the word, and hands the lead to a new scribe.
    pub fn give_lead(&self, seat: &mut Seat<B>, scribe: &mut Seat<B>)
        requires { seat.old.leads ≡ true }
        ensures { GivesLead seat.old seat.new scribe.new }
    {
        self.glance(seat);
        *scribe = self.scribe(seat);
    }

    /// A new scribe, which leads.
    pub fn scribe(&self, seat: &mut Seat<B>) -> Seat<B>
        requires { seat.old.leads ≡ true }
        ensures scribe { result ≡ scribe_of seat.old }
        ensures rest { seat.new ≡ after_scribe seat.old }
    {
        let scribe = self.words.shared.split_seat::<Scribe>(&mut seat.seat);
        Seat {
            seat: scribe,
            room: PhantomData,
        }
    }

    /// Puts an event in the seat's own name at the end of the history.
    pub fn append(&self, seat: &mut Seat<B>, event: &Event)
        requires leads { seat.old.leads ≡ true }
        requires named { IsTrue (is_some seat.old.name.number) }
        requires room { length seat.old.seen + 1 < 2 ^ 64 }
        requires legal { IsTrue (is_legal (journal_of seat.old.seen ++ event.now ∷ [])) }
        ensures { seat.new ≡ appended seat.old (entry_of seat.old.name event.now Nothing) }
    {
        self.write::<Brand, _>(seat, event, &());
    }

    /// Puts the settling of a call in the seat's own name at the end of the history, with the call's answer.
    pub fn append_answer(&self, seat: &mut Seat<B>, event: &Event, answer: &Answer)
        requires leads { seat.old.leads ≡ true }
        requires named { IsTrue (is_some seat.old.name.number) }
        requires room { length seat.old.seen + 1 < 2 ^ 64 }
        requires legal { IsTrue (is_legal (journal_of seat.old.seen ++ event.now ∷ [])) }
        ensures { seat.new ≡ appended seat.old (entry_of seat.old.name event.now (Answered answer.now)) }
    {
        self.write::<Brand, _>(seat, event, answer);
    }

    /// Puts a check in the seat's own name at the end of the history, with the problems that it found.
    pub fn append_check(&self, seat: &mut Seat<B>, event: &Event, problems: &Row<Problem>)
        requires leads { seat.old.leads ≡ true }
        requires named { IsTrue (is_some seat.old.name.number) }
        requires room { length seat.old.seen + 1 < 2 ^ 64 }
        requires legal { IsTrue (is_legal (journal_of seat.old.seen ++ event.now ∷ [])) }
        ensures { seat.new ≡ appended seat.old (entry_of seat.old.name event.now (Problems problems.now)) }
    {
        self.write::<Brand, _>(seat, event, problems);
    }

    /// Puts an entry at the end of the history. What the event found is passed on so that each caller picks the entry
    /// by it.
    fn write<W: Writing, F>(&self, seat: &mut Seat<B>, event: &Event, _found: &F)
        requires leads { seat.old.leads ≡ true }
        requires named { IsTrue (is_some seat.old.name.number) }
        requires room { length seat.old.seen + 1 < 2 ^ 64 }
        requires legal { IsTrue (is_legal (journal_of seat.old.seen ++ event.now ∷ [])) }
        requires event { W.entry.event ≡ event.now }
        requires author { W.entry.author ≡ unwrap_or seat.old.name.number 0 }
        ensures { seat.new ≡ appended seat.old W.entry }
    {
        self.words
            .shared
            .fetch_add::<Append<W>>(&mut seat.seat, 0, 1);
    }

    /// Notes that the answer of a ticket, which this pass took, is handed to it.
    pub fn hand(&self, seat: &mut Seat<B>, ticket: u64) -> u64
        requires leads { seat.old.leads ≡ true }
        requires named { IsTrue (is_some seat.old.name.number) }
        requires taken { taker_of seat.old.seen ticket ≡ seat.old.name.number }
        requires settled { IsTrue (is_settled (journal_of seat.old.seen) ticket) }
        ensures view { seat.new ≡ handed seat.old ticket result }
        ensures learns { Learns seat.old result }
    {
        self.hand_out::<Brand>(seat, ticket)
    }

    fn hand_out<T: Handing>(&self, seat: &mut Seat<B>, ticket: u64) -> u64
        requires leads { seat.old.leads ≡ true }
        requires named { IsTrue (is_some seat.old.name.number) }
        requires taken { taker_of seat.old.seen ticket ≡ seat.old.name.number }
        requires settled { IsTrue (is_settled (journal_of seat.old.seen) ticket) }
        requires ticket { T.ticket ≡ ticket }
        ensures view { seat.new ≡ handed seat.old ticket result }
        ensures learns { Learns seat.old result }
    {
        self.words.shared.load::<HandOut<T>>(&mut seat.seat, 0)
    }

    /// A pass for a new client, of the next number.
    pub fn client(&self, engine: &mut Seat<B>) -> Seat<B>
        requires engine { engine.old.name.number ≡ Some engine_number }
        requires few { engine.old.name.made < engine_number }
        ensures client { result ≡ client_of engine.old }
        ensures engine { engine.new ≡ after_client engine.old }
    {
        let client = self.words.shared.split_seat::<Client>(&mut engine.seat);
        Seat {
            seat: client,
            room: PhantomData,
        }
    }
}
