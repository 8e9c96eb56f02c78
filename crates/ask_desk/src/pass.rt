//! What callers hold: passes and tickets.
ghost use Rattle.std.specs.Borrow.{sem};
ghost use Rattle.std.specs.Prelude.{◌≡◌, ◌<◌, ℕ, Some};
ghost use Rattle.counting_word.specs.Views.{loaded, client_of, after_client};
ghost use Rattle.counting_word.specs.History.{engine_number};
ghost use Rattle.counting_word.specs.Steps.{Learns};
ghost use Rattle.counting_word.specs.Calls.{Meets};
ghost use Rattle.ask_desk.specs.Facts.{IsPass};

use counting_word::{Counter, Room, Seat};
use std::marker::{Model, PhantomData};

/// A caller's token: its number, and a seat with what it has seen of the history. Contracts see the seat's view.
#[derive(Drop)]
pub struct Pass<B: Room> {
    pub(crate) seat: Seat<B>,
    pub(crate) number: u64,
}

impl<B: Room> Model for Pass<B> {
    ghost use Rattle.counting_word.specs.declared.view.View.{View};
    ghost use Rattle.counting_word.specs.contracts.view.View as known;

    ghost Value = { View };

    ghost coded = { known.the_row.coded };

    ghost use Rattle.ask_desk.specs.Facts.{IsPass};

    ghost view = { λ pass. pass.seat };

    ghost invariant = { λ pass. IsPass pass.seat pass.number };
}

impl<B: Room> Pass<B> {
    /// What a pass knows between calls. It does nothing.
    pub fn known(&self)
        ensures { (number : ℕ) × IsPass self.now number }
    {
        let _number = self.number;
    }

    pub(crate) fn glance(&mut self, counter: &Counter<B>) -> u64
        ensures view { self.new ≡ loaded self.old result }
        ensures learns { Learns self.old result }
    {
        counter.glance(&mut self.seat)
    }

    /// A pass for a new client, of this number.
    pub(crate) fn client(&mut self, counter: &Counter<B>, number: u64) -> Pass<B>
        requires engine { self.old.name.number ≡ Some engine_number }
        requires next { self.old.name.made ≡ number }
        requires few { number < engine_number }
        ensures client { (found : ℕ) × (result ≡ loaded (client_of self.old) found) }
        ensures engine { (found : ℕ) × (self.new ≡ loaded (after_client self.old) found) }
    {
        let mut client = counter.client(&mut self.seat);
        counter.glance(&mut client);
        counter.glance(&mut self.seat);
        Pass {
            seat: client,
            number,
        }
    }
}

/// Both passes then know what either has seen.
pub(crate) fn meet<B: Room>(counter: &Counter<B>, one: &mut Pass<B>, other: &mut Pass<B>)
    ensures { Meets one.old other.old one.new other.new }
{
    counter.meet(&mut one.seat, &mut other.seat);
}

/// The pass of the engine, which makes the others, and counts them.
#[derive(Drop)]
pub struct EnginePass<B: Room> {
    pub(crate) pass: Pass<B>,
    pub(crate) made: u64,
}

impl<B: Room> EnginePass<B> {
    ghost use Rattle.ask_desk.specs.Lending.{LendsPass};

    /// The pass that it holds.
    pub fn as_pass(&mut self) -> &mut Pass<B>
        ensures* writes_back { sem 𝓛 (LendsPass B.row B.Room self.entry result) }
        ensures value { result.now ≡ self.old.pass }
    {
        &mut self.pass
    }
}

/// The right to one answer. It cannot be copied.
#[derive(Drop)]
pub struct Ticket<B: Room> {
    pub(crate) ticket: u64,
    pub(crate) room: PhantomData<B>,
}
