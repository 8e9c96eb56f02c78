//! The engine's pass while it serves.
ghost use Rattle.std.specs.Prelude.{◌≡◌, ◌⊎◌, ◌<◌, ℕ, Some, IsTrue, true};
ghost use Rattle.std.specs.List.{find};
ghost use Rattle.ask_history.specs.Journal.{accepted, is_cancelled, is_open};
ghost use Rattle.ask_history.specs.Legal.{is_legal, is_next, may_follow};
ghost use Rattle.ask_history.specs.declared.events.Event.TheVariants.{Checked};
ghost use Rattle.counting_word.specs.History.{journal_of, engine_number};
ghost use Rattle.ask_desk.specs.Driving.{IsLater, Looks, Finds, Settles, Checks};
ghost use Rattle.desk_driver.specs.Serves.{Serves};

use ask_desk::{CheckNoted, Desk, EnginePass, News};
use ask_history::{Call, Effect};
use counting_word::Room;
use pc_terms::{NoMemory, Problem, Row, Text};
use std::alloc::Global;
use std::marker::{Brand, Model, PhantomData};
use std::sync::Wait;
use work_queue::Settling;

/// How a pass began to serve: what was known of it, and how many passes were made. Each call of `drive` picks it.
pub trait Begun {
    ghost use Rattle.counting_word.specs.declared.view.View.{View};

    ghost begun: { View };

    ghost count: { ℕ };
}

impl Begun for Brand {
    ghost use Rattle.counting_word.specs.Views.{first_view};

    ghost begun = { first_view };

    ghost count = { 0 };
}

/// The engine's pass while it serves. Contracts see what it knows.
#[derive(Drop)]
pub struct Serving<B: Room, M: Begun> {
    pass: EnginePass<B>,
    begun: PhantomData<M>,
}

impl<B: Room, M: Begun> Model for Serving<B, M> {
    ghost use Rattle.std.specs.Prelude.{◌≡◌};
    ghost use Rattle.counting_word.specs.declared.view.View.{View};
    ghost use Rattle.counting_word.specs.contracts.view.View as known;

    ghost Value = { View };

    ghost coded = { known.the_row.coded };

    ghost use Rattle.desk_driver.specs.Serves.{Serves};

    ghost view = { λ serving. serving.pass.pass };

    ghost invariant = { λ serving. Serves M.begun serving.pass.pass × (serving.pass.made ≡ M.count) };
}

impl<B: Room, M: Begun> Serving<B, M> {
    /// Begins to serve, with a look at what others did.
    pub fn begin<R: Wait>(rt: &R, desk: &Desk<B>, pass: EnginePass<B>) -> Serving<B, M>
        requires engine { pass.pass.name.number ≡ Some engine_number }
        requires begun { pass.pass ≡ M.begun }
        requires count { pass.made ≡ M.count }
        ensures later { IsLater pass.pass.seen result.seen }
        ensures legal { IsTrue (is_legal (journal_of result.seen)) }
    {
        let mut pass = pass;
        desk.look(rt, &mut pass);
        Serving {
            pass,
            begun: PhantomData,
        }
    }

    /// The pass, which served.
    pub fn into_pass(self) -> EnginePass<B>
        ensures pass { result.pass ≡ self }
        ensures serves { Serves M.begun result.pass }
        ensures made { result.made ≡ M.count }
    {
        let Serving { pass, begun: _ } = self;
        pass
    }

    /// What it has seen is a legal journal.
    pub fn law_legal(&self)
        ensures { IsTrue (is_legal (journal_of self.now.seen)) }
    {
        let _ = &self.pass;
    }

    /// Looks at what others did, and at which of these tickets is cancelled.
    pub fn look_over<R: Wait>(
        &mut self,
        rt: &R,
        desk: &Desk<B>,
        tickets: &[u64],
    ) -> (News, Option<u64>)
        ensures looks { Looks self.old self.new result.0 }
        ensures cancelled { result.1 ≡ find (is_cancelled (journal_of self.new.seen)) tickets.now }
    {
        desk.look_over(rt, &mut self.pass, tickets)
    }

    /// Waits until more calls than these are accepted, or the session is shut down.
    pub fn await_calls<R: Wait>(&mut self, rt: &R, desk: &Desk<B>, count: u64) -> News
        ensures looks { Looks self.old self.new result }
        ensures more { (result.is_closed ≡ true) ⊎ (count < result.accepted) }
    {
        desk.await_calls(rt, &mut self.pass, count)
    }

    /// A copy of the call of an accepted ticket, unless it is settled.
    pub fn posted<R: Wait>(
        &mut self,
        rt: &R,
        alloc: Global,
        desk: &Desk<B>,
        ticket: u64,
    ) -> Result<Option<Call>, NoMemory>
        requires { ticket < accepted (journal_of self.old.seen) }
        ensures { Finds self.old self.new ticket result }
    {
        desk.posted(rt, alloc, &mut self.pass, ticket)
    }

    /// Settles the call of a ticket that was open.
    pub fn settle<R: Wait>(&mut self, rt: &R, desk: &Desk<B>, ticket: u64, what: Settling) -> Effect
        requires unanswered { IsTrue (is_open (journal_of self.old.seen) ticket) }
        requires next { IsTrue (is_next (journal_of self.old.seen) ticket) }
        ensures settles { Settles self.old self.new ticket what result }
        ensures engine { self.old.name.number ≡ Some engine_number }
    {
        desk.settle(rt, &mut self.pass, ticket, what)
    }

    /// Notes the check of a file with its problems.
    pub fn check<R: Wait>(
        &mut self,
        rt: &R,
        desk: &Desk<B>,
        file: &Text,
        problems: &Row<Problem>,
    ) -> CheckNoted
        requires { IsTrue (may_follow (journal_of self.old.seen) (Checked file.now)) }
        ensures checks { Checks self.old self.new file.now problems.now result }
        ensures engine { self.old.name.number ≡ Some engine_number }
    {
        desk.check(rt, &mut self.pass, file, problems)
    }
}
