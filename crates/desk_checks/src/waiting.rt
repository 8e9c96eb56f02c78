//! A pass that waits for an answer.
ghost use Rattle.std.specs.Prelude.{◌≡◌, ◌<◌, ◌^◌, length, IsTrue, is_some, true, false};
ghost use Rattle.ask_history.specs.Engine.{has_file_names};
ghost use Rattle.counting_word.specs.History.{taker_of, has};
ghost use Rattle.work_queue.specs.Reloads.{reloaded_by};

use ask_desk::{Desk, Pass, Ticket, Tried};
use ask_history::{Answer, Call};
use counting_word::Room;
use std::alloc::Global;
use std::sync::Wait;
use work_queue::{CancelSeen, PostRefused};

/// A pass of a number, with a ticket of its own whose answer it did not get.
#[derive(Drop)]
pub struct Waiting<B: Room> {
    pub pass: Pass<B>,
    pub ticket: Ticket<B>,
    ghost named: { IsTrue (is_some pass.name.number) },
    ghost mine: { taker_of pass.seen ticket.ticket ≡ pass.name.number },
    ghost fresh: { has pass.name.got ticket.ticket ≡ false },
}

impl<B: Room> Waiting<B> {
    /// Posts a call.
    pub fn post<R: Wait>(
        rt: &R,
        alloc: Global,
        desk: &Desk<B>,
        pass: Pass<B>,
        tag: u64,
        call: Call,
    ) -> Result<Waiting<B>, PostRefused>
        requires named { IsTrue (is_some pass.name.number) }
        requires few { length (reloaded_by call) < 2 ^ 32 }
        requires names { has_file_names call ≡ true }
    {
        let mut pass = pass;
        match desk.post(rt, alloc, &mut pass, tag, call) {
            Ok(ticket) => Ok(Waiting { pass, ticket }),
            Err((why, _)) => Err(why),
        }
    }

    /// Cancels the call.
    pub fn cancel<R: Wait>(&mut self, rt: &R, desk: &Desk<B>) -> CancelSeen {
        desk.cancel(rt, &mut self.pass, &self.ticket)
    }

    /// Meets another pass, which has then seen the call too.
    pub fn meet(&mut self, desk: &Desk<B>, other: &mut Pass<B>)
        ensures { IsTrue (is_some (taker_of other.new.seen self.new.ticket.ticket)) }
    {
        desk.meet(&mut self.pass, other);
    }

    /// Looks for the answer.
    pub fn look<R: Wait>(self, rt: &R, desk: &Desk<B>) -> Result<Answer, Waiting<B>> {
        let Waiting { mut pass, ticket } = self;
        match desk.try_receive(rt, &mut pass, ticket) {
            Tried::Got(answer) => Ok(answer),
            Tried::NotYet(ticket) => Err(Waiting { pass, ticket }),
        }
    }

    /// Waits for the answer.
    pub fn receive<R: Wait>(self, rt: &R, desk: &Desk<B>) -> (Pass<B>, Answer)
        ensures { IsTrue (is_some result.0.name.number) }
    {
        let Waiting { mut pass, ticket } = self;
        let answer = desk.receive(rt, &mut pass, ticket);
        (pass, answer)
    }
}
