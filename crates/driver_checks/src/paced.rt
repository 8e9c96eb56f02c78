//! An engine that types some trees before its first answer.
ghost use Rattle.std.specs.Prelude.{◌≡◌};

use crate::callers::{Caller, Deed};
use ask_history::{Call, Effect, Engine, Fed, Turn};
use compiler_loop::Core;
use counting_word::Room;
use std::sync::Wait;

/// A core that says `Safe` so many times before an answer, and has memory for no removal. In its first idle turn its caller, where
/// it has one, shuts the session down.
#[derive(Drop)]
pub struct Paced<'a, R: Wait, B: Room> {
    pub core: Core,
    pub trees: u64,
    pub rt: &'a R,
    pub caller: Option<Caller<'a, B>>,
}

impl<R: Wait, B: Room> Paced<'_, R, B> {
    fn close(&mut self)
        ensures { self.new.core ≡ self.old.core }
    {
        if let Some(caller) = &mut self.caller {
            caller.act(self.rt, Deed::Close);
        }
    }
}

impl<R: Wait, B: Room> Engine for Paced<'_, R, B> {
    ghost use Rattle.compiler_loop.specs.CoreState.{state_of};
    ghost use Rattle.compiler_loop.specs.ThinAnswer.{thin_answer};
    ghost use Rattle.compiler_loop.specs.ThinFits.{thin_fits};
    ghost use Rattle.compiler_loop.specs.ThinListed.{thin_listed};
    ghost use Rattle.compiler_loop.specs.ThinProblems.{thin_problems};

    ghost state = { λ paced. state_of paced.core };

    ghost left = { λ paced. paced.trees };

    ghost answer_of = { thin_answer };

    ghost problems_of = { thin_problems };

    ghost fits = { thin_fits };

    ghost listed = { thin_listed };

    fn feed(&mut self, ticket: u64, call: &Call) -> Fed {
        match call {
            Call::Remove(_) => Fed::NoMemory,
            _ => self.core.feed(ticket, call),
        }
    }

    #[tactic(auto, using(crate::proofs::Busy::not_idle))]
    fn turn(&mut self, steps: u64) -> Turn {
        match self.core.turn(steps) {
            Turn::Ready(ticket, found) => {
                if self.trees > 0 {
                    self.trees -= 1;
                    return Turn::Safe;
                }
                Turn::Ready(ticket, found)
            }
            Turn::Idle => {
                self.close();
                Turn::Idle
            }
            turn => turn,
        }
    }

    fn settled(&mut self, ticket: u64, effect: Effect) {
        self.core.settled(ticket, effect);
    }

    fn stop(&mut self) {
        self.core.stop();
    }
}
