//! An engine that types some trees before its first answer.

use ask_history::{Call, Effect, Engine, Fed, Turn};
use compiler_loop::Core;

/// A core that says `Safe` so many times before an answer, and has memory for no removal.
#[derive(Drop)]
pub struct Paced {
    pub core: Core,
    pub trees: u64,
}

impl Engine for Paced {
    ghost use Rattle.compiler_loop.specs.CoreState.{state_of};
    ghost use Rattle.compiler_loop.specs.ThinAnswer.{thin_answer};
    ghost use Rattle.compiler_loop.specs.ThinFits.{thin_fits};
    ghost use Rattle.compiler_loop.specs.ThinListed.{thin_listed};
    ghost use Rattle.compiler_loop.specs.ThinProblems.{thin_problems};

    ghost state = { λ paced. state_of paced.core };

    ghost left = { λ paced. paced.trees };

    ghost answer_of = { thin_answer };

    ghost problems_of = { thin_problems };

    ghost fits = { thin_fits };

    ghost listed = { thin_listed };

    fn feed(&mut self, ticket: u64, call: &Call) -> Fed {
        match call {
            Call::Remove(_) => Fed::NoMemory,
            _ => self.core.feed(ticket, call),
        }
    }

    #[tactic(auto, using(crate::proofs::Busy::not_idle))]
    fn turn(&mut self, steps: u64) -> Turn {
        match self.core.turn(steps) {
            Turn::Ready(ticket, found) => {
                if self.trees > 0 {
                    self.trees -= 1;
                    return Turn::Safe;
                }
                Turn::Ready(ticket, found)
            }
            turn => turn,
        }
    }

    fn settled(&mut self, ticket: u64, effect: Effect) {
        self.core.settled(ticket, effect);
    }

    fn stop(&mut self) {
        self.core.stop();
    }
}
