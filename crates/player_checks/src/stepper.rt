//! An engine that answers an ask only after some turns.

ghost use Rattle.std.specs.Prelude.{◌≡◌, IfOk};
ghost use Rattle.ask_history.specs.Engine.{fresh_state};
ghost use Rattle.compiler_loop.specs.CoreState.{state_of};

use ask_history::{Call, Effect, Engine, Fed, Turn};
use compiler_loop::Core;
use pc_terms::NoMemory;
use std::alloc::Global;

/// A core that says `Safe` some times before an answer, and again after each call that it is fed, settles or stops.
#[derive(Drop)]
pub struct Stepper {
    core: Core,
    pending: u64,
    pause: u64,
    // The turns since it was last fed, settled or stopped.
    turns: u64,
    /// A digit for each call that it was fed: the turns that it had before.
    pub arrivals: u64,
}

impl Stepper {
    /// A stepper that holds no source, and pauses for so many turns.
    pub fn new(alloc: Global, pause: u64) -> Result<Stepper, NoMemory>
        ensures ok { IfOk result (λ stepper. state_of stepper.core ≡ fresh_state) }
    {
        Ok(Stepper {
            core: Core::new(alloc)?,
            pending: pause,
            pause,
            turns: 0,
            arrivals: 0,
        })
    }

    fn begin_again(&mut self)
        ensures { self.new.core ≡ self.old.core }
    {
        self.pending = self.pause;
        self.turns = 0;
    }
}

impl Engine for Stepper {
    ghost use Rattle.compiler_loop.specs.CoreState.{state_of};
    ghost use Rattle.compiler_loop.specs.ThinAnswer.{thin_answer};
    ghost use Rattle.compiler_loop.specs.ThinFits.{thin_fits};
    ghost use Rattle.compiler_loop.specs.ThinListed.{thin_listed};
    ghost use Rattle.compiler_loop.specs.ThinProblems.{thin_problems};

    ghost state = { λ stepper. state_of stepper.core };

    ghost left = { λ stepper. stepper.pending };

    ghost answer_of = { thin_answer };

    ghost problems_of = { thin_problems };

    ghost fits = { thin_fits };

    ghost listed = { thin_listed };

    fn feed(&mut self, ticket: u64, call: &Call) -> Fed {
        self.arrivals = self.arrivals.wrapping_mul(10).wrapping_add(self.turns);
        self.begin_again();
        self.core.feed(ticket, call)
    }

    #[tactic(auto, using(crate::proofs::Busy::not_idle))]
    fn turn(&mut self, steps: u64) -> Turn {
        self.turns = self.turns.wrapping_add(1);
        match self.core.turn(steps) {
            Turn::Ready(ticket, found) => {
                if self.pending > 0 {
                    self.pending -= 1;
                    return Turn::Safe;
                }
                Turn::Ready(ticket, found)
            }
            turn => turn,
        }
    }

    fn settled(&mut self, ticket: u64, effect: Effect) {
        self.begin_again();
        self.core.settled(ticket, effect);
    }

    fn stop(&mut self) {
        self.begin_again();
        self.core.stop();
    }
}
