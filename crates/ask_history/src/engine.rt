ghost use Rattle.std.specs.Prelude.{◌≡◌, ◌<◌, ◌≤◌, ◌^◌, ◌||◌, ℕ, Bool, true, false, not, List, [], length, Option, Some, None, IsTrue};
ghost use Rattle.pc_terms.specs.Problems.{AreListed};
ghost use Rattle.pc_terms.specs.declared.problems.Problem.{Problem as ProblemSeen};
ghost use Rattle.ask_history.specs.declared.calls.Call.{Call};
ghost use Rattle.ask_history.specs.declared.answers.Answer.{Answer};
ghost use Rattle.ask_history.specs.declared.answers.Answer.TheVariants.{NoUnit};

use crate::{Answer, Call};
use pc_terms::{Problem, Row, Text};

/// What became of a call that an engine was fed.
#[derive(Clone, Copy, Debug, PartialEq, Eq)]
pub enum Fed {
    /// An ask stands on top of the open ones.
    Taken,
    /// A mutation's new sources are built and not yet in force.
    Staged,
    /// Nothing changed.
    NoMemory,
}

/// Whether a settled mutation takes effect.
#[derive(Clone, Copy, Debug, PartialEq, Eq)]
pub enum Effect {
    Applies,
    Dropped,
}

/// What a turn of an engine came to.
#[derive(Debug, Drop)]
pub enum Turn {
    /// A tree was typed, and the ask on top, or the check, goes on.
    Safe,
    /// The call of this ticket, on top, has this answer for the sources in force. It stays on top.
    Ready(u64, Answer),
    /// No call is open, and the first file that was due for a check has these problems. It is checked now.
    Checked(Text, Row<Problem>),
    /// No call is open, and there is nothing to check.
    Idle,
    /// Memory ran out for the call on top.
    NoMemory(u64),
    /// No call is open, and memory ran out for the check of this file, the first that was due. It is skipped.
    CheckNoMemory(Text),
}

/// What types: it holds sources, is fed calls, and works on the topmost ask, a turn at a time. Where no call is open it checks
/// the loaded files, one after another.
pub trait Engine {
    ghost use Rattle.ask_history.specs.Sources.{Sources, mutated, is_mutation, is_loaded};
    ghost use Rattle.ask_history.specs.Engine.{EngineState, HasFileSizes, has_file_names, is_open_in, is_staged, FeedGives, TurnGives, Lowers, settled_state, stopped_state, can_find, asked_file};

    /// Its sources, its open asks, what is staged, and the files that were checked or skipped.
    ghost state: { Self → EngineState };

    /// A number that every `Safe` lowers.
    ghost left: { Self → ℕ };

    /// What an ask is answered over given sources. It does not depend on the engine's state.
    ghost answer_of: { Sources → Call → Answer };

    /// The problems of a file over given sources. They do not depend on the engine's state.
    ghost problems_of: { Sources → List ℕ → List ProblemSeen };

    /// Takes an ask on top of the open ones, or stages a mutation.
    fn feed(&mut self, ticket: u64, call: &Call) -> Fed
        requires nothing_staged { (state self.old).staged ≡ None }
        requires new_ticket { is_open_in (state self.old).asks ticket ≡ false }
        requires sizes { HasFileSizes call.now }
        requires names { has_file_names call.now ≡ true }
        requires few { length (mutated (state self.old).sources call.now) < 2 ^ 31 }
        ensures { FeedGives (state self.old) ticket call.now result (state self.new) };

    /// Works on the topmost ask, or else on a check, on at most `steps` trees.
    fn turn(&mut self, steps: u64) -> Turn
        requires some { 1 ≤ steps }
        requires nothing_staged { (state self.old).staged ≡ None }
        ensures gives { TurnGives answer_of problems_of (state self.old) result (state self.new) }
        ensures lowers { Lowers result (left self.old) (left self.new) };

    /// Puts a staged mutation in force or drops it, or takes an open ask off. It takes no memory.
    fn settled(&mut self, ticket: u64, effect: Effect)
        requires { (is_staged (state self.old).staged ticket || is_open_in (state self.old).asks ticket) ≡ true }
        ensures { state self.new ≡ settled_state (state self.old) ticket effect };

    /// Leaves no call open. It takes no memory.
    fn stop(&mut self)
        ensures { state self.new ≡ stopped_state (state self.old) };

    /// An ask about a file that is not loaded is answered `NoUnit`, and every other one as fits it.
    ghost fits: { (sources : Sources) (call : Call) → is_mutation call ≡ false
        → (is_loaded sources (asked_file call) ≡ false → answer_of sources call ≡ NoUnit)
        × (is_loaded sources (asked_file call) ≡ true → can_find call (answer_of sources call) ≡ true) };

    /// The problems of a file are in their order, and each is there once.
    ghost listed: { (sources : Sources) (file : List ℕ) → AreListed (problems_of sources file) };
}
