use ask_history::{Answer, Call, Effect};
use pc_terms::{Problem, Row, Text};

/// What a look at a session finds.
#[derive(Clone, Copy, Debug, PartialEq, Eq)]
pub struct News {
    /// How many calls are accepted; the next ticket.
    pub accepted: u64,
    /// Whether the session was shut down.
    pub is_closed: bool,
    /// The first of the open tickets of which a cancel stands.
    pub cancelled: Option<u64>,
}

/// What is found of an accepted ticket.
#[derive(Debug, Drop)]
pub enum Posted {
    /// A copy of its call, which is not settled.
    Call(Call),
    /// It is not settled, and memory ran out for a copy of its call.
    NoMemory,
    /// It is settled, as every call is after the shutdown.
    Settled,
}

/// What becomes of a check.
#[derive(Clone, Copy, Debug, PartialEq, Eq)]
pub enum CheckNoted {
    /// It stands in the history.
    Noted,
    /// The session was shut down before.
    ShutDown,
    /// Memory ran out, and nothing is noted.
    NoMemory,
}

/// The history of a session under its lock, as the one who drives its engine sees it. Each call first takes in what others did,
/// and then writes one entry at most.
pub trait Board {
    ghost use Rattle.std.specs.Prelude.{◌≡◌, ℕ, ◌<◌, List, IsTrue};
    ghost use Rattle.ask_history.specs.Journal.{accepted, is_open};
    ghost use Rattle.ask_history.specs.Legal.{is_next, may_follow};
    ghost use Rattle.ask_history.specs.declared.events.Event.TheVariants.{Checked};
    ghost use Rattle.engine_driver.specs.History.{Entry, journal_of, IsLater};
    ghost use Rattle.engine_driver.specs.Board.{Looks, Awaits, Finds, Settles, Checks};

    /// What was seen of the history.
    ghost history: { Self → List Entry };

    /// Looks at what others did, and which of these tickets is cancelled. It takes no memory.
    fn look(&mut self, opened: &[u64]) -> News
        ensures { Looks (history self.old) (history self.new) opened.now result };

    /// Waits until more calls than these are accepted, or the session is shut down. It takes no memory.
    fn await_calls(&mut self, count: u64)
        ensures { Awaits (history self.old) (history self.new) count };

    /// Copies the call of an accepted ticket.
    fn posted(&mut self, ticket: u64) -> Posted
        requires { ticket < accepted (journal_of (history self.old)) }
        ensures later { IsLater (history self.old) (history self.new) }
        ensures finds { Finds (journal_of (history self.new)) ticket result };

    /// Settles the call of a ticket that was open with what was found for it, `None` where memory ran out; nothing is
    /// written where the session is shut down by then. Says whether a mutation takes effect. It takes no memory.
    fn settle(&mut self, ticket: u64, found: Option<Answer>) -> Effect
        requires unanswered { IsTrue (is_open (journal_of (history self.old)) ticket) }
        requires next { IsTrue (is_next (journal_of (history self.old)) ticket) }
        ensures { Settles (history self.old) (history self.new) ticket found result };

    /// Notes the check of a file with the problems that it found, unless the session is shut down by then.
    fn check(&mut self, file: &Text, problems: &Row<Problem>) -> CheckNoted
        requires { IsTrue (may_follow (journal_of (history self.old)) (Checked file.now)) }
        ensures { Checks (history self.old) (history self.new) file.now problems.now result };

    /// Is called at each safe point, where the engine has typed a tree and goes on.
    fn at_safe_point(&mut self)
        ensures { IsLater (history self.old) (history self.new) };
}
