use ask_history::{Answer, Call};
use work_queue::PostRefused;

/// What a client does at a session, in its own name. Each call first takes in what others did, and then writes what its clause
/// says, all at once.
pub trait ClientPass {
    ghost use Rattle.std.specs.Prelude.{◌≡◌, ℕ, ◌<◌, ◌^◌, true, length, IfOk, IfErr};
    ghost use Rattle.ask_history.specs.Engine.{has_file_names};
    ghost use Rattle.work_queue.specs.Reloads.{reloaded_by};
    ghost use Rattle.client_scripts.specs.Passes.{PassState, IsDue, Accepts, Refuses, Cancels, Receives, Closes};

    /// The right to one answer.
    type Ticket: Drop;

    /// Its number, what it has seen, and the tickets whose answers it was handed.
    ghost state: { Self → PassState };

    ghost number_of: { Self.Ticket → ℕ };

    /// Posts a copy of a call under a tag.
    fn post(&mut self, tag: u64, call: &Call) -> Result<Self::Ticket, PostRefused>
        requires names { has_file_names call.now ≡ true }
        requires few { length (reloaded_by call.now) < 2 ^ 32 }
        ensures accepted { IfOk result (λ ticket. Accepts (state self.old) (state self.new) (number_of ticket) tag call.now) }
        ensures refused { IfErr result (Refuses (state self.old) (state self.new)) };

    /// Cancels the call of a ticket, unless it is settled. It takes no memory.
    fn cancel(&mut self, ticket: &Self::Ticket)
        requires { IsDue (state self.old) (number_of ticket.now) }
        ensures { Cancels (state self.old) (state self.new) (number_of ticket.now) };

    /// Waits for the answer of a ticket. It takes no memory.
    fn receive(&mut self, ticket: Self::Ticket) -> Answer
        requires { IsDue (state self.old) (number_of ticket) }
        ensures { Receives (state self.old) (state self.new) (number_of ticket) result };

    /// Shuts the session down, where it is not, and settles all open calls. It takes no memory.
    fn close(&mut self)
        ensures { Closes (state self.old) (state self.new) };
}
