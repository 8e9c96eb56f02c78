//! The call that is posted, the limits, and posts on a queue alone.
ghost use Rattle.std.specs.Prelude.{◌≡◌, ◌<◌, ◌^◌, length, IfOk, true};
ghost use Rattle.ask_history.specs.Engine.{has_file_names};
ghost use Rattle.work_queue.specs.Reloads.{reloaded_by};

use ask_history::Call;
use pc_terms::{NoMemory, Text};
use std::alloc::Global;
use work_queue::{Limits, Queue};

pub const LIMITS: Limits = Limits {
    calls: 65_536,
    text: 268_435_456,
    names: 1_024,
    map: 16_777_216,
    file: 262_144,
};

pub fn ask(alloc: Global) -> Result<Call, NoMemory>
    ensures few { IfOk result (λ call. length (reloaded_by call) < 2 ^ 32) }
    ensures names { IfOk result (λ call. has_file_names call ≡ true) }
{
    Ok(Call::TypeAt(Text::new(alloc, "A.scala")?, 19))
}

/// Posts so many calls, and gives the number of those that are accepted.
pub fn session(alloc: Global, posts: u64) -> Result<u64, NoMemory> {
    let mut queue = Queue::new(alloc, LIMITS)?;
    for tag in 0..posts {
        if queue.post(0, tag, ask(alloc)?).is_err() {
            return Err(NoMemory {});
        }
    }
    Ok(queue.accepted())
}
