ghost use Rattle.std.specs.Prelude.{◌≡◌, ℕ, is_ok, IfOk, IfErr};
ghost use Rattle.pc_outside.specs.Outside.{SpawnCounts};

use std::sync::Wait;
use std::thread::{Threads, join};

/// Two closures of which neither was begun.
#[derive(Drop)]
pub struct NotBegun<F, G> {
    pub f: F,
    pub g: G,
}

/// What says whether two closures may be run side by side.
pub trait Spawner {
    ghost use Rattle.pc_outside.specs.Outside.{SpawnCounts};

    /// How often no thread could be started. It never falls.
    ghost faults: { Self → ℕ };

    /// Whether a thread can be started now.
    fn has_thread<R: Threads + Wait>(&mut self, rt: &R) -> bool
        ensures counts { SpawnCounts result (faults self.old) (faults self.new) };
}

/// Runs both closures, each in a thread, and gives both results. Where no thread can be started it begins neither, and both come
/// back unchanged.
pub fn beside<
    S: Spawner,
    R: Threads + Wait,
    A: Send,
    B: Send,
    F: FnOnce() -> A + Send,
    G: FnOnce() -> B + Send,
>(spawner: &mut S, rt: &R, f: F, g: G) -> Result<(A, B), NotBegun<F, G>>
    requires first { F.pre f }
    requires second { G.pre g }
    ensures first { IfOk result (λ both. F.post f both.0) }
    ensures second { IfOk result (λ both. G.post g both.1) }
    ensures handed_back { IfErr result (λ back. (back.f ≡ f) × (back.g ≡ g)) }
    ensures counts { SpawnCounts (is_ok result) (S.faults spawner.old) (S.faults spawner.new) }
{
    if !spawner.has_thread(rt) {
        return Err(NotBegun { f, g });
    }
    Ok(join(rt, f, g))
}
