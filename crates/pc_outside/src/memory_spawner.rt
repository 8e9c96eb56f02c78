ghost use Rattle.std.specs.Prelude.{◌≡◌, not};

use crate::Spawner;
use crate::failure_plan::FailurePlan;
use std::sync::Wait;
use std::thread::Threads;

/// Threads of a test. At the calls that are to fail none can be started; else one can, without a try.
#[derive(Drop)]
pub struct MemorySpawner {
    plan: FailurePlan,
    faults: u64,
}

impl MemorySpawner {
    ghost use Rattle.pc_outside.specs.MemorySpawner.{failing_of, calls_of, faults_of};

    /// `failing` has the numbers of the calls that are to fail; the first call has the number 1.
    pub fn new(failing: Vec<u64>) -> MemorySpawner
        ensures failing { failing_of result ≡ failing.items }
        ensures calls { calls_of result ≡ 0 }
        ensures faults { faults_of result ≡ 0 }
    {
        MemorySpawner {
            plan: FailurePlan::new(failing),
            faults: 0,
        }
    }

    /// How many calls failed.
    pub fn faults(&self) -> u64
        ensures { result ≡ faults_of self.now }
    {
        self.faults
    }
}

impl Spawner for MemorySpawner {
    ghost use Rattle.pc_outside.specs.Outside.{SpawnCounts};
    ghost use Rattle.pc_outside.specs.MemorySpawner.{faults_of, next_is_planned, Spawns};

    ghost faults = { faults_of };

    fn has_thread<R: Threads + Wait>(&mut self, _rt: &R) -> bool
        ensures counts { SpawnCounts result (faults_of self.old) (faults_of self.new) }

        // In memory the answer is determined.
        ensures answer { result ≡ not (next_is_planned self.old) }
        ensures kept { Spawns result self.old self.new }
    {
        if self.plan.begin_call() {
            self.faults = self.faults.saturating_add(1);
            return false;
        }
        true
    }
}
