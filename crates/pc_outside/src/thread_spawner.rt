ghost use Rattle.std.specs.Prelude.{◌≡◌};

use crate::Spawner;
use std::sync::Wait;
use std::thread::{Threads, spawn};

/// Threads of the system. A thread that does nothing is started and joined first; where it cannot be started, no closure is
/// begun. So closures that wait for each other are not run one after the other.
#[derive(Drop)]
pub struct ThreadSpawner {
    faults: u64,
}

impl ThreadSpawner {
    ghost use Rattle.pc_outside.specs.ThreadSpawner.{faults_of};

    pub fn new() -> ThreadSpawner
        ensures { faults_of result ≡ 0 }
    {
        ThreadSpawner { faults: 0 }
    }

    /// How many calls failed.
    pub fn faults(&self) -> u64
        ensures { result ≡ faults_of self.now }
    {
        self.faults
    }
}

// Whether a thread can be started now. The one that is started does nothing, and has ended.
fn can_start<R: Threads>(rt: &R) -> bool {
    match spawn(rt, || ()) {
        Ok(idle) => {
            idle.join(rt);
            true
        }
        Err(_) => false,
    }
}

impl Spawner for ThreadSpawner {
    ghost use Rattle.pc_outside.specs.Outside.{SpawnCounts};
    ghost use Rattle.pc_outside.specs.Counting.{faults_after_spawn};
    ghost use Rattle.pc_outside.specs.ThreadSpawner.{faults_of};

    ghost faults = { faults_of };

    fn has_thread<R: Threads + Wait>(&mut self, rt: &R) -> bool
        ensures counts { SpawnCounts result (faults_of self.old) (faults_of self.new) }

        ensures faults { faults_of self.new ≡ faults_after_spawn result (faults_of self.old) }
    {
        if !can_start(rt) {
            self.faults = self.faults.saturating_add(1);
            return false;
        }
        true
    }
}
