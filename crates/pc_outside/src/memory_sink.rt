ghost use Rattle.std.specs.Prelude.{◌≡◌, [], true};

use crate::failure_plan::FailurePlan;
use crate::{PutRefused, Sink};
use std::alloc::Global;

/// A sink that keeps what is written to it. At the calls that are to fail it keeps the first half of the bytes.
#[derive(Drop)]
pub struct MemorySink {
    written: Vec<u8>,
    plan: FailurePlan,
    faults: u64,
    whole: bool,
}

impl MemorySink {
    ghost use Rattle.pc_outside.specs.MemorySink.{written_of, failing_of, calls_of, faults_of, whole_of};

    /// An empty sink, as `with_bytes`.
    pub fn new(alloc: Global, failing: Vec<u64>) -> MemorySink
        ensures written { written_of result ≡ [] }
        ensures failing { failing_of result ≡ failing.items }
        ensures calls { calls_of result ≡ 0 }
        ensures faults { faults_of result ≡ 0 }
        ensures whole { whole_of result ≡ true }
    {
        MemorySink::with_bytes(Vec::new(alloc), failing)
    }

    /// A sink that holds these bytes already. `failing` has the numbers of the calls of `put` that are to fail; the
    /// first call has the number 1.
    pub fn with_bytes(written: Vec<u8>, failing: Vec<u64>) -> MemorySink
        ensures written { written_of result ≡ written.items }
        ensures failing { failing_of result ≡ failing.items }
        ensures calls { calls_of result ≡ 0 }
        ensures faults { faults_of result ≡ 0 }
        ensures whole { whole_of result ≡ true }
    {
        MemorySink {
            written,
            plan: FailurePlan::new(failing),
            faults: 0,
            whole: true,
        }
    }

    /// The bytes that were written so far.
    pub fn bytes(&self) -> &[u8]
        ensures { result.now ≡ written_of self.now }
    {
        &self.written
    }

    /// How many calls of `put` failed.
    pub fn faults(&self) -> u64
        ensures { result ≡ faults_of self.now }
    {
        self.faults
    }

    /// Whether each call of `put` so far answered `Ok`.
    pub fn is_whole(&self) -> bool
        ensures { result ≡ whole_of self.now }
    {
        self.whole
    }
}

impl Sink for MemorySink {
    ghost use Rattle.std.specs.Prelude.{Some};
    ghost use Rattle.pc_outside.specs.Outside.{Writes, PutCounts};
    ghost use Rattle.pc_outside.specs.MemorySink.{written_of, faults_of, whole_of, next_is_planned, AnswersUnlessNoMemory, Puts};

    ghost faults = { faults_of };

    ghost written = { λ sink. Some (written_of sink) };

    ghost whole = { whole_of };

    fn put(&mut self, bytes: &[u8]) -> Result<(), PutRefused>
        ensures writes { Writes result bytes.now (Some (written_of self.old)) (Some (written_of self.new)) }
        ensures counts { PutCounts result (faults_of self.old) (faults_of self.new) (whole_of self.old) (whole_of self.new) }

        // In memory the answer is determined, unless there is no memory, and so is what is kept of it.
        ensures answer { AnswersUnlessNoMemory result (next_is_planned self.old) }
        ensures kept { Puts result bytes.now self.old self.new }
    {
        if self.plan.begin_call() {
            self.whole = false;
            self.written.extend_from_slice(&bytes[..bytes.len() / 2])?;
            self.faults = self.faults.saturating_add(1);
            return Err(PutRefused::Failed);
        }
        if self.written.extend_from_slice(bytes).is_err() {
            self.whole = false;
            return Err(PutRefused::NoMemory);
        }
        Ok(())
    }
}
