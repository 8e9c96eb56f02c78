ghost use Rattle.std.specs.Prelude.{◌≡◌, ◌≤◌, ℕ, Bool, List, Option};

use thiserror::Error;

/// Why a put did not write all of its bytes.
#[derive(Clone, Copy, Debug, PartialEq, Eq, Error)]
pub enum PutRefused {
    /// The bytes could not be written; the count of faults rose.
    #[error("cannot be written")]
    Failed,
    #[error("no memory")]
    NoMemory,
}

/// What is written to: standard output, standard error, or bytes in memory.
pub trait Sink {
    ghost use Rattle.pc_outside.specs.Outside.{Writes, PutCounts};

    /// How many puts have failed. It never falls.
    ghost faults: { Self → ℕ };

    /// The bytes that were written so far, where they are told.
    ghost written: { Self → Option (List ℕ) };

    /// Whether each put so far answered `Ok`.
    ghost whole: { Self → Bool };

    /// Writes all of the bytes, or leaves a prefix of them written.
    fn put(&mut self, bytes: &[u8]) -> Result<(), PutRefused>
        ensures writes { Writes result bytes.now (written self.old) (written self.new) }
        ensures counts { PutCounts result (faults self.old) (faults self.new) (whole self.old) (whole self.new) };
}
