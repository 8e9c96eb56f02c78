ghost use Rattle.std.specs.Prelude.{◌≡◌, ◌≤◌, ℕ, List, Option, IfOk, vec_len};

use std::alloc::Global;
use thiserror::Error;

/// Why a read gave nothing.
#[derive(Clone, Copy, Debug, PartialEq, Eq, Error)]
pub enum ReadRefused {
    /// The file could not be read; the count of faults rose.
    #[error("cannot be read")]
    Failed,
    #[error("no memory")]
    NoMemory,
}

/// Files that can be read by name.
pub trait Files {
    ghost use Rattle.pc_outside.specs.Outside.{IsBeginning, ReadCounts};

    /// How many reads have failed. It never falls.
    ghost faults: { Self → ℕ };

    /// The content of a name, where it is told. No call changes it.
    ghost content: { Self → List ℕ → Option (List ℕ) };

    /// The name of the last read that failed, where it is told.
    ghost last_failed: { Self → Option (List ℕ) };

    /// The first `most` bytes of the file, or the whole of one that is shorter.
    fn read(&mut self, alloc: Global, name: &str, most: usize) -> Result<Vec<u8>, ReadRefused>
        ensures bytes { IfOk result (λ bytes. IsBeginning (content self.old name.now) most bytes.items) }
        ensures most { IfOk result (λ bytes. vec_len bytes ≤ most) }
        ensures content { (other : List ℕ) → content self.new other ≡ content self.old other }
        ensures counts { ReadCounts result name.now (faults self.old) (faults self.new)
            (last_failed self.old) (last_failed self.new) };
}
