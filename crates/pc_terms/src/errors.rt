ghost use Rattle.std.specs.Prelude.{◌≡◌};

use std::alloc::{AllocError, AllocFailed};

/// Out of memory. It has one value, so an answer that says it says no more.
#[derive(Clone, Copy, Debug, PartialEq, Eq)]
pub struct NoMemory {}

/// What was asked of a device, a reporter or a job did not happen; its count of faults rose.
#[derive(Clone, Copy, Debug, PartialEq, Eq)]
pub struct Failed {}

impl From<AllocError> for NoMemory {
    fn from(_: AllocError) -> Self {
        NoMemory {}
    }
}

impl<T: Drop> From<AllocFailed<T>> for NoMemory {
    fn from(_: AllocFailed<T>) -> Self {
        NoMemory {}
    }
}
