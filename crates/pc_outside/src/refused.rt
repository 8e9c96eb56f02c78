//! Out of memory as a refusal of a read and of a put.
ghost use Rattle.std.specs.Prelude.{◌≡◌};

use crate::{PutRefused, ReadRefused};
use std::alloc::AllocError;

impl From<AllocError> for ReadRefused {
    ghost use Rattle.pc_outside.specs.declared.files.ReadRefused.TheVariants.{NoMemory};

    ghost from_gives = { λ _ e. e ≡ NoMemory };

    fn from(_: AllocError) -> Self {
        ReadRefused::NoMemory
    }
}

impl From<AllocError> for PutRefused {
    ghost use Rattle.pc_outside.specs.declared.sink.PutRefused.TheVariants.{NoMemory};

    ghost from_gives = { λ _ e. e ≡ NoMemory };

    fn from(_: AllocError) -> Self {
        PutRefused::NoMemory
    }
}
