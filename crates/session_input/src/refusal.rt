use crate::Limit;
use pc_terms::{NoMemory, Text};
use std::alloc::{AllocError, AllocFailed};

/// Why the input of a session is refused.
#[derive(Debug, Drop)]
pub enum Refusal {
    /// This file could not be read.
    ReadFault(Text),
    /// This script has, at this line from 1, its first line outside the grammar.
    BadScript(Text, u64),
    /// This number is above its limit.
    Limit(Limit, u64),
    /// This file is no UTF-8 text; so long is its longest beginning that is one.
    NotUtf8(Text, u64),
}

/// Why there is no input.
#[derive(Debug, Drop)]
pub enum NoInput {
    Refused(Refusal),
    NoMemory,
}

impl From<NoMemory> for NoInput {
    ghost use Rattle.std.specs.Prelude.{◌≡◌};
    ghost use Rattle.session_input.specs.declared.refusal.NoInput.TheVariants as none;

    ghost from_gives = { λ _ given. given ≡ none.NoMemory };

    fn from(_: NoMemory) -> Self {
        NoInput::NoMemory
    }
}

impl From<AllocError> for NoInput {
    ghost use Rattle.std.specs.Prelude.{◌≡◌};
    ghost use Rattle.session_input.specs.declared.refusal.NoInput.TheVariants as none;

    ghost from_gives = { λ _ given. given ≡ none.NoMemory };

    fn from(_: AllocError) -> Self {
        NoInput::NoMemory
    }
}

impl<T: Drop> From<AllocFailed<T>> for NoInput {
    ghost use Rattle.std.specs.Prelude.{◌≡◌};
    ghost use Rattle.session_input.specs.declared.refusal.NoInput.TheVariants as none;

    ghost from_gives = { λ _ given. given ≡ none.NoMemory };

    fn from(_: AllocFailed<T>) -> Self {
        NoInput::NoMemory
    }
}
