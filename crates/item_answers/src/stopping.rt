//! Where a rule stops.

ghost use Rattle.std.specs.Prelude.{◌≡◌, IfOk};
ghost use Rattle.item_questions.specs.Questions.{Answer};
ghost use Rattle.pc_terms.specs.declared.items.Item.{Item};
ghost use Rattle.item_answers.specs.Asking as spec;

use pc_terms::{Asked, Item, NoMemory};
use std::alloc::{AllocError, AllocFailed};

/// Why a rule has no answer.
#[derive(Debug, Drop)]
pub enum Stopped {
    NoMemory,
    /// The first item that it asks for and that has no value.
    Needs(Item),
    /// The first item that it asks for and that has no ordinary value: it is cyclic.
    Cyclic(Item),
}

impl From<NoMemory> for Stopped {
    ghost use Rattle.std.specs.Prelude.{◌≡◌};
    ghost use Rattle.item_answers.specs.declared.stopping.Stopped.TheVariants as why;

    ghost from_gives = { λ _ given. given ≡ why.NoMemory };

    fn from(_: NoMemory) -> Self {
        Stopped::NoMemory
    }
}

impl From<AllocError> for Stopped {
    ghost use Rattle.std.specs.Prelude.{◌≡◌};
    ghost use Rattle.item_answers.specs.declared.stopping.Stopped.TheVariants as why;

    ghost from_gives = { λ _ given. given ≡ why.NoMemory };

    fn from(_: AllocError) -> Self {
        Stopped::NoMemory
    }
}

impl<T: Drop> From<AllocFailed<T>> for Stopped {
    ghost use Rattle.std.specs.Prelude.{◌≡◌};
    ghost use Rattle.item_answers.specs.declared.stopping.Stopped.TheVariants as why;

    ghost from_gives = { λ _ given. given ≡ why.NoMemory };

    fn from(_: AllocFailed<T>) -> Self {
        Stopped::NoMemory
    }
}

/// What a rule came to, as its caller reads it.
pub fn asked<T>(found: Result<T, Stopped>) -> Result<Asked<T>, NoMemory>
    ensures { (answer : Answer Item T) → spec.Tells found answer → IfOk result (λ told. told ≡ spec.asked answer) }
{
    match found {
        Ok(value) => Ok(Asked::Known(value)),
        Err(Stopped::Needs(item)) => Ok(Asked::Needs(item)),
        Err(Stopped::Cyclic(item)) => Ok(Asked::Cyclic(item)),
        Err(Stopped::NoMemory) => Err(NoMemory {}),
    }
}
