ghost use Rattle.std.specs.Prelude.{◌≡◌};

use pc_terms::NoMemory;
use thiserror::Error;

/// Why a text gives no script.
#[derive(Clone, Copy, Debug, PartialEq, Eq, Error)]
pub enum ScriptRefused {
    /// The first line outside the grammar, counted from 1. Lines that are passed over count.
    #[error("line {0} is outside the grammar")]
    BadLine(u64),
    /// Out of memory. It says nothing of the text.
    #[error("no memory")]
    NoMemory,
}

impl From<NoMemory> for ScriptRefused {
    ghost use Rattle.script_text.specs.declared.refused.ScriptRefused.TheVariants as refused;

    ghost from_gives = { λ _ given. given ≡ refused.NoMemory };

    fn from(_: NoMemory) -> Self {
        ScriptRefused::NoMemory
    }
}
