ghost use Rattle.std.specs.Prelude.{◌≡◌, List, Option};
ghost use Rattle.std.specs.Option.{option_copied};

use crate::Flags;
use pc_terms::SymPath;

/// The definitions of all sources, as far as types ask for them.
pub trait Owned {
    ghost use Rattle.base_types.specs.declared.flags.Flags.{Flags};
    ghost use Rattle.pc_terms.specs.declared.symbols.SymPath.{SymPath};

    /// What each owner owns, in order.
    ghost owned_by: { Self → SymPath → List SymPath };

    /// The flags of each definition.
    ghost flags_of: { Self → SymPath → Option Flags };

    /// What an owner owns: by the bytes of the names, terms before types, then by ordinal. It takes no memory.
    fn owned(&self, owner: &SymPath) -> &[SymPath]
        ensures { result.now ≡ owned_by self.now owner.now };

    /// The flags of a definition; `None` where there is no such symbol. It takes no memory.
    fn flags(&self, path: &SymPath) -> Option<&Flags>
        ensures { option_copied result ≡ flags_of self.now path.now };
}
