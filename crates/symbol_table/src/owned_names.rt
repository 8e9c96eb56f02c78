//! A name of one owner, and what is seen of it.

ghost use Rattle.std.specs.Prelude.{◌≡◌, IfOk};

use crate::name_spaces::NameSpace;
use pc_terms::{NoMemory, SymKind, Text};

/// A name in one space of one owner. The owner is the number of a definition, or `None` for the root.
#[derive(Debug, Drop, PartialEq, Eq, Hash)]
pub struct OwnedName {
    pub owner: Option<u32>,
    pub space: NameSpace,
    pub name: Text,
}

impl OwnedName {
    pub fn new(owner: Option<u32>, space: NameSpace, name: &Text) -> Result<OwnedName, NoMemory>
        ensures { IfOk result (λ made. made ≡ record { owner = owner; space = space; name = name.now }) }
    {
        Ok(OwnedName {
            owner,
            space,
            name: name.clone()?,
        })
    }
}

/// What stands under a name: the kind and the number of its first definition, and how many methods there are where that is
/// one.
#[derive(Clone, Copy, Debug, PartialEq, Eq)]
pub struct Seen {
    pub kind: SymKind,
    pub number: u32,
    pub methods: u32,
}
