//! The names that owners have defined so far.

ghost use Rattle.std.specs.Prelude.{◌≡◌, None, Some, IfOk, OnOk, OnErr};
ghost use Rattle.symbol_table.specs.Names as spec;
ghost use Rattle.symbol_table.specs.declared.owned_names.OwnedName.{OwnedName};

use crate::kinds::is_def;
use crate::owned_names::{OwnedName, Seen};
use indexmap::IndexMap;
use pc_terms::{NoMemory, SymKind};
use std::alloc::Global;

/// The names that owners have defined so far, each looked up by its hash.
#[derive(Drop)]
pub struct Names {
    seen: IndexMap<OwnedName, Seen>,
}

fn first_seen(kind: SymKind, number: u32) -> Seen
    ensures { spec.seen_after None kind number ≡ Some result }
{
    Seen {
        kind,
        number,
        methods: if is_def(kind) { 1 } else { 0 },
    }
}

impl Names {
    pub fn new(alloc: Global) -> Names
        ensures { (name : OwnedName) → spec.seen result name ≡ None }
    {
        Names {
            seen: IndexMap::new(alloc),
        }
    }

    /// What stands under a name. It takes no memory.
    pub fn get(&self, name: &OwnedName) -> Option<Seen>
        ensures { result ≡ spec.seen self.now name.now }
    {
        self.seen.get(name).copied()
    }

    /// Adds a definition of this kind and number. Returns its ordinal; `None` where it is a second one, and then nothing
    /// changes. Where memory fails, or more methods than 32 bits can count have one name, nothing changes either.
    pub fn add(
        &mut self,
        name: OwnedName,
        kind: SymKind,
        number: u32,
    ) -> Result<Option<u32>, NoMemory>
        ensures ordinal { IfOk result (λ ordinal. ordinal ≡ spec.ordinal_for (spec.seen self.old name) kind) }
        ensures added { OnOk result (spec.Adds self.old self.new name kind number) }
        ensures err { OnErr result (spec.IsUnchanged self.old self.new) }
    {
        match self.get(&name) {
            None => {
                let _old = self.seen.insert(name, first_seen(kind, number))?;
                Ok(Some(0))
            }
            Some(before) if is_def(before.kind) && is_def(kind) => {
                let methods = before.methods.checked_add(1).ok_or(NoMemory {})?;
                let _old = self.seen.insert(name, Seen { methods, ..before })?;
                Ok(Some(before.methods))
            }
            Some(_) => Ok(None),
        }
    }
}
