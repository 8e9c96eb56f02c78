//! Definitions by their owners.

use crate::known::Known;
use crate::words::{Word, push, symbol, type_of};
use base_types::{Flags, Owned};
use indexmap::IndexMap;
use pc_terms::{NoMemory, Row, SymKind, SymPath};
use std::alloc::Global;

/// A definition: its kind, name and type, and whether it is private or abstract.
#[derive(Clone, Copy)]
pub(crate) struct Def {
    pub kind: SymKind,
    pub name: &'static str,
    pub ty: &'static [Word],
    pub is_private: bool,
    pub is_abstract: bool,
}

/// A class or package, and what it owns, in order.
#[derive(Clone, Copy)]
pub(crate) struct Owner {
    pub kind: SymKind,
    pub name: &'static str,
    pub defs: &'static [Def],
}

#[derive(Drop)]
pub(crate) struct Definitions {
    owned: IndexMap<SymPath, Row<SymPath>>,
    flags: IndexMap<SymPath, Flags>,
}

impl Owned for Definitions {
    ghost use Rattle.class_checks.specs.Items.{row_of};
    ghost use Rattle.indexmap.specs.IndexMap.{get};
    ghost use Rattle.type_substitution.specs.Substitution.{path_eq};

    ghost owned_by = { λ table owner. row_of (get path_eq table.owned owner) };

    ghost flags_of = { λ table path. get path_eq table.flags path };

    fn owned(&self, owner: &SymPath) -> &[SymPath] {
        match self.owned.get(owner) {
            Some(paths) => paths.as_slice(),
            None => &[],
        }
    }

    fn flags(&self, path: &SymPath) -> Option<&Flags> {
        self.flags.get(path)
    }
}

fn path_of(alloc: Global, owner: &Owner, def: &Def) -> Result<SymPath, NoMemory> {
    let mut path = symbol(alloc, owner.kind, owner.name)?;
    push(alloc, &mut path.steps, def.kind, def.name)?;
    Ok(path)
}

fn flags_of(def: &Def) -> Flags {
    Flags {
        abstract_: def.is_abstract,
        final_: false,
        sealed_: false,
        case_: false,
        override_: false,
        private_: def.is_private,
        protected_: false,
        prelude: false,
    }
}

impl Definitions {
    pub fn new(alloc: Global) -> Definitions {
        Definitions {
            owned: IndexMap::new(alloc),
            flags: IndexMap::new(alloc),
        }
    }

    fn add_flags(&mut self, path: SymPath, flags: Flags) -> Result<(), NoMemory> {
        let _old = self.flags.insert(path, flags)?;
        Ok(())
    }

    fn add_row(&mut self, path: SymPath, paths: Row<SymPath>) -> Result<(), NoMemory> {
        let _old = self.owned.insert(path, paths)?;
        Ok(())
    }

    /// Adds what an owner owns.
    pub fn add(&mut self, alloc: Global, owner: &Owner) -> Result<(), NoMemory> {
        let mut paths = Row::new(alloc);
        for def in owner.defs {
            self.add_flags(path_of(alloc, owner, def)?, flags_of(def))?;
            paths.push(path_of(alloc, owner, def)?)?;
        }
        self.add_row(symbol(alloc, owner.kind, owner.name)?, paths)
    }
}

/// Makes the signatures of these definitions known.
pub(crate) fn add_types(alloc: Global, known: &mut Known, owner: &Owner) -> Result<(), NoMemory> {
    for def in owner.defs {
        let ty = type_of(alloc, def.ty)?;
        known.add_type(alloc, path_of(alloc, owner, def)?, ty)?;
    }
    Ok(())
}
