//! The definitions that are found, by their numbers and by their names.

ghost use Rattle.std.specs.Prelude.{◌≡◌, [], ◌∷◌, ◌++◌, length, slice_get, IfOk, OnOk};
ghost use Rattle.std.specs.Option.{option_copied};
ghost use Rattle.symbol_table.specs.Found as spec;

use crate::Decl;
use crate::kinds::space_of;
use crate::name_spaces::NameSpace;
use crate::names::Names;
use crate::owned_names::{OwnedName, Seen};
use base_types::Flags;
use pc_terms::{NoMemory, Row, Span, SymKind, SymPath, SymStep, Text};
use std::alloc::Global;
use type_substitution::copy_path;

/// A definition with its number, the position at which it was found, and that of its owner, which is `None` for the root.
#[derive(Debug, Drop)]
pub struct Found {
    pub number: u32,
    pub owner: Option<u32>,
    pub decl: Decl,
}

/// Where a definition stands, and its flags.
#[derive(Clone, Copy, Debug)]
pub struct Standing {
    pub file: u32,
    pub node: u32,
    pub label_span: Span,
    pub flags: Flags,
}

/// The definitions so far.
#[derive(Drop)]
pub struct Definitions {
    alloc: Global,
    found: Vec<Found>,
    /// What stands under each name.
    names: Names,
}

impl Definitions {
    pub fn new(alloc: Global) -> Definitions
        ensures found { result.found.items ≡ [] }
        ensures kept { spec.IsKept result }
    {
        Definitions {
            alloc,
            found: Vec::new(alloc),
            names: Names::new(alloc),
        }
    }

    pub fn len(&self) -> usize
        ensures { result ≡ length self.now.found.items }
    {
        self.found.len()
    }

    /// The definition of this number. It takes no memory.
    pub fn get(&self, number: u32) -> Option<&Found>
        ensures { option_copied result ≡ slice_get self.now.found.items number }
    {
        self.found.get(number as usize)
    }

    /// What stands under a name of an owner.
    pub fn named(
        &self,
        owner: Option<u32>,
        space: NameSpace,
        name: &Text,
    ) -> Result<Option<Seen>, NoMemory>
        requires { spec.IsKept self.now }
        ensures { IfOk result (λ seen. seen ≡ spec.seen_under self.now.found.items owner space name.now) }
    {
        let owned_name = OwnedName::new(owner, space, name)?;
        Ok(self.names.get(&owned_name))
    }

    /// Adds a definition, and returns its number; `None` where it is a second one, and then nothing changes. Where memory
    /// fails, or a number does not fit 32 bits, the definitions are of no use any more.
    pub fn define(
        &mut self,
        owner: Option<u32>,
        kind: SymKind,
        name: &Text,
        standing: Standing,
    ) -> Result<Option<u32>, NoMemory>
        requires kept { spec.IsKept self.old }
        requires owned { spec.IsOwner self.old.found.items owner }
        ensures number { IfOk result (λ number. number ≡ spec.number_for self.old.found.items owner kind name.now) }
        ensures found { OnOk result (self.new.found.items ≡ spec.defined self.old.found.items owner kind name.now standing) }
        ensures kept { OnOk result (spec.IsKept self.new) }
    {
        let number = u32::try_from(self.found.len()).map_err(|_| NoMemory {})?;
        let owned_name = OwnedName::new(owner, space_of(kind), name)?;
        let Some(ordinal) = self.names.add(owned_name, kind, number)? else {
            return Ok(None);
        };
        let own = SymStep {
            kind,
            name: name.clone()?,
            ordinal,
        };
        self.push(number, owner, own, standing)?;
        Ok(Some(number))
    }

    // The path of a definition that this owner owns.
    fn path_below(&self, owner: Option<u32>, own: SymStep) -> Result<SymPath, NoMemory>
        ensures { IfOk result (λ path. path ≡ spec.path_below self.now.found.items owner own) }
    {
        let mut path = match owner.and_then(|number| self.get(number)) {
            Some(owner) => copy_path(self.alloc, &owner.decl.path)?,
            None => SymPath {
                steps: Row::new(self.alloc),
            },
        };
        path.steps.push(own)?;
        Ok(path)
    }

    // Adds a definition after the others.
    fn push(
        &mut self,
        number: u32,
        owner: Option<u32>,
        own: SymStep,
        standing: Standing,
    ) -> Result<(), NoMemory>
        ensures found { OnOk result (self.new.found.items ≡ self.old.found.items ++ spec.found_as self.old.found.items number owner own standing ∷ []) }
        ensures names { self.new.names ≡ self.old.names }
    {
        let path = self.path_below(owner, own)?;
        let decl = Decl {
            path,
            file: standing.file,
            node: standing.node,
            label_span: standing.label_span,
            flags: standing.flags,
        };
        self.found.push(Found {
            number,
            owner,
            decl,
        })?;
        Ok(())
    }

    /// The definitions, by their numbers. It takes no memory.
    pub fn into_found(self) -> Vec<Found>
        ensures { result.items ≡ self.found.items }
    {
        let Definitions {
            alloc: _alloc,
            found,
            names: _names,
        } = self;
        found
    }
}
