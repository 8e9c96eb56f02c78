//! The trees of one source, entered in pre-order.

ghost use Rattle.std.specs.Prelude.{◌≡◌, ◌++◌, ◌≤◌, [], length, IfOk, OnOk};
ghost use Rattle.std.specs.List.{flat_map};
ghost use Rattle.positioned_trees.specs.Trees.{all_trees};
ghost use Rattle.positioned_trees.specs.declared.trees.Tree.TheViews.{out-Tree};
ghost use Rattle.symbol_table.specs.Entering as spec;
ghost use Rattle.symbol_table.specs.Found as numbered;
ghost use Rattle.symbol_table.specs.Items.{tree_qualifiers};

use crate::definitions::{Definitions, Standing};
use crate::flags::flags_in;
use crate::items::push_qualifiers;
use crate::kinds::{is_local, is_misplaced, symbol_in};
use crate::problems::{double, misplaced};
use pc_terms::{Item, NoMemory, Problem, Row, SymKind, Text, TreeKind};
use positioned_trees::{Detail, Tree};
use std::alloc::Global;
use std::mem;

/// What is known of the trees that have been entered.
#[derive(Drop)]
pub struct Entering {
    pub alloc: Global,
    pub definitions: Definitions,
    pub qualifiers: Row<Item>,
    /// What is wrong with the definitions of the source that is being entered.
    pub told: Row<Problem>,
}

/// The source that is being entered.
#[derive(Clone, Copy)]
pub struct Source<'a> {
    pub file: u32,
    pub name: &'a Text,
}

impl Entering {
    pub fn new(alloc: Global) -> Entering
        ensures found { result.definitions.found.items ≡ [] }
        ensures kept { numbered.IsKept result.definitions }
        ensures qualifiers { result.qualifiers ≡ [] }
        ensures told { result.told ≡ [] }
    {
        Entering {
            alloc,
            definitions: Definitions::new(alloc),
            qualifiers: Row::new(alloc),
            told: Row::new(alloc),
        }
    }

    /// What has been told since this was called before. It takes no memory.
    pub fn take_told(&mut self) -> Row<Problem>
        ensures taken { result ≡ self.old.told }
        ensures left { self.new ≡ record self.old { told = [] } }
    {
        mem::replace(&mut self.told, Row::new(self.alloc))
    }

    /// Enters the kids of a tree that counts as one of this kind, and whose symbol has this number.
    #[cycle(entering_trees)]
    pub fn enter_kids(
        &mut self,
        source: Source<'_>,
        owner: Option<u32>,
        kind: TreeKind,
        tree: &Tree,
    ) -> Result<(), NoMemory>
        requires kept { numbered.IsKept self.old.definitions }
        requires owned { numbered.IsOwner self.old.definitions.found.items owner }
        ensures kept { OnOk result (numbered.IsKept self.new.definitions) }
        ensures grows { OnOk result (length self.old.definitions.found.items ≤ length self.new.definitions.found.items) }
        ensures entered { OnOk result (spec.EntersKids source.entry.file source.entry.name.now owner kind tree.now self.old self.new) }
    {
        for kid in tree.kids.as_slice() {
            self.enter_kid(source, owner, kind, &tree.detail, kid)?;
        }
        Ok(())
    }

    // Enters a tree directly in one of this kind and detail, whose symbol has this number.
    #[cycle(entering_trees)]
    fn enter_kid(
        &mut self,
        source: Source<'_>,
        owner: Option<u32>,
        kind: TreeKind,
        around: &Detail,
        kid: &Tree,
    ) -> Result<(), NoMemory>
        requires kept { numbered.IsKept self.old.definitions }
        requires owned { numbered.IsOwner self.old.definitions.found.items owner }
        ensures kept { OnOk result (numbered.IsKept self.new.definitions) }
        ensures grows { OnOk result (length self.old.definitions.found.items ≤ length self.new.definitions.found.items) }
        ensures entered { OnOk result (spec.EntersKid source.entry.file source.entry.name.now owner kind around.now kid.now self.old self.new) }
    {
        if is_misplaced(kind, kid.kind) {
            return self.told.push(misplaced(self.alloc, kid.label_span)?);
        }
        let symbol = symbol_in(kind, kid);
        if is_local(symbol) {
            return self.enter_imports(source.name, kid);
        }
        match self.define(source.file, owner, symbol, around, kid)? {
            Some(number) => self.enter_kids(source, Some(number), kid.kind, kid),
            None => Ok(()),
        }
    }

    // Enters the imports of a tree that defines nothing, and of all trees below it.
    fn enter_imports(&mut self, name: &Text, tree: &Tree) -> Result<(), NoMemory>
        ensures { OnOk result (self.new ≡ record self.old { qualifiers = self.old.qualifiers ++ flat_map (tree_qualifiers name.now) (all_trees tree.now) }) }
    {
        push_qualifiers(&mut self.qualifiers, name, tree)?;
        for kid in tree.kids.as_slice() {
            self.enter_imports(name, kid)?;
        }
        Ok(())
    }

    // Adds the definition that a tree makes, and returns its number. Where it is a second definition, that is told, and there
    // is no number.
    fn define(
        &mut self,
        file: u32,
        owner: Option<u32>,
        kind: SymKind,
        around: &Detail,
        tree: &Tree,
    ) -> Result<Option<u32>, NoMemory>
        requires kept { numbered.IsKept self.old.definitions }
        requires owned { numbered.IsOwner self.old.definitions.found.items owner }
        ensures kept { OnOk result (numbered.IsKept self.new.definitions) }
        ensures number { IfOk result (λ number. number ≡ numbered.number_for self.old.definitions.found.items owner kind (out-Tree tree.now).label) }
        ensures found { OnOk result (self.new.definitions.found.items ≡ numbered.defined self.old.definitions.found.items owner kind (out-Tree tree.now).label (spec.standing_of file around.now tree.now)) }
        ensures told { IfOk result (λ number. self.new.told ≡ self.old.told ++ spec.told_of number tree.now) }
        ensures qualifiers { self.new.qualifiers ≡ self.old.qualifiers }
    {
        let standing = Standing {
            file,
            node: tree.id,
            label_span: tree.label_span,
            flags: flags_in(file == 0, around, &tree.detail),
        };
        let number = self.definitions.define(owner, kind, &tree.label, standing)?;
        if number.is_none() {
            let problem = double(self.alloc, tree.label_span, tree.label.as_str())?;
            self.told.push(problem)?;
        }
        Ok(number)
    }
}
