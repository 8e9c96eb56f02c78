//! What is completed lazily.

ghost use Rattle.std.specs.Prelude.{◌≡◌, ◌++◌, IfOk, OnOk};
ghost use Rattle.std.specs.List.{flat_map};
ghost use Rattle.symbol_table.specs.Found.{found_items};
ghost use Rattle.symbol_table.specs.Items as spec;

use crate::definitions::Found;
use pc_terms::{Item, NoMemory, Row, SymKind, SymPath, Text, TreeKind};
use positioned_trees::{Detail, ImportClause, Tree};
use std::alloc::Global;
use type_substitution::copy_path;

// The items of a definition of this kind.
fn push_items_by(
    alloc: Global,
    items: &mut Row<Item>,
    kind: SymKind,
    path: &SymPath,
) -> Result<(), NoMemory>
    ensures { OnOk result (items.new ≡ items.old ++ spec.items_by kind path.now) }
{
    match kind {
        SymKind::Package => Ok(()),
        SymKind::Class | SymKind::Trait | SymKind::Object => {
            items.push(Item::Parents(copy_path(alloc, path)?))?;
            items.push(Item::Signature(copy_path(alloc, path)?))
        }
        _ => items.push(Item::Signature(copy_path(alloc, path)?)),
    }
}

fn push_items(alloc: Global, items: &mut Row<Item>, found: &Found) -> Result<(), NoMemory>
    ensures { OnOk result (items.new ≡ items.old ++ found_items found.now) }
{
    let path = &found.decl.path;
    match path.steps.as_slice().last() {
        Some(own) => push_items_by(alloc, items, own.kind, path),
        None => Ok(()),
    }
}

/// The items of these definitions, in their order.
pub fn items_of(alloc: Global, found: &[Found]) -> Result<Row<Item>, NoMemory>
    ensures { IfOk result (λ items. items ≡ flat_map found_items found.now) }
{
    let mut items = Row::new(alloc);
    for each in found {
        push_items(alloc, &mut items, each)?;
    }
    Ok(items)
}

// The clauses of an import; no other tree has one.
fn clauses_of(tree: &Tree) -> &[ImportClause]
    ensures { result.now ≡ spec.clauses_of tree.now }
{
    match (tree.kind, &tree.detail) {
        (TreeKind::Import, Detail::Import(clauses)) => clauses.as_slice(),
        _ => &[],
    }
}

/// Adds the qualifiers of the clauses of an import, in the source of this name, after these items.
pub fn push_qualifiers(items: &mut Row<Item>, name: &Text, tree: &Tree) -> Result<(), NoMemory>
    ensures { OnOk result (items.new ≡ items.old ++ spec.tree_qualifiers name.now tree.now) }
{
    for clause in clauses_of(tree) {
        items.push(Item::Qualifier(name.clone()?, clause.span.start))?;
    }
    Ok(())
}
