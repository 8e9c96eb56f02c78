//! The packages that sources open.

ghost use Rattle.std.specs.Prelude.{[], ◌∷◌, IfOk, OnOk};
ghost use Rattle.symbol_table.specs.Definitions.{clause_openings, openings_of};
ghost use Rattle.symbol_table.specs.Found as numbered;
ghost use Rattle.symbol_table.specs.Opened as spec;

use crate::definitions::{Definitions, Standing};
use crate::flags::plain_flags;
use crate::name_spaces::NameSpace;
use pc_terms::{NoMemory, SymKind};
use positioned_trees::{Detail, Name, Tree};

// Opens a package in another one, or in the root, by the clause with this id, and returns its number. A package is defined
// where it is opened first.
fn open(
    definitions: &mut Definitions,
    outer: Option<u32>,
    file: u32,
    node: u32,
    name: &Name,
) -> Result<Option<u32>, NoMemory>
    requires kept { numbered.IsKept definitions.old }
    requires owned { numbered.IsOwner definitions.old.found.items outer }
    ensures kept { OnOk result (numbered.IsKept definitions.new) }
    ensures opened { IfOk result (spec.Opens file (numbered.owner_steps definitions.old.found.items outer) (spec.opening node name.now ∷ []) definitions.old.found.items definitions.new.found.items) }
{
    let standing = Standing {
        file,
        node,
        label_span: name.span,
        flags: plain_flags(file == 0),
    };
    match definitions.named(outer, NameSpace::Packages, &name.text)? {
        Some(seen) => Ok(Some(seen.number)),
        None => definitions.define(outer, SymKind::Package, &name.text, standing),
    }
}

// Opens the packages of one clause, each in the one before.
fn open_clause(
    definitions: &mut Definitions,
    outer: Option<u32>,
    file: u32,
    clause: &Tree,
) -> Result<Option<u32>, NoMemory>
    requires kept { numbered.IsKept definitions.old }
    requires owned { numbered.IsOwner definitions.old.found.items outer }
    ensures kept { OnOk result (numbered.IsKept definitions.new) }
    ensures opened { IfOk result (spec.Opens file (numbered.owner_steps definitions.old.found.items outer) (clause_openings clause.now) definitions.old.found.items definitions.new.found.items) }
{
    let Detail::Package(path) = &clause.detail else {
        return Ok(outer);
    };
    let mut innermost = outer;
    for name in path.as_slice() {
        innermost = open(definitions, innermost, file, clause.id, name)?;
    }
    Ok(innermost)
}

/// Opens the packages of a source's clauses, and returns the number of the innermost; `None` where there is no clause.
pub fn open_packages(
    definitions: &mut Definitions,
    file: u32,
    root: &Tree,
) -> Result<Option<u32>, NoMemory>
    requires { numbered.IsKept definitions.old }
    ensures kept { OnOk result (numbered.IsKept definitions.new) }
    ensures opened { IfOk result (spec.Opens file [] (openings_of root.now) definitions.old.found.items definitions.new.found.items) }
{
    let mut innermost = None;
    for kid in root.kids.as_slice() {
        innermost = open_clause(definitions, innermost, file, kid)?;
    }
    Ok(innermost)
}
