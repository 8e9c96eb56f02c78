//! All sources, entered one after the other.

ghost use Rattle.std.specs.Prelude.{◌≡◌, [], ◌++◌, length, IfOk, OnOk};
ghost use Rattle.symbol_table.specs.Found.{IsKept};
ghost use Rattle.symbol_table.specs.Sources as spec;
ghost use Rattle.symbol_table.specs.Tables.{IsTable, source_of, sources_of};

use crate::companions::add_companions;
use crate::items::items_of;
use crate::packages::open_packages;
use crate::table::{Beside, table_of};
use crate::walking::{Entering, Source};
use crate::{Loaded, Table};
use pc_terms::{Item, NoMemory, Problem, Row, Text, TreeKind};
use std::alloc::Global;

/// What sources come to, before case classes add to it.
#[derive(Drop)]
struct AllEntered {
    entering: Entering,
    /// The names of the sources, in load order.
    names: Row<Text>,
    /// For each source what is wrong with its definitions.
    problems: Vec<Row<Problem>>,
}

// Enters a source, and returns what is wrong with its definitions.
fn enter_source(
    entering: &mut Entering,
    file: u32,
    loaded: &Loaded<'_>,
) -> Result<Row<Problem>, NoMemory>
    requires kept { IsKept entering.old.definitions }
    requires told { entering.old.told ≡ [] }
    ensures kept { OnOk result (IsKept entering.new.definitions) }
    ensures told { OnOk result (entering.new.told ≡ []) }
    ensures entered { IfOk result (spec.EntersSource file (source_of loaded.now) entering.old entering.new) }
{
    let root = &loaded.unit.root;
    let innermost = open_packages(&mut entering.definitions, file, root)?;
    let source = Source {
        file,
        name: loaded.name,
    };
    entering.enter_kids(source, innermost, TreeKind::Unit, root)?;
    Ok(entering.take_told())
}

// Enters a source after those before it.
fn add_source(all: &mut AllEntered, loaded: &Loaded<'_>) -> Result<(), NoMemory>
    requires kept { IsKept all.old.entering.definitions }
    requires told { all.old.entering.told ≡ [] }
    ensures { OnOk result (spec.AddsSource (source_of loaded.now) all.old all.new) }
{
    let file = u32::try_from(all.names.len()).map_err(|_| NoMemory {})?;
    let problems = enter_source(&mut all.entering, file, loaded)?;
    all.problems.push(problems)?;
    all.names.push(loaded.name.clone()?)
}

fn enter_sources(alloc: Global, units: &[Loaded<'_>]) -> Result<AllEntered, NoMemory>
    ensures { IfOk result (spec.AreEntered (sources_of units.now) (length units.now)) }
{
    let mut all = AllEntered {
        entering: Entering::new(alloc),
        names: Row::new(alloc),
        problems: Vec::new(alloc),
    };
    for loaded in units {
        add_source(&mut all, loaded)?;
    }
    Ok(all)
}

// The items of one list, and then those of the other.
fn joined(items: Row<Item>, more: Row<Item>) -> Result<Row<Item>, NoMemory>
    ensures { IfOk result (λ joined. joined ≡ items ++ more) }
{
    let mut items = items.into_vec();
    let mut more = more.into_vec();
    items.append(&mut more)?;
    Ok(Row::from_vec(items))
}

/// The table of the definitions of some sources, in load order. The first of them is the prelude.
pub fn enter(alloc: Global, units: &[Loaded<'_>]) -> Result<Table, NoMemory>
    ensures { IfOk result (IsTable (sources_of units.now)) }
{
    let AllEntered {
        entering,
        names,
        mut problems,
    } = enter_sources(alloc, units)?;
    let Entering {
        alloc: _alloc,
        mut definitions,
        qualifiers,
        told: _told,
    } = entering;
    add_companions(alloc, &mut definitions, &mut problems)?;
    let found = definitions.into_found();
    let items = items_of(alloc, found.as_slice())?;
    let beside = Beside {
        items: joined(items, qualifiers)?,
        names,
        problems: Row::from_vec(problems),
    };
    table_of(alloc, found, beside)
}
