ghost use Rattle.std.specs.Prelude.{◌≡◌, ◌<◌, false, [], ◌∷◌, ◌++◌, length, slice_get, Some, IfOk, OnOk, IsSorted};
ghost use Rattle.std.specs.List.{list_any};
ghost use Rattle.std.specs.Option.{option_copied};
ghost use Rattle.symbol_table.specs.Made as spec;
ghost use Rattle.symbol_table.specs.Order.{found_cmp, AreGroups};
ghost use Rattle.type_substitution.specs.Substitution.{path_eq};

use crate::Decl;
use crate::definitions::Found;
use crate::groups::{Group, NO_GROUP, part};
use crate::ordering::{group_of, put_in_order};
use base_types::{Flags, Owned};
use indexmap::IndexSet;
use pc_terms::{Item, NoMemory, Problem, Row, SymPath, Text};
use std::alloc::Global;
use type_substitution::copy_path;

/// The definitions of all loaded sources. What one owner owns stands together, so it is lent as one slice.
#[derive(Drop)]
pub struct Table {
    /// The paths of the definitions, in their order.
    paths: IndexSet<SymPath>,
    /// For each path its definition.
    decls: Row<Decl>,
    /// For each path the positions of what it owns.
    groups: Row<Group>,
    /// The positions of what the root owns.
    root: Group,
    items: Row<Item>,
    /// The names of the sources, in load order.
    names: Row<Text>,
    /// For each source what is wrong with its definitions.
    problems: Row<Row<Problem>>,
}

impl Table {
    ghost use Rattle.symbol_table.specs.Tables.{items_in, decl_in, owned_in, group_at, file_names, file_problems};

    /// The items: the parents and the signature of each class, trait and object, the signature of each other definition but
    /// packages, and the qualifier of each import clause.
    pub fn items(&self) -> &[Item]
        ensures { result.now ≡ items_in self.now }
    {
        self.items.as_slice()
    }

    /// The definition of a path; `None` exactly where the table has no such path. It takes no memory.
    pub fn decl(&self, path: &SymPath) -> Option<&Decl>
        ensures { option_copied result ≡ decl_in self.now path.now }
    {
        let place = self.paths.get_index_of(path)?;
        self.decls.get(place)
    }

    // The positions of what an owner owns.
    fn group(&self, owner: &SymPath) -> Group
        ensures { result ≡ group_at self.now owner.now.steps }
    {
        if owner.steps.is_empty() {
            return self.root;
        }
        match self.paths.get_index_of(owner) {
            Some(place) => self.groups.get(place).copied().unwrap_or(NO_GROUP),
            None => NO_GROUP,
        }
    }

    /// What an owner owns: by the bytes of the names, terms before types, then by ordinal. The root is the path without steps;
    /// it owns the outermost packages, and what stands in sources without a package clause. It takes no memory.
    pub fn owned(&self, owner: &SymPath) -> &[Decl]
        ensures { result.now ≡ owned_in self.now owner.now }
    {
        part(self.decls.as_slice(), self.group(owner))
    }

    /// The name of the source at this position in load order. It takes no memory.
    pub fn file(&self, at: u32) -> &Text
        requires { at < length (file_names self.now) }
        ensures { slice_get (file_names self.now) at ≡ Some result.now }
    {
        &self.names.as_slice()[at as usize]
    }

    /// What is wrong with the definitions of the source at this position by themselves: those that may not stand where they
    /// do, and second ones, each at its label. It takes no memory.
    pub fn problems(&self, at: u32) -> &[Problem]
        requires { at < length (file_problems self.now) }
        ensures { slice_get (file_problems self.now) at ≡ Some result.now }
    {
        self.problems.as_slice()[at as usize].as_slice()
    }
}

impl Owned for Table {
    ghost use Rattle.symbol_table.specs.Tables.{paths_in, flags_at};

    ghost owned_by = { paths_in };

    ghost flags_of = { flags_at };

    fn owned(&self, owner: &SymPath) -> &[SymPath] {
        part(self.paths.as_slice(), self.group(owner))
    }

    fn flags(&self, path: &SymPath) -> Option<&Flags> {
        let decl = self.decl(path)?;
        Some(&decl.flags)
    }
}

/// What a table holds beside its definitions.
#[derive(Drop)]
pub struct Beside {
    pub items: Row<Item>,
    pub names: Row<Text>,
    pub problems: Row<Row<Problem>>,
}

// For each of the definitions, which are in order, the positions of what it owns.
fn groups_of(alloc: Global, found: &[Found]) -> Result<Row<Group>, NoMemory>
    requires { IsSorted found_cmp found.now }
    ensures { IfOk result (AreGroups found.now) }
{
    let mut groups = Row::new(alloc);
    for each in found {
        groups.push(group_of(found, Some(each.number)))?;
    }
    Ok(groups)
}

/// The paths of definitions, each with its definition.
#[derive(Drop)]
struct Columns {
    paths: IndexSet<SymPath>,
    decls: Row<Decl>,
}

// Adds a definition after those before it.
fn push_decl(alloc: Global, columns: &mut Columns, decl: Decl) -> Result<(), NoMemory>
    requires { list_any (path_eq decl.path) columns.old.paths.keys ≡ false }
    ensures paths { OnOk result (columns.new.paths.keys ≡ columns.old.paths.keys ++ decl.path ∷ []) }
    ensures decls { OnOk result (columns.new.decls ≡ columns.old.decls ++ decl ∷ []) }
{
    let path = copy_path(alloc, &decl.path)?;
    let _is_new = columns.paths.insert(path)?;
    columns.decls.push(decl)
}

fn columns_of(alloc: Global, found: Vec<Found>) -> Result<Columns, NoMemory>
    requires { spec.HaveOwnPaths found.items }
    ensures { IfOk result (spec.AreColumns found.items) }
{
    let mut columns = Columns {
        paths: IndexSet::new(alloc),
        decls: Row::new(alloc),
    };
    for each in found {
        let Found {
            number: _number,
            owner: _owner,
            decl,
        } = each;
        push_decl(alloc, &mut columns, decl)?;
    }
    Ok(columns)
}

/// The table of these definitions.
pub fn table_of(alloc: Global, mut found: Vec<Found>, beside: Beside) -> Result<Table, NoMemory>
    requires { spec.HaveOwnPaths found.items }
    ensures { IfOk result (spec.IsMadeOf found.items beside) }
{
    let Beside {
        items,
        names,
        problems,
    } = beside;
    put_in_order(&mut found);
    let root = group_of(found.as_slice(), None);
    let groups = groups_of(alloc, found.as_slice())?;
    let Columns { paths, decls } = columns_of(alloc, found)?;
    Ok(Table {
        paths,
        decls,
        groups,
        root,
        items,
        names,
        problems,
    })
}
