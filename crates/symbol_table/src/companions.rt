//! What a case class adds (SLS 5.3.2): a companion where none is written, and the method `apply` of its companion.

ghost use Rattle.std.specs.Prelude.{◌≡◌, ◌≤◌, length, slice_get, IfOk, OnOk};
ghost use Rattle.std.specs.Option.{option_copied};
ghost use Rattle.symbol_table.specs.Companions as spec;
ghost use Rattle.symbol_table.specs.Found.{IsKept, IsOwner};
ghost use Rattle.symbol_table.specs.Sources.{definitions_in};

use crate::definitions::{Definitions, Found, Standing};
use crate::flags::plain_flags;
use crate::name_spaces::NameSpace;
use crate::problems::double;
use pc_terms::{NoMemory, Problem, Row, SymKind, SymStep, Text};
use std::alloc::Global;

const APPLY: &str = "apply";

/// A case class: the number of its owner, its name, and where what it adds stands.
#[derive(Debug, Drop)]
struct CaseClass {
    owner: Option<u32>,
    name: Text,
    standing: Standing,
}

// The last step of a definition, where that is a case class.
fn case_class_step(found: &Found) -> Option<&SymStep>
    ensures { option_copied result ≡ spec.case_step found.now }
{
    let own = found.decl.path.steps.as_slice().last()?;
    if matches!(own.kind, SymKind::Class) && found.decl.flags.case_ {
        Some(own)
    } else {
        None
    }
}

// A copy of what is asked of the definition of this number, where that is a case class.
fn case_class(definitions: &Definitions, number: u32) -> Result<Option<CaseClass>, NoMemory>
    ensures { IfOk result (λ class. class ≡ spec.case_class_at definitions.now.found.items number) }
{
    let Some(found) = definitions.get(number) else {
        return Ok(None);
    };
    let Some(own) = case_class_step(found) else {
        return Ok(None);
    };
    Ok(Some(CaseClass {
        owner: found.owner,
        name: own.name.clone()?,
        standing: Standing {
            file: found.decl.file,
            node: found.decl.node,
            label_span: found.decl.label_span,
            flags: plain_flags(found.decl.file == 0),
        },
    }))
}

fn is_defined(
    definitions: &Definitions,
    owner: Option<u32>,
    space: NameSpace,
    name: &Text,
) -> Result<bool, NoMemory>
    requires { IsKept definitions.now }
    ensures { IfOk result (λ seen. seen ≡ spec.is_seen definitions.now.found.items owner space name.now) }
{
    let seen = definitions.named(owner, space, name)?;
    Ok(seen.is_some())
}

// Whether an owner has a term of this name. The packages in a package are among its terms; those of the root stand outside the
// empty package, which has no number either.
fn has_term(definitions: &Definitions, owner: Option<u32>, name: &Text) -> Result<bool, NoMemory>
    requires { IsKept definitions.now }
    ensures { IfOk result (λ has. has ≡ spec.has_term definitions.now.found.items owner name.now) }
{
    if is_defined(definitions, owner, NameSpace::Terms, name)? {
        return Ok(true);
    }
    match owner {
        Some(_) => is_defined(definitions, owner, NameSpace::Packages, name),
        None => Ok(false),
    }
}

// Adds the companion of a case class, where its owner has no term of its name.
fn add_companion(definitions: &mut Definitions, class: &CaseClass) -> Result<(), NoMemory>
    requires kept { IsKept definitions.old }
    requires owned { IsOwner definitions.old.found.items class.now.owner }
    ensures kept { OnOk result (IsKept definitions.new) }
    ensures found { OnOk result (definitions.new.found.items ≡ spec.with_companion definitions.old.found.items class.now) }
{
    if !has_term(definitions, class.owner, &class.name)? {
        let _number = definitions.define(
            class.owner,
            SymKind::Object,
            &class.name,
            class.standing,
        )?;
    }
    Ok(())
}

fn is_in_file(definitions: &Definitions, number: u32, file: u32) -> bool
    ensures { result ≡ spec.is_in_file file (slice_get definitions.now.found.items number) }
{
    match definitions.get(number) {
        Some(found) => found.decl.file == file,
        None => false,
    }
}

// The number of the companion of a case class: the object of its name, owner and file.
fn companion_of(definitions: &Definitions, class: &CaseClass) -> Result<Option<u32>, NoMemory>
    requires { IsKept definitions.now }
    ensures { IfOk result (λ number. number ≡ spec.companion_number definitions.now.found.items class.now) }
{
    let Some(term) = definitions.named(class.owner, NameSpace::Terms, &class.name)? else {
        return Ok(None);
    };
    let is_object = matches!(term.kind, SymKind::Object);
    if is_object && is_in_file(definitions, term.number, class.standing.file) {
        Ok(Some(term.number))
    } else {
        Ok(None)
    }
}

// Adds the `apply` of a case class to its companion. Returns a problem at its label where that is a second definition.
fn add_apply(
    alloc: Global,
    definitions: &mut Definitions,
    class: &CaseClass,
) -> Result<Option<Problem>, NoMemory>
    requires { IsKept definitions.old }
    ensures kept { OnOk result (IsKept definitions.new) }
    ensures found { OnOk result (definitions.new.found.items ≡ spec.with_apply definitions.old.found.items class.now) }
    ensures problem { IfOk result (λ problem. problem ≡ spec.apply_problem definitions.old.found.items class.now) }
{
    let Some(object) = companion_of(definitions, class)? else {
        return Ok(None);
    };
    let name = Text::new(alloc, APPLY)?;
    match definitions.define(Some(object), SymKind::Def, &name, class.standing)? {
        Some(_) => Ok(None),
        None => Ok(Some(double(alloc, class.standing.label_span, APPLY)?)),
    }
}

// Puts a problem after those of the source at this position.
fn tell(problems: &mut Vec<Row<Problem>>, file: u32, problem: Problem) -> Result<(), NoMemory>
    ensures { OnOk result (problems.new.items ≡ spec.told_more problems.old.items file problem) }
{
    match problems.get_mut(file as usize) {
        Some(of_file) => of_file.push(problem),
        None => Ok(()),
    }
}

// Adds the companion of the definition of this number, where that is a case class that has none.
fn complete(definitions: &mut Definitions, number: u32) -> Result<(), NoMemory>
    requires { IsKept definitions.old }
    ensures kept { OnOk result (IsKept definitions.new) }
    ensures found { OnOk result (definitions.new.found.items ≡ spec.companion_added definitions.old.found.items (spec.case_class_at definitions.old.found.items number)) }
{
    match case_class(definitions, number)? {
        Some(class) => add_companion(definitions, &class),
        None => Ok(()),
    }
}

// Adds the `apply` of the definition of this number to its companion, where that is a case class.
fn complete_apply(
    alloc: Global,
    definitions: &mut Definitions,
    problems: &mut Vec<Row<Problem>>,
    number: u32,
) -> Result<(), NoMemory>
    requires { IsKept definitions.old }
    ensures kept { OnOk result (IsKept definitions.new) }
    ensures found { OnOk result (definitions.new.found.items ≡ spec.apply_added definitions.old.found.items (spec.case_class_at definitions.old.found.items number)) }
    ensures told { OnOk result (problems.new.items ≡ spec.told_by definitions.old.found.items problems.old.items (spec.case_class_at definitions.old.found.items number)) }
{
    let Some(class) = case_class(definitions, number)? else {
        return Ok(());
    };
    match add_apply(alloc, definitions, &class)? {
        Some(problem) => tell(problems, class.standing.file, problem),
        None => Ok(()),
    }
}

// Adds the companions of the first definitions.
fn complete_all(definitions: &mut Definitions, count: u32) -> Result<(), NoMemory>
    requires kept { IsKept definitions.old }
    requires within { count ≤ length definitions.old.found.items }
    ensures kept { OnOk result (IsKept definitions.new) }
    ensures found { OnOk result (spec.HasCompanions definitions.old.found.items definitions.new.found.items count) }
{
    for number in 0..count {
        complete(definitions, number)?;
    }
    Ok(())
}

// Adds the `apply` of each of the first definitions.
fn complete_applies(
    alloc: Global,
    definitions: &mut Definitions,
    problems: &mut Vec<Row<Problem>>,
    count: u32,
) -> Result<(), NoMemory>
    requires kept { IsKept definitions.old }
    requires within { count ≤ length definitions.old.found.items }
    ensures kept { OnOk result (IsKept definitions.new) }
    ensures found { OnOk result (spec.PackagesStandWell (definitions_in definitions.old.found.items) → spec.HasApplies definitions.old.found.items definitions.new.found.items problems.old.items problems.new.items count) }
{
    for number in 0..count {
        complete_apply(alloc, definitions, problems, number)?;
    }
    Ok(())
}

/// Adds what the case classes among the definitions add: first their companions, then each its `apply`. Where one may add no
/// `apply`, its source has a problem more, at its label.
pub fn add_companions(
    alloc: Global,
    definitions: &mut Definitions,
    problems: &mut Vec<Row<Problem>>,
) -> Result<(), NoMemory>
    requires { IsKept definitions.old }
    ensures kept { OnOk result (IsKept definitions.new) }
    ensures completed { OnOk result (spec.AreCompleted definitions.old.found.items definitions.new.found.items problems.old.items problems.new.items) }
{
    let count = u32::try_from(definitions.len()).map_err(|_| NoMemory {})?;
    complete_all(definitions, count)?;
    complete_applies(alloc, definitions, problems, count)
}
