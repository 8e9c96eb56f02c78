//! Classes that types are of.

ghost use Rattle.std.specs.Prelude.{◌≡◌, ◌++◌, IfOk, OnOk};
ghost use Rattle.std.specs.Option.{option_copied};
ghost use Rattle.class_parents.specs.Parents as spec;

use crate::stack::Stack;
use pc_terms::{NoMemory, Row, SymKind, SymPath, SymStep, Text, Ty};
use std::alloc::Global;
use type_substitution::{copy_path, copy_type};

fn scala_step(alloc: Global, kind: SymKind, name: &str) -> Result<SymStep, NoMemory>
    ensures { IfOk result (λ step. step ≡ spec.own_step kind name.now) }
{
    Ok(SymStep {
        kind,
        name: Text::new(alloc, name)?,
        ordinal: 0,
    })
}

// A class of the package `scala`.
fn scala_class(alloc: Global, name: &str) -> Result<SymPath, NoMemory>
    ensures { IfOk result (λ path. path ≡ spec.scala_class name.now) }
{
    let mut steps = Row::new(alloc);
    steps.push(scala_step(alloc, SymKind::Package, "scala")?)?;
    steps.push(scala_step(alloc, SymKind::Class, name)?)?;
    Ok(SymPath { steps })
}

/// The type of a class of the package `scala`, without arguments.
pub fn scala_type(alloc: Global, name: &str) -> Result<Ty, NoMemory>
    ensures { IfOk result (λ ty. ty ≡ spec.plain_class (spec.scala_class name.now)) }
{
    Ok(Ty::Class(scala_class(alloc, name)?, Row::new(alloc)))
}

/// The class of a class type.
pub fn class_of(ty: &Ty) -> Option<&SymPath>
    ensures { option_copied result ≡ spec.class_of ty.now }
{
    match ty {
        Ty::Class(path, _) => Some(path),
        Ty::Param(_) | Ty::Module(_) | Ty::Package(_) | Ty::Method(_, _) | Ty::Poly(_, _) => None,
        Ty::Error => None,
    }
}

/// Copies of those that are class types.
pub fn class_types(alloc: Global, types: &[Ty]) -> Result<Row<Ty>, NoMemory>
    ensures { IfOk result (λ found. found ≡ spec.class_types types.now) }
{
    let mut found = Row::new(alloc);
    for ty in types {
        if class_of(ty).is_some() {
            found.push(copy_type(alloc, ty)?)?;
        }
    }
    Ok(found)
}

fn push_class(alloc: Global, todo: &mut Stack<SymPath>, ty: &Ty) -> Result<(), NoMemory>
    ensures { OnOk result (todo.new ≡ spec.listed (spec.class_of ty.now) ++ todo.old) }
{
    match class_of(ty) {
        Some(path) => todo.push(copy_path(alloc, path)?),
        None => Ok(()),
    }
}

/// Puts the classes of these types on the stack, the first on top.
pub fn push_classes(alloc: Global, todo: &mut Stack<SymPath>, types: &[Ty]) -> Result<(), NoMemory>
    ensures { OnOk result (todo.new ≡ spec.classes_of types.now ++ todo.old) }
{
    let mut rest = types;
    while let [before @ .., last] = rest {
        push_class(alloc, todo, last)?;
        rest = before;
    }
    Ok(())
}
