//! Copies of symbol paths and of types. Each may find no memory.

ghost use Rattle.std.specs.Prelude.{◌≡◌, IfOk};

use pc_terms::{Formal, NoMemory, Row, SymPath, SymStep, Ty};
use sqlite_items::Boxed;
use std::alloc::Global;

fn copy_step(step: &SymStep) -> Result<SymStep, NoMemory>
    ensures { IfOk result (λ copy. copy ≡ step.now) }
{
    Ok(SymStep {
        kind: step.kind,
        name: step.name.clone()?,
        ordinal: step.ordinal,
    })
}

fn copy_steps(alloc: Global, steps: &[SymStep]) -> Result<Row<SymStep>, NoMemory>
    ensures { IfOk result (λ copies. copies ≡ steps.now) }
{
    let mut copies = Row::new(alloc);
    for step in steps {
        copies.push(copy_step(step)?)?;
    }
    Ok(copies)
}

/// A copy of a path.
pub fn copy_path(alloc: Global, path: &SymPath) -> Result<SymPath, NoMemory>
    ensures { IfOk result (λ copy. copy ≡ path.now) }
{
    Ok(SymPath {
        steps: copy_steps(alloc, path.steps.as_slice())?,
    })
}

pub(crate) fn copy_paths(alloc: Global, paths: &[SymPath]) -> Result<Row<SymPath>, NoMemory>
    ensures { IfOk result (λ copies. copies ≡ paths.now) }
{
    let mut copies = Row::new(alloc);
    for path in paths {
        copies.push(copy_path(alloc, path)?)?;
    }
    Ok(copies)
}

#[cycle(type_copies)]
fn copy_types(alloc: Global, types: &[Ty]) -> Result<Row<Ty>, NoMemory>
    ensures { IfOk result (λ copies. copies ≡ types.now) }
{
    let mut copies = Row::new(alloc);
    for ty in types {
        copies.push(copy_type(alloc, ty)?)?;
    }
    Ok(copies)
}

#[cycle(type_copies)]
fn copy_formal(alloc: Global, formal: &Formal) -> Result<Formal, NoMemory>
    ensures { IfOk result (λ copy. copy ≡ formal.now) }
{
    Ok(Formal {
        name: formal.name.clone()?,
        ty: copy_type(alloc, &formal.ty)?,
        repeated: formal.repeated,
    })
}

#[cycle(type_copies)]
fn copy_formals(alloc: Global, formals: &[Formal]) -> Result<Row<Formal>, NoMemory>
    ensures { IfOk result (λ copies. copies ≡ formals.now) }
{
    let mut copies = Row::new(alloc);
    for formal in formals {
        copies.push(copy_formal(alloc, formal)?)?;
    }
    Ok(copies)
}

#[cycle(type_copies)]
fn copy_boxed(alloc: Global, ty: &Ty) -> Result<Boxed<Ty>, NoMemory>
    ensures { IfOk result (λ copy. copy ≡ ty.now) }
{
    Ok(Boxed::new(alloc, copy_type(alloc, ty)?)?)
}

/// A copy of a type. It calls itself within itself as often as types stand in the type.
#[cycle(type_copies)]
pub fn copy_type(alloc: Global, ty: &Ty) -> Result<Ty, NoMemory>
    ensures { IfOk result (λ copy. copy ≡ ty.now) }
{
    Ok(match ty {
        Ty::Class(path, args) => {
            let path = copy_path(alloc, path)?;
            Ty::Class(path, copy_types(alloc, args.as_slice())?)
        }
        Ty::Param(path) => Ty::Param(copy_path(alloc, path)?),
        Ty::Module(path) => Ty::Module(copy_path(alloc, path)?),
        Ty::Package(path) => Ty::Package(copy_path(alloc, path)?),
        Ty::Method(formals, gives) => {
            let formals = copy_formals(alloc, formals.as_slice())?;
            Ty::Method(formals, copy_boxed(alloc, gives.get())?)
        }
        Ty::Poly(params, rest) => {
            let params = copy_paths(alloc, params.as_slice())?;
            Ty::Poly(params, copy_boxed(alloc, rest.get())?)
        }
        Ty::Error => Ty::Error,
    })
}
