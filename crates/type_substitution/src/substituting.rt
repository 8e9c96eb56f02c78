//! Types in the place of type parameters.
#![tactic(auto, using(crate::proofs::Substituted::substitutions, std::proofs::lemmas::Grind::common_steps))]

ghost use Rattle.std.specs.Prelude.{◌≡◌, map, position, IfOk};
ghost use Rattle.std.specs.Option.{option_copied};
ghost use Rattle.type_substitution.specs.Substitution as spec;

use crate::copying::{copy_path, copy_paths, copy_type};
use pc_terms::{Formal, NoMemory, Row, SymPath, Ty};
use sqlite_items::Boxed;
use std::alloc::Global;

fn place_of(params: &[SymPath], path: &SymPath) -> Option<usize>
    ensures { result ≡ position (λ param. spec.path_eq param path.now) params.now }
{
    params.iter().position(|param| *param == *path)
}

fn argument_of<'a>(params: &[SymPath], args: &'a [Ty], path: &SymPath) -> Option<&'a Ty>
    ensures { option_copied result ≡ spec.argument_of params.now args.now path.now }
{
    match place_of(params, path) {
        Some(place) => args.get(place),
        None => None,
    }
}

fn subst_param(
    alloc: Global,
    path: &SymPath,
    params: &[SymPath],
    args: &[Ty],
) -> Result<Ty, NoMemory>
    ensures { IfOk result (λ new. new ≡ spec.replaced params.now args.now path.now) }
{
    match argument_of(params, args, path) {
        Some(arg) => copy_type(alloc, arg),
        None => Ok(Ty::Param(copy_path(alloc, path)?)),
    }
}

#[cycle(substitution)]
fn subst_types(
    alloc: Global,
    types: &[Ty],
    params: &[SymPath],
    args: &[Ty],
) -> Result<Row<Ty>, NoMemory>
    ensures { IfOk result (λ news. news ≡ map (spec.substituted params.now args.now) types.now) }
{
    let mut news = Row::new(alloc);
    for ty in types {
        news.push(subst_type(alloc, ty, params, args)?)?;
    }
    Ok(news)
}

#[cycle(substitution)]
fn subst_formal(
    alloc: Global,
    formal: &Formal,
    params: &[SymPath],
    args: &[Ty],
) -> Result<Formal, NoMemory>
    ensures { IfOk result (λ new. new ≡ spec.substituted_formal params.now args.now formal.now) }
{
    Ok(Formal {
        name: formal.name.clone()?,
        ty: subst_type(alloc, &formal.ty, params, args)?,
        repeated: formal.repeated,
    })
}

#[cycle(substitution)]
fn subst_formals(
    alloc: Global,
    formals: &[Formal],
    params: &[SymPath],
    args: &[Ty],
) -> Result<Row<Formal>, NoMemory>
    ensures { IfOk result (λ news. news ≡ map (spec.substituted_formal params.now args.now) formals.now) }
{
    let mut news = Row::new(alloc);
    for formal in formals {
        news.push(subst_formal(alloc, formal, params, args)?)?;
    }
    Ok(news)
}

#[cycle(substitution)]
fn subst_boxed(
    alloc: Global,
    ty: &Ty,
    params: &[SymPath],
    args: &[Ty],
) -> Result<Boxed<Ty>, NoMemory>
    ensures { IfOk result (λ new. new ≡ spec.substituted params.now args.now ty.now) }
{
    Ok(Boxed::new(alloc, subst_type(alloc, ty, params, args)?)?)
}

#[cycle(substitution)]
fn subst_type(alloc: Global, ty: &Ty, params: &[SymPath], args: &[Ty]) -> Result<Ty, NoMemory>
    ensures { IfOk result (λ new. new ≡ spec.substituted params.now args.now ty.now) }
{
    Ok(match ty {
        Ty::Class(path, types) => {
            let path = copy_path(alloc, path)?;
            Ty::Class(path, subst_types(alloc, types.as_slice(), params, args)?)
        }
        Ty::Param(path) => subst_param(alloc, path, params, args)?,
        Ty::Module(path) => Ty::Module(copy_path(alloc, path)?),
        Ty::Package(path) => Ty::Package(copy_path(alloc, path)?),
        Ty::Method(formals, gives) => {
            let formals = subst_formals(alloc, formals.as_slice(), params, args)?;
            Ty::Method(formals, subst_boxed(alloc, gives.get(), params, args)?)
        }
        Ty::Poly(bound, rest) => {
            let bound = copy_paths(alloc, bound.as_slice())?;
            Ty::Poly(bound, subst_boxed(alloc, rest.get(), params, args)?)
        }
        Ty::Error => Ty::Error,
    })
}

/// A type with the argument at the place of each of these parameters put in for it. A parameter for which there is no
/// argument stays. It looks through `params` once for each parameter that stands in the type.
pub fn subst(alloc: Global, ty: &Ty, params: &Row<SymPath>, args: &Row<Ty>) -> Result<Ty, NoMemory>
    ensures { IfOk result (λ new. new ≡ spec.substituted params.now args.now ty.now) }
{
    subst_type(alloc, ty, params.as_slice(), args.as_slice())
}
