//! The parameters of methods.
#![tactic(auto, using(crate::proofs::Lists::lists_of))]

ghost use Rattle.std.specs.Prelude.{◌≡◌, ◌++◌, ◌∷◌, [], map, filter, OnOk, IfOk};
ghost use Rattle.type_members.specs.Types as spec;

use crate::same_types::are_same_formals;
use pc_terms::{Formal, NoMemory, Row, SymPath, Ty};
use std::alloc::Global;

// Adds a list of parameters, where it has any.
fn push_list<'a>(lists: &mut Vec<&'a Row<Formal>>, formals: &'a Row<Formal>) -> Result<(), NoMemory>
    ensures { OnOk result (map (λ list. list.now) lists.new.items ≡ map (λ list. list.now) lists.old.items ++ filter spec.has_some (formals.now ∷ [])) }
{
    if formals.is_empty() {
        return Ok(());
    }
    Ok(lists.push(formals)?)
}

// Adds the lists of parameters of a type.
fn push_lists<'a>(lists: &mut Vec<&'a Row<Formal>>, ty: &'a Ty) -> Result<(), NoMemory>
    ensures { OnOk result (map (λ list. list.now) lists.new.items ≡ map (λ list. list.now) lists.old.items ++ spec.parameter_lists ty.now) }
{
    match ty {
        Ty::Method(formals, gives) => {
            push_list(lists, formals)?;
            push_lists(lists, gives.get())
        }
        Ty::Poly(_, rest) => push_lists(lists, rest.get()),
        Ty::Class(_, _) | Ty::Param(_) | Ty::Module(_) | Ty::Package(_) | Ty::Error => Ok(()),
    }
}

fn are_same(a: &[&Row<Formal>], b: &[&Row<Formal>]) -> bool
    ensures { result ≡ spec.are_same_lists (map (λ list. list.now) a.now) (map (λ list. list.now) b.now) }
{
    let mut others = b;
    for list in a {
        match others {
            [other, left @ ..] => {
                if !are_same_formals(list.as_slice(), other.as_slice()) {
                    return false;
                }
                others = left;
            }
            [] => return false,
        }
    }
    others.is_empty()
}

/// Whether two types have the same lists of parameters; lists without parameters do not count.
pub fn have_same_lists(alloc: Global, a: &Ty, b: &Ty) -> Result<bool, NoMemory>
    ensures { IfOk result (λ same. same ≡ spec.are_same_lists (spec.parameter_lists a.now) (spec.parameter_lists b.now)) }
{
    let mut lists = Vec::new(alloc);
    push_lists(&mut lists, a)?;
    let mut others = Vec::new(alloc);
    push_lists(&mut others, b)?;
    Ok(are_same(lists.as_slice(), others.as_slice()))
}

/// The type parameters of what is polymorphic.
pub fn params_of(ty: &Ty) -> &[SymPath]
    ensures { result.now ≡ spec.params_of ty.now }
{
    match ty {
        Ty::Poly(params, _) => params.as_slice(),
        Ty::Class(_, _)
        | Ty::Param(_)
        | Ty::Module(_)
        | Ty::Package(_)
        | Ty::Method(_, _)
        | Ty::Error => &[],
    }
}
