//! Upper bounds of type parameters.

ghost use Rattle.std.specs.Prelude.{◌≡◌, [], ◌∷◌, ℕ, suc, Some, IfOk, MatchOption, MatchResult};
ghost use Rattle.std.specs.Option.{option_copied};
ghost use Rattle.item_questions.specs.Questions.{Known};
ghost use Rattle.item_answers.specs.Asking as asking;
ghost use Rattle.base_classes.specs.BaseTypes as spec;
ghost use Rattle.class_parents.specs.Parents.{any, plain_class};
ghost use Rattle.pc_terms.specs.declared.types.Ty.{Ty};

use class_parents::{MAX_STEPS, scala_type};
use indexmap::IndexSet;
use item_answers::{Stopped, signature_of};
use pc_terms::{Infos, NoMemory, Sig, SymPath, Ty};
use std::alloc::Global;
use type_substitution::{copy_path, copy_type};

fn param_of(ty: &Ty) -> Option<&SymPath>
    ensures { option_copied result ≡ spec.param_of ty.now }
{
    match ty {
        Ty::Param(path) => Some(path),
        Ty::Class(_, _) | Ty::Module(_) | Ty::Package(_) | Ty::Method(_, _) | Ty::Poly(_, _) =>
            None,
        Ty::Error => None,
    }
}

// A copy of the upper bound in the signature of a type parameter.
fn upper_bound(alloc: Global, signature: &Sig) -> Result<Ty, NoMemory>
    ensures { IfOk result (λ ty. ty ≡ spec.upper_bound signature.now) }
{
    match signature.tparams.get(0) {
        Some(parameter) => copy_type(alloc, &parameter.upper),
        None => scala_type(alloc, "Any"),
    }
}

// The bound of a type parameter: Any, for one that has been met, and else what its signature says.
fn bound_of<I: Infos>(
    alloc: Global,
    path: &SymPath,
    seen: &mut IndexSet<SymPath>,
    infos: &I,
) -> Result<Option<Ty>, Stopped>
    ensures { MatchResult result
        (λ found. (n : ℕ) (ty : Ty) → spec.param_of ty ≡ Some path.now → MatchOption found
        (asking.answer (I.known infos.now) (spec.bounded (suc n) seen.old.keys ty) ≡ Known (plain_class any))
        (λ next. asking.answer (I.known infos.now) (spec.bounded (suc n) seen.old.keys ty)
        ≡ asking.answer (I.known infos.now) (spec.bounded n seen.new.keys next)))
        (λ why. (n : ℕ) (ty : Ty) → spec.param_of ty ≡ Some path.now
        → asking.Stops why (asking.answer (I.known infos.now) (spec.bounded (suc n) seen.old.keys ty))) }
{
    if seen.contains(path) {
        return Ok(None);
    }
    let signature = signature_of(alloc, path, infos)?;
    let bound = upper_bound(alloc, signature)?;
    let copy = copy_path(alloc, path)?;
    let _is_new = seen.insert(copy)?;
    Ok(Some(bound))
}

/// A copy of the type where it is no type parameter; else of what bounds it from above.
pub fn upper<I: Infos>(alloc: Global, ty: &Ty, infos: &I) -> Result<Ty, Stopped>
    ensures { MatchResult result
        (λ bound. asking.answer (I.known infos.now) (spec.upper ty.now) ≡ Known bound)
        (λ why. asking.Stops why (asking.answer (I.known infos.now) (spec.upper ty.now))) }
{
    let mut seen = IndexSet::new(alloc);
    let mut bound = copy_type(alloc, ty)?;
    for _step in 0..MAX_STEPS {
        match param_of(&bound) {
            None => return Ok(bound),
            Some(path) => {
                let further = bound_of(alloc, path, &mut seen, infos)?;
                match further {
                    Some(next) => bound = next,
                    None => return Ok(scala_type(alloc, "Any")?),
                }
            }
        }
    }
    Err(Stopped::NoMemory)
}
