//! Base types.

ghost use Rattle.std.specs.Prelude.{◌≡◌, [], ◌∷◌, ◌++◌, ℕ, suc, false, map, Some, IfOk, OnOk, MatchOption, MatchResult};
ghost use Rattle.std.specs.Option.{option_copied};
ghost use Rattle.item_questions.specs.Questions.{Known};
ghost use Rattle.item_answers.specs.Asking as asking;
ghost use Rattle.base_classes.specs.BaseTypes as spec;
ghost use Rattle.class_parents.specs.Parents as parents;
ghost use Rattle.pc_terms.specs.declared.symbols.SymPath.{SymPath};
ghost use Rattle.type_substitution.specs.Substitution.{path_eq, substituted};

use crate::bounds::upper;
use class_parents::{MAX_STEPS, Stack, followed};
use indexmap::IndexSet;
use item_answers::{Stopped, asked, signature_of};
use pc_terms::{Asked, Infos, NoMemory, Row, SymPath, TParam, Ty};
use std::alloc::Global;
use type_substitution::{copy_path, subst};

/// The class of a class type, or an object's own.
pub fn template_of(ty: &Ty) -> Option<&SymPath>
    ensures { option_copied result ≡ spec.template_of ty.now }
{
    match ty {
        Ty::Class(path, _) | Ty::Module(path) => Some(path),
        Ty::Param(_) | Ty::Package(_) | Ty::Method(_, _) | Ty::Poly(_, _) | Ty::Error => None,
    }
}

/// The type parameters of a signature.
pub fn paths_of(alloc: Global, params: &[TParam]) -> Result<Row<SymPath>, NoMemory>
    ensures { IfOk result (λ paths. paths ≡ spec.paths_of params.now) }
{
    let mut paths = Row::new(alloc);
    for param in params {
        paths.push(copy_path(alloc, &param.path)?)?;
    }
    Ok(paths)
}

fn subst_all(
    alloc: Global,
    types: &Row<Ty>,
    params: &Row<SymPath>,
    args: &Row<Ty>,
) -> Result<Row<Ty>, NoMemory>
    ensures { IfOk result (λ news. news ≡ map (substituted params.now args.now) types.now) }
{
    let mut news = Row::new(alloc);
    for ty in types.as_slice() {
        news.push(subst(alloc, ty, params, args)?)?;
    }
    Ok(news)
}

// The types with the arguments of a class in the places of its type parameters.
fn with_args<I: Infos>(
    alloc: Global,
    class: &SymPath,
    args: &Row<Ty>,
    types: Row<Ty>,
    infos: &I,
) -> Result<Row<Ty>, Stopped>
    ensures { MatchResult result
        (λ news. asking.answer (I.known infos.now) (spec.with_args class.now args.now types) ≡ Known news)
        (λ why. asking.Stops why (asking.answer (I.known infos.now) (spec.with_args class.now args.now types))) }
{
    if args.is_empty() {
        return Ok(types);
    }
    let signature = signature_of(alloc, class, infos)?;
    let params = paths_of(alloc, signature.tparams.as_slice())?;
    Ok(subst_all(alloc, &types, &params, args)?)
}

// The arguments of a class type.
fn args_of(ty: &Ty) -> Option<&Row<Ty>>
    ensures { MatchOption result (spec.args_of ty.now ≡ []) (λ args. spec.args_of ty.now ≡ args.now) }
{
    match ty {
        Ty::Class(_, args) => Some(args),
        Ty::Param(_) | Ty::Module(_) | Ty::Package(_) | Ty::Method(_, _) | Ty::Poly(_, _) => None,
        Ty::Error => None,
    }
}

// The parents of a type of this class, as they are followed.
fn parents_as<I: Infos>(
    alloc: Global,
    class: &SymPath,
    ty: &Ty,
    infos: &I,
) -> Result<Row<Ty>, Stopped>
    ensures { MatchResult result
        (λ types. asking.answer (I.known infos.now) (spec.parents_as class.now ty.now) ≡ Known types)
        (λ why. asking.Stops why (asking.answer (I.known infos.now) (spec.parents_as class.now ty.now))) }
{
    let types = followed(alloc, class, infos)?;
    match args_of(ty) {
        Some(args) => with_args(alloc, class, args, types, infos),
        None => Ok(types),
    }
}

// Puts these types on the stack, the first on top.
fn push_types(todo: &mut Stack<Ty>, mut types: Row<Ty>) -> Result<(), NoMemory>
    ensures { OnOk result (todo.new ≡ types ++ todo.old) }
{
    while let Some(last) = types.pop() {
        todo.push(last)?;
    }
    Ok(())
}

fn own_class(alloc: Global, ty: &Ty) -> Result<Option<SymPath>, NoMemory>
    ensures { IfOk result (λ own. own ≡ spec.template_of ty.now) }
{
    match template_of(ty) {
        Some(path) => Ok(Some(copy_path(alloc, path)?)),
        None => Ok(None),
    }
}

// Puts the parents of a type of this class on the stack, where the class has not been seen.
fn follow<I: Infos>(
    alloc: Global,
    own: SymPath,
    ty: &Ty,
    todo: &mut Stack<Ty>,
    seen: &mut IndexSet<SymPath>,
    infos: &I,
) -> Result<(), Stopped>
    requires { spec.template_of ty.now ≡ Some own }
    ensures { MatchResult result
        (λ _. (n : ℕ) (class : SymPath) → path_eq own class ≡ false
        → asking.answer (I.known infos.now) (spec.searched (suc n) class (ty.now ∷ todo.old) seen.old.keys)
        ≡ asking.answer (I.known infos.now) (spec.searched n class todo.new seen.new.keys))
        (λ why. (n : ℕ) (class : SymPath) → path_eq own class ≡ false
        → asking.Stops why (asking.answer (I.known infos.now) (spec.searched (suc n) class (ty.now ∷ todo.old) seen.old.keys))) }
{
    if seen.contains(&own) {
        return Ok(());
    }
    let types = parents_as(alloc, &own, ty, infos)?;
    push_types(todo, types)?;
    let _is_new = seen.insert(own)?;
    Ok(())
}

fn is_same(own: &SymPath, class: &SymPath) -> bool
    ensures { result ≡ path_eq own.now class.now }
{
    *own == *class
}

// Looks at a type of this class: returns it where the class is the one that is looked for.
fn search_at<I: Infos>(
    alloc: Global,
    own: SymPath,
    ty: Ty,
    class: &SymPath,
    todo: &mut Stack<Ty>,
    seen: &mut IndexSet<SymPath>,
    infos: &I,
) -> Result<Option<Ty>, Stopped>
    requires { spec.template_of ty ≡ Some own }
    ensures { MatchResult result
        (λ found. (n : ℕ) → MatchOption found
        (asking.answer (I.known infos.now) (spec.searched (suc n) class.now (ty ∷ todo.old) seen.old.keys)
        ≡ asking.answer (I.known infos.now) (spec.searched n class.now todo.new seen.new.keys))
        (λ base. asking.answer (I.known infos.now) (spec.searched (suc n) class.now (ty ∷ todo.old) seen.old.keys) ≡ Known (Some base)))
        (λ why. (n : ℕ) → asking.Stops why (asking.answer (I.known infos.now) (spec.searched (suc n) class.now (ty ∷ todo.old) seen.old.keys))) }
{
    if is_same(&own, class) {
        return Ok(Some(ty));
    }
    follow(alloc, own, &ty, todo, seen, infos)?;
    Ok(None)
}

// Looks at the next of the types. What has no class is passed over.
fn search_one<I: Infos>(
    alloc: Global,
    ty: Ty,
    class: &SymPath,
    todo: &mut Stack<Ty>,
    seen: &mut IndexSet<SymPath>,
    infos: &I,
) -> Result<Option<Ty>, Stopped>
    ensures { MatchResult result
        (λ found. (n : ℕ) → MatchOption found
        (asking.answer (I.known infos.now) (spec.searched (suc n) class.now (ty ∷ todo.old) seen.old.keys)
        ≡ asking.answer (I.known infos.now) (spec.searched n class.now todo.new seen.new.keys))
        (λ base. asking.answer (I.known infos.now) (spec.searched (suc n) class.now (ty ∷ todo.old) seen.old.keys) ≡ Known (Some base)))
        (λ why. (n : ℕ) → asking.Stops why (asking.answer (I.known infos.now) (spec.searched (suc n) class.now (ty ∷ todo.old) seen.old.keys))) }
{
    let found = own_class(alloc, &ty)?;
    match found {
        Some(own) => search_at(alloc, own, ty, class, todo, seen, infos),
        None => Ok(None),
    }
}

fn search<I: Infos>(
    alloc: Global,
    bound: Ty,
    class: &SymPath,
    infos: &I,
) -> Result<Option<Ty>, Stopped>
    ensures { MatchResult result
        (λ found. asking.answer (I.known infos.now) (spec.searched parents.max_steps class.now (bound ∷ []) []) ≡ Known found)
        (λ why. asking.Stops why (asking.answer (I.known infos.now) (spec.searched parents.max_steps class.now (bound ∷ []) []))) }
{
    let mut todo = Stack::new(alloc);
    todo.push(bound)?;
    let mut seen = IndexSet::new(alloc);
    for _step in 0..MAX_STEPS {
        match todo.pop() {
            None => return Ok(None),
            Some(ty) => {
                let found = search_one(alloc, ty, class, &mut todo, &mut seen, infos)?;
                match found {
                    Some(base) => return Ok(Some(base)),
                    None => {}
                }
            }
        }
    }
    Err(Stopped::NoMemory)
}

/// The base type of a type at a class, as far as the items are known.
pub fn based<I: Infos>(
    alloc: Global,
    ty: &Ty,
    class: &SymPath,
    infos: &I,
) -> Result<Option<Ty>, Stopped>
    ensures { MatchResult result
        (λ base. asking.answer (I.known infos.now) (spec.base_type ty.now class.now) ≡ Known base)
        (λ why. asking.Stops why (asking.answer (I.known infos.now) (spec.base_type ty.now class.now))) }
{
    let bound = upper(alloc, ty, infos)?;
    search(alloc, bound, class, infos)
}

/// The type seen as one of a class that it is derived from; `None` exactly where it is derived from none.
pub fn base_type<I: Infos>(
    alloc: Global,
    ty: &Ty,
    class: &SymPath,
    infos: &I,
) -> Result<Asked<Option<Ty>>, NoMemory>
    ensures { IfOk result (λ found. found ≡ asking.asked (asking.answer (I.known infos.now) (spec.base_type ty.now class.now))) }
{
    asked(based(alloc, ty, class, infos))
}
