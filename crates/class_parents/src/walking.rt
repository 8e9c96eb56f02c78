//! The walk that finds a linearisation.

ghost use Rattle.std.specs.Prelude.{◌≡◌, [], ◌∷◌, ◌++◌, ℕ, suc, false, reverse, Some, MatchResult, OnOk, IfErr};
ghost use Rattle.item_questions.specs.Questions.{Known};
ghost use Rattle.item_answers.specs.Asking.{answer};
ghost use Rattle.class_parents.specs.Parents as parents;
ghost use Rattle.class_parents.specs.Walk as spec;
ghost use Rattle.class_parents.specs.declared.walking.Visit.TheVariants.{Enter};
ghost use Rattle.item_answers.specs.declared.stopping.Stopped.TheVariants as stopped;

use crate::classes::class_of;
use crate::parents::{MAX_STEPS, followed};
use crate::stack::Stack;
use indexmap::IndexSet;
use item_answers::Stopped;
use pc_terms::{Infos, NoMemory, SymPath, Ty};
use std::alloc::Global;
use type_substitution::copy_path;

/// A step of the walk.
#[derive(Debug, Drop)]
pub enum Visit {
    /// To the parents of a class, and to the class behind them.
    Enter(SymPath),
    /// To a class whose parents have been visited.
    Leave(SymPath),
}

fn push_entering(alloc: Global, todo: &mut Stack<Visit>, ty: &Ty) -> Result<(), NoMemory>
    ensures { OnOk result (todo.new ≡ spec.entering (parents.listed (parents.class_of ty.now)) ++ todo.old) }
{
    match class_of(ty) {
        Some(path) => todo.push(Visit::Enter(copy_path(alloc, path)?)),
        None => Ok(()),
    }
}

// Puts visits to the classes of these types on the stack, the first on top.
fn push_all_entering(alloc: Global, todo: &mut Stack<Visit>, types: &[Ty]) -> Result<(), NoMemory>
    ensures { OnOk result (todo.new ≡ spec.entering (parents.classes_of types.now) ++ todo.old) }
{
    let mut rest = types;
    while let [before @ .., last] = rest {
        push_entering(alloc, todo, last)?;
        rest = before;
    }
    Ok(())
}

fn enter<I: Infos>(
    alloc: Global,
    class: SymPath,
    todo: &mut Stack<Visit>,
    found: &mut IndexSet<SymPath>,
    infos: &I,
) -> Result<(), Stopped>
    ensures { MatchResult result
        (λ _. (n : ℕ) → spec.walked (λ c. answer (I.known infos.now) (parents.followed c)) (suc n) (Enter class ∷ todo.old) (reverse found.old.keys)
        ≡ spec.walked (λ c. answer (I.known infos.now) (parents.followed c)) n todo.new (reverse found.new.keys))
        (λ why. (n : ℕ) → spec.Halts why (spec.walked (λ c. answer (I.known infos.now) (parents.followed c)) (suc n) (Enter class ∷ todo.old) (reverse found.old.keys))) }
{
    if found.contains(&class) {
        return Ok(());
    }
    let types = followed(alloc, &class, infos)?;
    todo.push(Visit::Leave(class))?;
    push_all_entering(alloc, todo, types.as_slice())?;
    Ok(())
}

// A class that is left a second time would be entered again and again.
fn leave(class: SymPath, found: &mut IndexSet<SymPath>) -> Result<(), Stopped>
    ensures new { OnOk result (parents.is_in class found.old.keys ≡ false) }
    ensures added { OnOk result (reverse found.new.keys ≡ class ∷ reverse found.old.keys) }
    ensures err { IfErr result (λ why. why ≡ stopped.NoMemory) }
{
    if found.insert(class)? {
        Ok(())
    } else {
        Err(Stopped::NoMemory)
    }
}

fn take_step<I: Infos>(
    alloc: Global,
    step: Visit,
    todo: &mut Stack<Visit>,
    found: &mut IndexSet<SymPath>,
    infos: &I,
) -> Result<(), Stopped>
    ensures { MatchResult result
        (λ _. (n : ℕ) → spec.walked (λ c. answer (I.known infos.now) (parents.followed c)) (suc n) (step ∷ todo.old) (reverse found.old.keys)
        ≡ spec.walked (λ c. answer (I.known infos.now) (parents.followed c)) n todo.new (reverse found.new.keys))
        (λ why. (n : ℕ) → spec.Halts why (spec.walked (λ c. answer (I.known infos.now) (parents.followed c)) (suc n) (step ∷ todo.old) (reverse found.old.keys))) }
{
    match step {
        Visit::Enter(class) => enter(alloc, class, todo, found, infos),
        Visit::Leave(class) => leave(class, found),
    }
}

/// The classes that a class leads to, itself the last.
pub fn walk<I: Infos>(
    alloc: Global,
    class: &SymPath,
    infos: &I,
) -> Result<IndexSet<SymPath>, Stopped>
    ensures { MatchResult result
        (λ found. spec.walked (λ c. answer (I.known infos.now) (parents.followed c)) parents.max_steps (Enter class.now ∷ []) [] ≡ Some (Known (reverse found.keys)))
        (λ why. spec.Halts why (spec.walked (λ c. answer (I.known infos.now) (parents.followed c)) parents.max_steps (Enter class.now ∷ []) [])) }
{
    let mut todo = Stack::new(alloc);
    todo.push(Visit::Enter(copy_path(alloc, class)?))?;
    let mut found = IndexSet::new(alloc);
    for _step in 0..MAX_STEPS {
        match todo.pop() {
            Some(next) => take_step(alloc, next, &mut todo, &mut found, infos)?,
            None => return Ok(found),
        }
    }
    Err(Stopped::NoMemory)
}
