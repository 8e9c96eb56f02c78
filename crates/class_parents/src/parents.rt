//! The parents of a class as they are followed.

ghost use Rattle.std.specs.Prelude.{◌≡◌, [], ◌∷◌, ℕ, suc, IfOk, MatchResult};
ghost use Rattle.item_questions.specs.Questions.{Known};
ghost use Rattle.item_answers.specs.Asking as asking;
ghost use Rattle.class_parents.specs.Parents as spec;

use crate::classes::{class_types, push_classes, scala_type};
use crate::stack::Stack;
use indexmap::IndexSet;
use item_answers::{Stopped, parents_of};
use pc_terms::{Infos, NoMemory, Row, SymPath, Ty};
use std::alloc::Global;

/// No rule takes more steps: one that would is answered as if memory had run out.
pub const MAX_STEPS: u32 = u32::MAX;

// Looks at the next of the classes: one that has been seen leads nowhere else.
fn reach_one<I: Infos>(
    alloc: Global,
    class: SymPath,
    todo: &mut Stack<SymPath>,
    seen: &mut IndexSet<SymPath>,
    infos: &I,
) -> Result<(), Stopped>
    ensures { MatchResult result
        (λ _. (n : ℕ) → asking.answer (I.known infos.now) (spec.reached (suc n) (class ∷ todo.old) seen.old.keys)
        ≡ asking.answer (I.known infos.now) (spec.reached n todo.new seen.new.keys))
        (λ why. (n : ℕ) → asking.Stops why (asking.answer (I.known infos.now) (spec.reached (suc n) (class ∷ todo.old) seen.old.keys))) }
{
    if seen.contains(&class) {
        return Ok(());
    }
    let types = parents_of(alloc, &class, infos)?;
    push_classes(alloc, todo, types.as_slice())?;
    let _is_new = seen.insert(class)?;
    Ok(())
}

// The classes to which these types lead by their parents, the classes of these among them.
fn reached<I: Infos>(alloc: Global, types: &[Ty], infos: &I) -> Result<IndexSet<SymPath>, Stopped>
    ensures { MatchResult result
        (λ seen. asking.answer (I.known infos.now) (spec.reached spec.max_steps (spec.classes_of types.now) []) ≡ Known seen.keys)
        (λ why. asking.Stops why (asking.answer (I.known infos.now) (spec.reached spec.max_steps (spec.classes_of types.now) []))) }
{
    let mut todo = Stack::new(alloc);
    push_classes(alloc, &mut todo, types)?;
    let mut seen = IndexSet::new(alloc);
    for _step in 0..MAX_STEPS {
        match todo.pop() {
            Some(class) => reach_one(alloc, class, &mut todo, &mut seen, infos)?,
            None => return Ok(seen),
        }
    }
    Err(Stopped::NoMemory)
}

fn any_ref_alone(alloc: Global) -> Result<Row<Ty>, NoMemory>
    ensures { IfOk result (λ types. types ≡ spec.plain_class spec.any_ref ∷ []) }
{
    let mut types = Row::new(alloc);
    types.push(scala_type(alloc, "AnyRef")?)?;
    Ok(types)
}

/// The parents of a class, as they are followed: a class that reaches itself by parents has the parent AnyRef instead.
pub fn followed<I: Infos>(alloc: Global, class: &SymPath, infos: &I) -> Result<Row<Ty>, Stopped>
    ensures { MatchResult result
        (λ types. asking.answer (I.known infos.now) (spec.followed class.now) ≡ Known types)
        (λ why. asking.Stops why (asking.answer (I.known infos.now) (spec.followed class.now))) }
{
    let types = parents_of(alloc, class, infos)?;
    let written = types.as_slice();
    let seen = reached(alloc, written, infos)?;
    if seen.contains(class) {
        Ok(any_ref_alone(alloc)?)
    } else {
        Ok(class_types(alloc, written)?)
    }
}
