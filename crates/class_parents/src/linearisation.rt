//! Linearisations.

ghost use Rattle.std.specs.Prelude.{◌≡◌, reverse, IfOk, MatchResult};
ghost use Rattle.item_questions.specs.Questions.{Known};
ghost use Rattle.item_answers.specs.Asking.{answer, asked, Stops};
ghost use Rattle.class_parents.specs.Linearisation as spec;

use crate::walking::walk;
use item_answers::{Stopped, asked};
use pc_terms::{Asked, Infos, NoMemory, Row, SymPath};
use std::alloc::Global;
use type_substitution::copy_path;

// Copies of these, the last one first.
fn reversed(alloc: Global, paths: &[SymPath]) -> Result<Row<SymPath>, NoMemory>
    ensures { IfOk result (λ copies. copies ≡ reverse paths.now) }
{
    let mut copies = Row::new(alloc);
    let mut rest = paths;
    while let [before @ .., last] = rest {
        copies.push(copy_path(alloc, last)?)?;
        rest = before;
    }
    Ok(copies)
}

/// The linearisation of a class, as far as the items are known.
pub fn linearised<I: Infos>(
    alloc: Global,
    class: &SymPath,
    infos: &I,
) -> Result<Row<SymPath>, Stopped>
    ensures { MatchResult result
        (λ classes. answer (I.known infos.now) (spec.linearisation class.now) ≡ Known classes)
        (λ why. Stops why (answer (I.known infos.now) (spec.linearisation class.now))) }
{
    let found = walk(alloc, class, infos)?;
    Ok(reversed(alloc, found.as_slice())?)
}

/// The linearisation of a class, trait or object: the class itself, then the classes that it is derived from (SLS 5.1.2).
pub fn linearise<I: Infos>(
    alloc: Global,
    class: &SymPath,
    infos: &I,
) -> Result<Asked<Row<SymPath>>, NoMemory>
    ensures { IfOk result (λ found. found ≡ asked (answer (I.known infos.now) (spec.linearisation class.now))) }
{
    asked(linearised(alloc, class, infos))
}
