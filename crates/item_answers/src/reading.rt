//! The values of items, read.

ghost use Rattle.std.specs.Prelude.{◌≡◌, MatchResult};
ghost use Rattle.item_questions.specs.Questions.{Known};
ghost use Rattle.item_answers.specs.Asking as spec;

use crate::Stopped;
use pc_terms::{Infos, Item, ItemValue, NoMemory, Row, Sig, SymPath, Text, Ty};
use std::alloc::Global;
use type_substitution::copy_path;

/// The parents of a class, trait or object, as they are written.
pub fn parents_of<'a, I: Infos>(
    alloc: Global,
    class: &SymPath,
    infos: &'a I,
) -> Result<&'a Row<Ty>, Stopped>
    ensures { MatchResult result (λ types. spec.answer (I.known infos.now) (spec.parents_of class.now) ≡ Known types.now)
        (λ why. spec.Stops why (spec.answer (I.known infos.now) (spec.parents_of class.now))) }
{
    let item = Item::Parents(copy_path(alloc, class)?);
    match infos.value(&item) {
        Some(ItemValue::Parents(types)) => Ok(types),
        Some(_) => Err(Stopped::Cyclic(item)),
        None => Err(Stopped::Needs(item)),
    }
}

/// The signature of a definition.
pub fn signature_of<'a, I: Infos>(
    alloc: Global,
    path: &SymPath,
    infos: &'a I,
) -> Result<&'a Sig, Stopped>
    ensures { MatchResult result (λ signature. spec.answer (I.known infos.now) (spec.signature_of path.now) ≡ Known signature.now)
        (λ why. spec.Stops why (spec.answer (I.known infos.now) (spec.signature_of path.now))) }
{
    let item = Item::Signature(copy_path(alloc, path)?);
    match infos.value(&item) {
        Some(ItemValue::Signature(signature)) => Ok(signature),
        Some(_) => Err(Stopped::Cyclic(item)),
        None => Err(Stopped::Needs(item)),
    }
}

/// What the qualifier of an import clause means; `None` where the clause binds nothing.
pub fn qualifier_of<'a, I: Infos>(
    file: &Text,
    at: u32,
    infos: &'a I,
) -> Result<&'a Option<SymPath>, Stopped>
    ensures { MatchResult result (λ path. spec.answer (I.known infos.now) (spec.qualifier_of file.now at) ≡ Known path.now)
        (λ why. spec.Stops why (spec.answer (I.known infos.now) (spec.qualifier_of file.now at))) }
{
    let item = Item::Qualifier(file.clone()?, at);
    match infos.value(&item) {
        Some(ItemValue::Qualifier(path)) => Ok(path),
        Some(_) => Err(Stopped::Cyclic(item)),
        None => Err(Stopped::Needs(item)),
    }
}
