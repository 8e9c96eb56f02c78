//! The members of one name.

ghost use Rattle.std.specs.Prelude.{◌≡◌, ◌++◌, ◌∷◌, [], filter, IfOk, OnOk, MatchResult};
ghost use Rattle.item_questions.specs.Questions.{Known};
ghost use Rattle.item_answers.specs.Asking as asking;
ghost use Rattle.type_members.specs.Members as members;
ghost use Rattle.type_members.specs.Named as spec;

use crate::offered::all_offered;
use crate::offers::{Offer, is_inherited, is_member};
use crate::overriding::{copies, kept};
use crate::spaces::is_named;
use crate::{Member, Space};
use base_types::Owned;
use class_parents::linearised;
use item_answers::Stopped;
use pc_terms::{Infos, NoMemory, Row, SymPath, Ty};
use std::alloc::Global;
use type_substitution::copy_path;

// Those of the members that a class defines which have the name.
fn own_named<W: Owned>(
    alloc: Global,
    table: &W,
    class: &SymPath,
    name: &str,
    space: Space,
) -> Result<Offer, NoMemory>
    ensures { IfOk result (λ offer. offer ≡ spec.own_offer (members.declared (W.owned_by table.now) (W.flags_of table.now)) name.now space class.now) }
{
    let mut paths = Row::new(alloc);
    for path in table.owned(class) {
        if is_member(path) && is_named(path, name, space) {
            paths.push(copy_path(alloc, path)?)?;
        }
    }
    Ok(Offer {
        class: copy_path(alloc, class)?,
        paths,
    })
}

// Those of them that others inherit.
fn inherited_named<W: Owned>(
    alloc: Global,
    table: &W,
    class: &SymPath,
    name: &str,
    space: Space,
) -> Result<Offer, NoMemory>
    ensures { IfOk result (λ offer. offer ≡ spec.inherited_named (members.declared (W.owned_by table.now) (W.flags_of table.now)) name.now space class.now) }
{
    let mut paths = Row::new(alloc);
    for path in table.owned(class) {
        if is_inherited(table, path) && is_named(path, name, space) {
            paths.push(copy_path(alloc, path)?)?;
        }
    }
    Ok(Offer {
        class: copy_path(alloc, class)?,
        paths,
    })
}

// Adds an offer, where there is something in it.
fn push_offer(offers: &mut Row<Offer>, offer: Offer) -> Result<(), NoMemory>
    ensures { OnOk result (offers.new ≡ offers.old ++ filter spec.is_offer (offer ∷ [])) }
{
    if offer.paths.is_empty() {
        return Ok(());
    }
    offers.push(offer)
}

fn named_offers<W: Owned>(
    alloc: Global,
    classes: &[SymPath],
    name: &str,
    space: Space,
    table: &W,
) -> Result<Row<Offer>, NoMemory>
    ensures { IfOk result (λ offers. offers ≡ filter spec.is_offer (spec.named_offers (members.declared (W.owned_by table.now) (W.flags_of table.now)) name.now space classes.now)) }
{
    let mut offers = Row::new(alloc);
    if let [first, others @ ..] = classes {
        push_offer(&mut offers, own_named(alloc, table, first, name, space)?)?;
        for class in others {
            push_offer(
                &mut offers,
                inherited_named(alloc, table, class, name, space)?,
            )?;
        }
    }
    Ok(offers)
}

fn paths_of(alloc: Global, members: Row<Member>) -> Result<Row<SymPath>, NoMemory>
    ensures { IfOk result (λ paths. paths ≡ spec.paths_of members) }
{
    let mut paths = Row::new(alloc);
    for member in members.into_vec() {
        paths.push(member.path)?;
    }
    Ok(paths)
}

// Of what several classes offer, the signatures tell what overrides what.
fn chosen_of_several<W: Owned, I: Infos>(
    alloc: Global,
    class: &SymPath,
    offers: &[Offer],
    table: &W,
    infos: &I,
) -> Result<Row<SymPath>, Stopped>
    ensures { MatchResult result
        (λ paths. asking.answer (I.known infos.now) (spec.chosen_of_several (members.declared (W.owned_by table.now) (W.flags_of table.now)) class.now offers.now) ≡ Known paths)
        (λ why. asking.Stops why (asking.answer (I.known infos.now) (spec.chosen_of_several (members.declared (W.owned_by table.now) (W.flags_of table.now)) class.now offers.now))) }
{
    let own = copy_path(alloc, class)?;
    let ty = Ty::Class(own, Row::new(alloc));
    let members = all_offered(alloc, &ty, offers, infos)?;
    Ok(paths_of(alloc, kept(alloc, table, Row::new(alloc), members)?)?)
}

fn chosen<W: Owned, I: Infos>(
    alloc: Global,
    class: &SymPath,
    offers: &[Offer],
    table: &W,
    infos: &I,
) -> Result<Row<SymPath>, Stopped>
    ensures { MatchResult result
        (λ paths. asking.answer (I.known infos.now) (spec.chosen (members.declared (W.owned_by table.now) (W.flags_of table.now)) class.now offers.now) ≡ Known paths)
        (λ why. asking.Stops why (asking.answer (I.known infos.now) (spec.chosen (members.declared (W.owned_by table.now) (W.flags_of table.now)) class.now offers.now))) }
{
    match offers {
        [] => Ok(Row::new(alloc)),
        [only] => Ok(copies(alloc, only.paths.as_slice())?),
        [_, _, ..] => chosen_of_several(alloc, class, offers, table, infos),
    }
}

/// The members of this name that a class, trait or object has.
pub fn members_named<W: Owned, I: Infos>(
    alloc: Global,
    class: &SymPath,
    name: &str,
    space: Space,
    table: &W,
    infos: &I,
) -> Result<Row<SymPath>, Stopped>
    ensures { MatchResult result
        (λ paths. asking.answer (I.known infos.now) (spec.members_named (members.declared (W.owned_by table.now) (W.flags_of table.now)) class.now name.now space) ≡ Known paths)
        (λ why. asking.Stops why (asking.answer (I.known infos.now) (spec.members_named (members.declared (W.owned_by table.now) (W.flags_of table.now)) class.now name.now space))) }
{
    let classes = linearised(alloc, class, infos)?;
    let offers = named_offers(alloc, classes.as_slice(), name, space, table)?;
    chosen(alloc, class, offers.as_slice(), table, infos)
}
