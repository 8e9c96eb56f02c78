//! What classes offer to a type, as it is seen from that type.

ghost use Rattle.std.specs.Prelude.{◌≡◌, ◌++◌, OnOk, MatchResult};
ghost use Rattle.item_questions.specs.Questions.{Known};
ghost use Rattle.item_answers.specs.Asking as asking;
ghost use Rattle.type_members.specs.Members as spec;

use crate::Member;
use crate::offers::Offer;
use crate::views::{View, member_of, seen_from};
use item_answers::Stopped;
use pc_terms::{Infos, NoMemory, Row, Ty};
use std::alloc::Global;

fn members_seen<I: Infos>(
    alloc: Global,
    offer: &Offer,
    view: &View,
    infos: &I,
) -> Result<Row<Member>, Stopped>
    ensures { MatchResult result
        (λ members. asking.answer (I.known infos.now) (spec.members_seen offer.now view.now) ≡ Known members)
        (λ why. asking.Stops why (asking.answer (I.known infos.now) (spec.members_seen offer.now view.now))) }
{
    let mut members = Row::new(alloc);
    for path in offer.paths.as_slice() {
        members.push(member_of(alloc, &offer.class, view, path, infos)?)?;
    }
    Ok(members)
}

/// What a class offers to a type.
pub fn members_offered<I: Infos>(
    alloc: Global,
    ty: &Ty,
    offer: &Offer,
    infos: &I,
) -> Result<Row<Member>, Stopped>
    ensures { MatchResult result
        (λ members. asking.answer (I.known infos.now) (spec.members_offered ty.now offer.now) ≡ Known members)
        (λ why. asking.Stops why (asking.answer (I.known infos.now) (spec.members_offered ty.now offer.now))) }
{
    let view = seen_from(alloc, ty, &offer.class, infos)?;
    members_seen(alloc, offer, &view, infos)
}

fn push_all(members: &mut Row<Member>, more: Row<Member>) -> Result<(), NoMemory>
    ensures { OnOk result (members.new ≡ members.old ++ more) }
{
    for member in more.into_vec() {
        members.push(member)?;
    }
    Ok(())
}

/// What these classes offer to a type, one after the other.
pub fn all_offered<I: Infos>(
    alloc: Global,
    ty: &Ty,
    offers: &[Offer],
    infos: &I,
) -> Result<Row<Member>, Stopped>
    ensures { MatchResult result
        (λ members. asking.answer (I.known infos.now) (spec.all_offered ty.now offers.now) ≡ Known members)
        (λ why. asking.Stops why (asking.answer (I.known infos.now) (spec.all_offered ty.now offers.now))) }
{
    let mut members = Row::new(alloc);
    for offer in offers {
        push_all(&mut members, members_offered(alloc, ty, offer, infos)?)?;
    }
    Ok(members)
}
