//! The members of types.

ghost use Rattle.std.specs.Prelude.{◌≡◌, ◌∷◌, Some, IfOk, MatchResult};
ghost use Rattle.item_questions.specs.Questions.{Known};
ghost use Rattle.item_answers.specs.Asking as asking;
ghost use Rattle.type_members.specs.Members as spec;

use crate::Member;
use crate::offered::{all_offered, members_offered};
use crate::offers::{inherited_offers, own_offer};
use crate::overriding::kept;
use crate::spaces::is_package;
use crate::views::{member_of, plain_view};
use base_classes::upper;
use base_types::Owned;
use class_parents::linearised;
use item_answers::{Stopped, asked};
use pc_terms::{Asked, Infos, NoMemory, Row, SymPath, Ty};
use std::alloc::Global;
use type_substitution::copy_path;

// What this class defines, then what it inherits from the others.
fn members_from<W: Owned, I: Infos>(
    alloc: Global,
    ty: &Ty,
    class: &SymPath,
    others: &[SymPath],
    table: &W,
    infos: &I,
) -> Result<Row<Member>, Stopped>
    ensures { MatchResult result
        (λ members. asking.answer (I.known infos.now) (spec.members_along (spec.declared (W.owned_by table.now) (W.flags_of table.now)) ty.now (class.now ∷ others.now)) ≡ Known members)
        (λ why. asking.Stops why (asking.answer (I.known infos.now) (spec.members_along (spec.declared (W.owned_by table.now) (W.flags_of table.now)) ty.now (class.now ∷ others.now)))) }
{
    let all = own_offer(alloc, table, class)?;
    let own = members_offered(alloc, ty, &all, infos)?;
    inherited_members(alloc, ty, others, own, table, infos)
}

fn members_along<W: Owned, I: Infos>(
    alloc: Global,
    ty: &Ty,
    classes: &[SymPath],
    table: &W,
    infos: &I,
) -> Result<Row<Member>, Stopped>
    ensures { MatchResult result
        (λ members. asking.answer (I.known infos.now) (spec.members_along (spec.declared (W.owned_by table.now) (W.flags_of table.now)) ty.now classes.now) ≡ Known members)
        (λ why. asking.Stops why (asking.answer (I.known infos.now) (spec.members_along (spec.declared (W.owned_by table.now) (W.flags_of table.now)) ty.now classes.now))) }
{
    match classes {
        [] => Ok(Row::new(alloc)),
        [class, others @ ..] => members_from(alloc, ty, class, others, table, infos),
    }
}

fn inherited_members<W: Owned, I: Infos>(
    alloc: Global,
    ty: &Ty,
    others: &[SymPath],
    own: Row<Member>,
    table: &W,
    infos: &I,
) -> Result<Row<Member>, Stopped>
    ensures { MatchResult result
        (λ members. asking.answer (I.known infos.now) (spec.inherited_members (spec.declared (W.owned_by table.now) (W.flags_of table.now)) ty.now others.now own) ≡ Known members)
        (λ why. asking.Stops why (asking.answer (I.known infos.now) (spec.inherited_members (spec.declared (W.owned_by table.now) (W.flags_of table.now)) ty.now others.now own))) }
{
    let offers = inherited_offers(alloc, table, others)?;
    let later = all_offered(alloc, ty, offers.as_slice(), infos)?;
    Ok(kept(alloc, table, own, later)?)
}

fn template_members<W: Owned, I: Infos>(
    alloc: Global,
    ty: &Ty,
    class: &SymPath,
    table: &W,
    infos: &I,
) -> Result<Row<Member>, Stopped>
    ensures { MatchResult result
        (λ members. asking.answer (I.known infos.now) (spec.template_members (spec.declared (W.owned_by table.now) (W.flags_of table.now)) ty.now (Some class.now)) ≡ Known members)
        (λ why. asking.Stops why (asking.answer (I.known infos.now) (spec.template_members (spec.declared (W.owned_by table.now) (W.flags_of table.now)) ty.now (Some class.now)))) }
{
    let classes = linearised(alloc, class, infos)?;
    members_along(alloc, ty, classes.as_slice(), table, infos)
}

fn package_member<I: Infos>(
    alloc: Global,
    holder: &SymPath,
    path: &SymPath,
    infos: &I,
) -> Result<Member, Stopped>
    ensures { MatchResult result
        (λ member. asking.answer (I.known infos.now) (spec.package_member holder.now path.now) ≡ Known member)
        (λ why. asking.Stops why (asking.answer (I.known infos.now) (spec.package_member holder.now path.now))) }
{
    if is_package(path) {
        Ok(Member {
            path: copy_path(alloc, path)?,
            ty: Ty::Package(copy_path(alloc, path)?),
            owner: copy_path(alloc, holder)?,
        })
    } else {
        member_of(alloc, holder, &plain_view(alloc), path, infos)
    }
}

fn package_members<I: Infos>(
    alloc: Global,
    holder: &SymPath,
    paths: &[SymPath],
    infos: &I,
) -> Result<Row<Member>, Stopped>
    ensures { MatchResult result
        (λ members. asking.answer (I.known infos.now) (asking.each (spec.package_member holder.now) paths.now) ≡ Known members)
        (λ why. asking.Stops why (asking.answer (I.known infos.now) (asking.each (spec.package_member holder.now) paths.now))) }
{
    let mut members = Row::new(alloc);
    for path in paths {
        members.push(package_member(alloc, holder, path, infos)?)?;
    }
    Ok(members)
}

// The members of a type that is no type parameter.
fn members_as<W: Owned, I: Infos>(
    alloc: Global,
    ty: &Ty,
    table: &W,
    infos: &I,
) -> Result<Row<Member>, Stopped>
    ensures { MatchResult result
        (λ members. asking.answer (I.known infos.now) (spec.members_as (spec.declared (W.owned_by table.now) (W.flags_of table.now)) ty.now) ≡ Known members)
        (λ why. asking.Stops why (asking.answer (I.known infos.now) (spec.members_as (spec.declared (W.owned_by table.now) (W.flags_of table.now)) ty.now))) }
{
    match ty {
        Ty::Package(package) => package_members(alloc, package, table.owned(package), infos),
        Ty::Class(class, _args) => template_members(alloc, ty, class, table, infos),
        Ty::Module(class) => template_members(alloc, ty, class, table, infos),
        Ty::Param(_) | Ty::Method(_, _) | Ty::Poly(_, _) | Ty::Error => Ok(Row::new(alloc)),
    }
}

fn members<W: Owned, I: Infos>(
    alloc: Global,
    ty: &Ty,
    table: &W,
    infos: &I,
) -> Result<Row<Member>, Stopped>
    ensures { MatchResult result
        (λ members. asking.answer (I.known infos.now) (spec.members_of (spec.declared (W.owned_by table.now) (W.flags_of table.now)) ty.now) ≡ Known members)
        (λ why. asking.Stops why (asking.answer (I.known infos.now) (spec.members_of (spec.declared (W.owned_by table.now) (W.flags_of table.now)) ty.now))) }
{
    let bound = upper(alloc, ty, infos)?;
    members_as(alloc, &bound, table, infos)
}

/// The members of a type, as they are seen from it: class by class along its linearisation, those that no earlier one overrides
/// (SLS 5.1.3). A package has its definitions.
pub fn members_of<W: Owned, I: Infos>(
    alloc: Global,
    ty: &Ty,
    table: &W,
    infos: &I,
) -> Result<Asked<Row<Member>>, NoMemory>
    ensures { IfOk result (λ found. found ≡ asking.asked (asking.answer (I.known infos.now) (spec.members_of (spec.declared (W.owned_by table.now) (W.flags_of table.now)) ty.now))) }
{
    asked(members(alloc, ty, table, infos))
}
