//! How what a class defines is seen from a type.

ghost use Rattle.std.specs.Prelude.{◌≡◌, IfOk, MatchResult};
ghost use Rattle.item_questions.specs.Questions.{Known};
ghost use Rattle.item_answers.specs.Asking as asking;
ghost use Rattle.type_members.specs.Members as spec;
ghost use Rattle.type_members.specs.declared.members.Member.{Member};

use crate::Member;
use base_classes::{based, paths_of};
use item_answers::{Stopped, signature_of};
use pc_terms::{Infos, NoMemory, Row, Sig, SymPath, Ty};
use sqlite_items::Boxed;
use std::alloc::Global;
use type_substitution::{copy_path, copy_type, subst};

/// Types in the places of type parameters.
#[derive(Debug, Drop)]
pub struct View {
    pub params: Row<SymPath>,
    pub args: Row<Ty>,
}

/// As it is written.
pub fn plain_view(alloc: Global) -> View
    ensures { result ≡ spec.plain_view }
{
    View {
        params: Row::new(alloc),
        args: Row::new(alloc),
    }
}

fn with_arguments<I: Infos>(
    alloc: Global,
    class: &SymPath,
    args: Row<Ty>,
    infos: &I,
) -> Result<View, Stopped>
    ensures { MatchResult result
        (λ view. asking.answer (I.known infos.now) (spec.with_arguments class.now args) ≡ Known view)
        (λ why. asking.Stops why (asking.answer (I.known infos.now) (spec.with_arguments class.now args))) }
{
    if args.is_empty() {
        return Ok(plain_view(alloc));
    }
    let signature = signature_of(alloc, class, infos)?;
    let params = paths_of(alloc, signature.tparams.as_slice())?;
    Ok(View { params, args })
}

// The arguments of a base type.
fn args_at(alloc: Global, base: Option<Ty>) -> Row<Ty>
    ensures { result ≡ spec.args_at base }
{
    match base {
        Some(Ty::Class(_, args)) => args,
        Some(Ty::Param(_))
        | Some(Ty::Module(_))
        | Some(Ty::Package(_))
        | Some(Ty::Method(_, _))
        | Some(Ty::Poly(_, _))
        | Some(Ty::Error)
        | None => Row::new(alloc),
    }
}

/// How what this class defines is seen from a type: with the arguments of its base type there.
pub fn seen_from<I: Infos>(
    alloc: Global,
    ty: &Ty,
    class: &SymPath,
    infos: &I,
) -> Result<View, Stopped>
    ensures { MatchResult result
        (λ view. asking.answer (I.known infos.now) (spec.seen_from ty.now class.now) ≡ Known view)
        (λ why. asking.Stops why (asking.answer (I.known infos.now) (spec.seen_from ty.now class.now))) }
{
    let base = based(alloc, ty, class, infos)?;
    with_arguments(alloc, class, args_at(alloc, base), infos)
}

// The type of a definition: that of its signature, with its type parameters.
fn type_of(alloc: Global, signature: &Sig) -> Result<Ty, NoMemory>
    ensures { IfOk result (λ ty. ty ≡ spec.type_of signature.now) }
{
    let ty = copy_type(alloc, &signature.ty)?;
    if signature.tparams.is_empty() {
        return Ok(ty);
    }
    let params = paths_of(alloc, signature.tparams.as_slice())?;
    Ok(Ty::Poly(params, Boxed::new(alloc, ty)?))
}

/// A member that this class or package defines.
pub fn member_of<I: Infos>(
    alloc: Global,
    owner: &SymPath,
    view: &View,
    path: &SymPath,
    infos: &I,
) -> Result<Member, Stopped>
    ensures { MatchResult result
        (λ member. asking.answer (I.known infos.now) (spec.member_of owner.now view.now path.now) ≡ Known member)
        (λ why. asking.Stops why (asking.answer (I.known infos.now) (spec.member_of owner.now view.now path.now))) }
{
    let ty = type_of(alloc, signature_of(alloc, path, infos)?)?;
    Ok(Member {
        path: copy_path(alloc, path)?,
        ty: subst(alloc, &ty, &view.params, &view.args)?,
        owner: copy_path(alloc, owner)?,
    })
}
