//! Placeholders, and the parameters of functions.

ghost use Rattle.std.specs.Prelude.{◌≡◌, IfOk};
ghost use Rattle.parse_parts.specs.Built.{no_kids as nothing_built};
ghost use Rattle.source_grammar.specs.Placeholders as grammar;
ghost use Rattle.tree_lower.specs.Lowering as spec;

use crate::trees::{added, detailed, leaf, unlabelled};
use parse_parts::built::{Kids, Tall, joined, no_kids, node};
use pc_terms::{NoMemory, Row, Span, Text, TreeKind};
use positioned_trees::{Access, Detail, Modifiers, Name, ParamKeyword, ParamParts};
use std::alloc::Global;

pub fn no_modifiers() -> Modifiers
    ensures { result ≡ grammar.no_modifiers }
{
    Modifiers {
        abstract_: false,
        final_: false,
        sealed_: false,
        case_: false,
        override_: false,
        access: Access::Public,
    }
}

/// The detail of a parameter of a lambda.
pub fn lambda_param(binds: bool) -> Detail
    ensures { result ≡ grammar.lambda_param binds }
{
    Detail::Param(ParamParts {
        modifiers: no_modifiers(),
        keyword: ParamKeyword::Missing,
        binds,
        repeated: false,
    })
}

/// A parameter of a lambda, with its type where it has one.
pub fn param(name: Name, binds: bool, span: Span, kids: Option<Kids>) -> Option<Tall>
    ensures { result ≡ spec.param name binds span kids }
{
    let tall = node(TreeKind::Param, name.text, name.span, span, kids);
    detailed(tall, lambda_param(binds))
}

/// The Ident of a placeholder.
pub fn placeholder_ident(alloc: Global, span: Span) -> Result<Option<Tall>, NoMemory>
    ensures { IfOk result (λ tall. tall ≡ spec.placeholder_ident span) }
{
    let tall = leaf(alloc, TreeKind::Ident, Text::new(alloc, "_")?, span);
    Ok(detailed(tall, Detail::Placeholder))
}

fn placeholder_param(alloc: Global, span: Span) -> Result<Option<Tall>, NoMemory>
    ensures { IfOk result (λ tall. tall ≡ spec.placeholder_param span) }
{
    let tall = leaf(alloc, TreeKind::Param, Text::new(alloc, "_")?, span);
    Ok(added(detailed(tall, lambda_param(false))))
}

#[tactic(auto, using(crate::proofs::Params::one_more))]
fn placeholder_params(alloc: Global, places: Row<Span>) -> Result<Option<Kids>, NoMemory>
    ensures { IfOk result (λ kids. kids ≡ spec.with_params nothing_built places) }
{
    let mut kids = no_kids(alloc);
    for place in places.into_vec() {
        kids = joined(kids, placeholder_param(alloc, place)?)?;
    }
    Ok(kids)
}

fn bound_by(
    alloc: Global,
    places: Row<Span>,
    span: Span,
    tall: Option<Tall>,
) -> Result<Option<Tall>, NoMemory>
    ensures { IfOk result (λ now. now ≡ spec.bound_by places span tall) }
{
    let kids = joined(placeholder_params(alloc, places)?, tall)?;
    Ok(unlabelled(alloc, TreeKind::Function, span, kids))
}

/// The function of these placeholders over the tree, which spans this; the tree itself where there are none.
pub fn bound(
    alloc: Global,
    free: Row<Span>,
    span: Span,
    tall: Option<Tall>,
) -> Result<Option<Tall>, NoMemory>
    ensures { IfOk result (λ now. now ≡ spec.bound free span tall) }
{
    if free.is_empty() {
        Ok(tall)
    } else {
        bound_by(alloc, free, span, tall)
    }
}
