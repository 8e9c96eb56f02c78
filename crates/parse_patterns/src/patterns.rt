//! The patterns that were read.

ghost use Rattle.std.specs.Prelude.{◌≡◌, [], IfOk};
ghost use Rattle.pc_terms.specs.declared.problems.Span.{Span};
ghost use Rattle.parse_parts.specs.Built.{no_kids as no_trees};
ghost use Rattle.parse_patterns.specs.Steps as spec;

use crate::operators::settled;
use crate::states::{Current, Earlier, Infix, Lead, Operand, State, Tail};
use parse_parts::built::{Tall, joined, no_kids, node};
use parse_parts::states::{Path, State as TypeState};
use parse_parts::steps::{alone, no_label, tail_end, tail_tree};
use pc_terms::{NoMemory, Span, Text, TreeKind};
use positioned_trees::Name;
use std::alloc::Global;

/// A literal.
pub fn leaf(alloc: Global, text: Text, span: Span) -> Operand
    ensures { result ≡ spec.leaf text span }
{
    Operand {
        tall: node(TreeKind::LitPat, text, span, span, no_kids(alloc)),
        span,
    }
}

fn wild(alloc: Global, span: Span) -> Operand
    ensures { result ≡ spec.wild span }
{
    Operand {
        tall: node(TreeKind::Wild, no_label(alloc), span, span, no_kids(alloc)),
        span,
    }
}

fn path_pattern(path: Path, lead: Lead) -> Operand
    ensures { result ≡ spec.path_pattern path lead }
{
    let kind = match lead {
        Lead::Var => TreeKind::Bind,
        Lead::Minus | Lead::Plain => TreeKind::StablePat,
    };
    let span = Span {
        start: path.start,
        end: path.name.span.end,
    };
    Operand {
        tall: node(kind, path.name.text, path.name.span, span, path.prefix),
        span,
    }
}

/// The operand that ends at a tail.
pub fn operand_at(alloc: Global, tail: Tail) -> Operand
    ensures { result ≡ spec.operand_at tail }
{
    match tail {
        Tail::AtWild(span) => wild(alloc, span),
        Tail::AtPath(path, lead) => path_pattern(path, lead),
        Tail::AtEnded(operand) => operand,
        Tail::Begin | Tail::AtDot(_) => Operand {
            tall: None,
            span: Span { start: 0, end: 0 },
        },
    }
}

fn bound(alloc: Global, binder: Option<Name>, operand: Operand) -> Result<Operand, NoMemory>
    ensures { IfOk result (λ now. now ≡ spec.bound binder operand) }
{
    let Some(name) = binder else {
        return Ok(operand)
    };
    let span = Span {
        start: name.span.start,
        end: operand.span.end,
    };
    let kids = alone(alloc, operand.tall)?;
    Ok(Operand {
        tall: node(TreeKind::Bind, name.text, name.span, span, kids),
        span,
    })
}

/// `x: T`.
pub fn typed(alloc: Global, name: Name, ty: TypeState) -> Result<Operand, NoMemory>
    ensures { IfOk result (λ now. now ≡ spec.typed name ty) }
{
    let span = Span {
        start: name.span.start,
        end: tail_end(&ty.tail),
    };
    let kids = alone(alloc, tail_tree(alloc, ty.tail))?;
    Ok(Operand {
        tall: node(TreeKind::TypedPat, name.text, name.span, span, kids),
        span,
    })
}

/// What the operands and operators make.
pub fn infix_at(alloc: Global, chain: Infix) -> Result<Operand, NoMemory>
    ensures { IfOk result (λ now. now ≡ spec.infix_at chain) }
{
    let last = operand_at(alloc, chain.tail);
    bound(alloc, chain.binder, settled(alloc, chain.operations, last)?)
}

fn alternative_at(alloc: Global, current: Current) -> Result<Operand, NoMemory>
    ensures { IfOk result (λ now. now ≡ spec.alternative_at current) }
{
    match current {
        Current::InType(name, ty) => typed(alloc, name, ty),
        Current::InInfix(chain) => infix_at(alloc, chain),
    }
}

/// The alternatives with this one as the last.
pub fn with_earlier(
    alloc: Global,
    earlier: Option<Earlier>,
    operand: Operand,
) -> Result<Option<Tall>, NoMemory>
    ensures { IfOk result (λ tall. tall ≡ spec.with_earlier earlier operand) }
{
    let Some(earlier) = earlier else {
        return Ok(operand.tall)
    };
    let span = Span {
        start: earlier.start,
        end: operand.span.end,
    };
    let kids = joined(earlier.kids, operand.tall)?;
    Ok(node(TreeKind::AltPat, no_label(alloc), span, span, kids))
}

/// The alternatives with this one, where more follow.
pub fn then_later(
    alloc: Global,
    earlier: Option<Earlier>,
    operand: Operand,
) -> Result<Earlier, NoMemory>
    ensures { IfOk result (λ later. later ≡ spec.then_later earlier operand) }
{
    match earlier {
        None => Ok(Earlier {
            start: operand.span.start,
            kids: alone(alloc, operand.tall)?,
        }),
        Some(earlier) => Ok(Earlier {
            start: earlier.start,
            kids: joined(earlier.kids, operand.tall)?,
        }),
    }
}

/// The pattern that ends where the reader stands.
pub fn pattern_at(alloc: Global, state: State) -> Result<Option<Tall>, NoMemory>
    ensures { IfOk result (λ tall. tall ≡ spec.pattern_at state) }
{
    let operand = alternative_at(alloc, state.current)?;
    with_earlier(alloc, state.earlier, operand)
}
