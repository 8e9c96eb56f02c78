//! Where an expression ends: what was read of it, with the heads around it.

ghost use Rattle.std.specs.Prelude.{◌≡◌, IfOk};
ghost use Rattle.expr_tails.specs.Ending as spec;

use crate::operators::settled;
use crate::states::{Context, Head, HeadKind, Limit, Tail};
use crate::tails::{Ready, is_whole, operand_at, with_spans};
use parse_parts::built::{Kids, Tall, joined};
use parse_parts::stack::Stack;
use parse_parts::steps::alone;
use parse_patterns::states::{Operand, Operation};
use pc_terms::{NoMemory, Row, Span, TreeKind};
use positioned_trees::Name;
use std::alloc::Global;
use tree_lower::{bound, comprehension, prefixed, unlabelled, updated};

/// A context in which nothing was read.
pub fn fresh(alloc: Global, limit: Limit) -> Context
    ensures { result ≡ spec.fresh limit }
{
    Context {
        heads: Stack::new(alloc),
        free: Row::new(alloc),
        operations: Stack::new(alloc),
        sign: None,
        tail: Tail::Begin,
        limit,
    }
}

/// The context with this tail.
#[inline(always)]
pub fn at_tail(context: Context, tail: Tail) -> Context
    ensures { result ≡ spec.at_tail context tail }
{
    let Context {
        heads,
        free,
        operations,
        sign,
        tail: before,
        limit,
    } = context;
    drop(before);
    Context {
        heads,
        free,
        operations,
        sign,
        tail,
        limit,
    }
}

/// Whether the operand that is read is the first of its chain.
pub fn is_first(context: &Context) -> bool
    ensures { result ≡ spec.is_first context.now }
{
    context.operations.is_empty() && context.sign.is_none()
}

/// Whether any expression can stand here.
pub fn is_expr_limit(limit: Limit) -> bool
    ensures { result ≡ spec.is_expr_limit limit }
{
    matches!(limit, Limit::Expr)
}

/// Whether a head can stand where the operand is read.
pub fn may_head(context: &Context) -> bool
    ensures { result ≡ spec.may_head context.now }
{
    is_first(context) && is_expr_limit(context.limit)
}

/// Whether a `do` waits for its `while`.
pub fn waits(context: &Context) -> bool
    ensures { result ≡ spec.waits_in context.now.heads }
{
    match context.heads.top() {
        Some(head) => head.reach.waits,
        None => false,
    }
}

/// Whether what was read is an expression.
pub fn is_expr(context: &Context) -> bool
    ensures { result ≡ spec.is_expr context.now }
{
    is_whole(&context.tail) && !waits(context)
}

fn signed(alloc: Global, sign: Option<Name>, operand: Operand) -> Result<Operand, NoMemory>
    ensures { IfOk result (λ now. now ≡ spec.signed sign operand) }
{
    match sign {
        None => Ok(operand),
        Some(name) => prefixed(alloc, name, operand),
    }
}

/// The operand that ends at a tail, with its prefix operator.
pub fn signed_at(
    alloc: Global,
    sign: Option<Name>,
    tail: Tail,
    free: Row<Span>,
) -> Result<Ready, NoMemory>
    ensures { IfOk result (λ now. now ≡ spec.signed_at sign tail free) }
{
    let Ready { operand, free } = operand_at(alloc, tail, free)?;
    Ok(Ready {
        operand: signed(alloc, sign, operand)?,
        free,
    })
}

/// The operands and operators that end at a tail, as one.
pub fn chain_at(
    alloc: Global,
    operations: Stack<Operation>,
    sign: Option<Name>,
    tail: Tail,
    free: Row<Span>,
) -> Result<Ready, NoMemory>
    ensures { IfOk result (λ now. now ≡ spec.chain_at operations sign tail free) }
{
    let Ready { operand, free } = signed_at(alloc, sign, tail, free)?;
    Ok(Ready {
        operand: settled(alloc, operations, operand)?,
        free,
    })
}

fn bound_at(alloc: Global, ready: Ready) -> Result<Ready, NoMemory>
    ensures { IfOk result (λ now. now ≡ spec.bound_at ready) }
{
    let span = ready.operand.span;
    Ok(Ready {
        operand: Operand {
            tall: bound(alloc, ready.free, span, ready.operand.tall)?,
            span,
        },
        free: Row::new(alloc),
    })
}

/// Whether what was read is an expression and a `;` after it.
pub fn is_semi(tail: &Tail) -> bool
    ensures { result ≡ spec.is_semi tail.now }
{
    matches!(tail, Tail::AtSemi(..))
}

fn is_wild(tail: &Tail) -> bool
    ensures { result ≡ spec.is_wild tail.now }
{
    matches!(tail, Tail::AtWild(_))
}

// A placeholder alone is bound further out; what stands before a `;` is bound already.
fn stays_free(operations: &Stack<Operation>, sign: &Option<Name>, tail: &Tail) -> bool
    ensures { result ≡ spec.stays_free operations.now sign.now tail.now }
{
    is_semi(tail) || (is_wild(tail) && operations.is_empty() && sign.is_none())
}

/// The innermost expression that ends here, and the placeholder that it is, if it is one alone.
pub fn innermost(
    alloc: Global,
    operations: Stack<Operation>,
    sign: Option<Name>,
    tail: Tail,
    free: Row<Span>,
) -> Result<Ready, NoMemory>
    ensures { IfOk result (λ now. now ≡ spec.innermost operations sign tail free) }
{
    let is_free = stays_free(&operations, &sign, &tail);
    let ready = chain_at(alloc, operations, sign, tail, free)?;
    if is_free {
        Ok(ready)
    } else {
        bound_at(alloc, ready)
    }
}

fn over(
    alloc: Global,
    kind: TreeKind,
    span: Span,
    kids: Option<Kids>,
    tall: Option<Tall>,
) -> Result<Option<Tall>, NoMemory>
    ensures { IfOk result (λ now. now ≡ spec.over kind span kids tall) }
{
    Ok(unlabelled(alloc, kind, span, joined(kids, tall)?))
}

fn over_one(
    alloc: Global,
    kind: TreeKind,
    span: Span,
    tall: Option<Tall>,
) -> Result<Option<Tall>, NoMemory>
    ensures { IfOk result (λ now. now ≡ spec.over_one kind span tall) }
{
    Ok(unlabelled(alloc, kind, span, alone(alloc, tall)?))
}

fn tree_over(
    alloc: Global,
    kind: HeadKind,
    span: Span,
    tall: Option<Tall>,
) -> Result<Option<Tall>, NoMemory>
    ensures { IfOk result (λ now. now ≡ spec.tree_over kind span tall) }
{
    match kind {
        HeadKind::For(generators, yields) => comprehension(alloc, yields, span, generators, tall),
        HeadKind::Update(receiver, args) => updated(alloc, span, receiver, args, tall),
        HeadKind::Lambda(params) => over(alloc, TreeKind::Function, span, params, tall),
        HeadKind::IfThen(kids) => over(alloc, TreeKind::If, span, kids, tall),
        HeadKind::IfElse(kids) => over(alloc, TreeKind::If, span, kids, tall),
        HeadKind::WhileDo(kids) => over(alloc, TreeKind::While, span, kids, tall),
        HeadKind::Finally(kids) => over(alloc, TreeKind::Try, span, kids, tall),
        HeadKind::Assign(left) => over(alloc, TreeKind::Assign, span, left, tall),
        HeadKind::Do => over(alloc, TreeKind::DoWhile, span, None, tall),
        HeadKind::Try => over_one(alloc, TreeKind::Try, span, tall),
        HeadKind::Throw => over_one(alloc, TreeKind::Throw, span, tall),
        HeadKind::Return => over_one(alloc, TreeKind::Return, span, tall),
    }
}

/// The expression of a head and what follows it.
pub fn headed(alloc: Global, head: Head, body: Ready) -> Result<Ready, NoMemory>
    ensures { IfOk result (λ now. now ≡ spec.headed head body) }
{
    let span = Span {
        start: head.start,
        end: body.operand.span.end,
    };
    let tall = tree_over(alloc, head.kind, span, body.operand.tall)?;
    bound_at(
        alloc,
        Ready {
            operand: Operand { tall, span },
            free: with_spans(head.free, body.free)?,
        },
    )
}

/// The expression that ends here, with all heads around it.
#[tactic(auto, unfolding(crate::specs::Ending::expr_at))]
pub fn expr_at(alloc: Global, context: Context) -> Result<Ready, NoMemory>
    ensures { IfOk result (λ now. now ≡ spec.expr_at context) }
{
    let Context {
        mut heads,
        free,
        operations,
        sign,
        tail,
        limit: _,
    } = context;
    let mut ready = innermost(alloc, operations, sign, tail, free)?;
    while let Some(head) = heads.pop() {
        ready = headed(alloc, head, ready)?;
    }
    Ok(ready)
}
