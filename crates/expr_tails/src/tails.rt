//! The operand that ends at a tail.

ghost use Rattle.std.specs.Prelude.{◌≡◌, ◌++◌, IfOk};
ghost use Rattle.parse_parts.specs.Built.{no_kids};
ghost use Rattle.expr_tails.specs.Tails as spec;

use crate::items::{Built, BuiltKids};
use crate::states::{Begun, Call, Element, Form, Group, LambdaParam, NewOf, Tail, TypedOf};
use crate::types::{before_dot, is_type, is_type_and_dot, type_of};
use parse_parts::built::{Kids, Tall, joined, no_kids, node, only};
use parse_parts::states::State as TypeState;
use parse_parts::steps::{alone, no_label, tail_end};
use parse_patterns::states::Operand;
use pc_terms::{NoMemory, Row, Span, Text, TreeKind};
use positioned_trees::Name;
use std::alloc::Global;
use tree_lower::{appended, bound, leaf, pair, param, placeholder_ident, unlabelled};

/// An operand, with the placeholders so far.
#[derive(Debug, Drop)]
pub struct Ready {
    pub operand: Operand,
    pub free: Row<Span>,
}

/// The spans, and those after them.
pub fn with_spans(spans: Row<Span>, behind: Row<Span>) -> Result<Row<Span>, NoMemory>
    ensures { IfOk result (λ now. now ≡ spans ++ behind) }
{
    if spans.is_empty() {
        return Ok(behind);
    }
    let mut spans = spans;
    for span in behind.into_vec() {
        spans.push(span)?;
    }
    Ok(spans)
}

/// A name as a term.
pub fn ident(alloc: Global, name: Name) -> Operand
    ensures { result ≡ spec.ident name }
{
    let span = name.span;
    Operand {
        tall: leaf(alloc, TreeKind::Ident, name.text, span),
        span,
    }
}

/// A Prim and the `.` after it: a Select around a Hole.
pub fn select_hole(alloc: Global, receiver: Operand, end: u32) -> Result<Operand, NoMemory>
    ensures { IfOk result (λ now. now ≡ spec.select_hole receiver end) }
{
    let hole = Span { start: end, end };
    let span = Span {
        start: receiver.span.start,
        end,
    };
    let kid = leaf(alloc, TreeKind::Hole, no_label(alloc), hole);
    let kids = pair(alloc, receiver.tall, kid)?;
    Ok(Operand {
        tall: node(TreeKind::Select, no_label(alloc), hole, span, kids),
        span,
    })
}

fn param_kids(alloc: Global, ty: Option<Option<Tall>>) -> Result<Option<Kids>, NoMemory>
    ensures { IfOk result (λ now. now ≡ spec.param_kids ty) }
{
    match ty {
        None => Ok(no_kids(alloc)),
        Some(tall) => alone(alloc, tall),
    }
}

/// The parameter that an element is where `=>` follows.
pub fn element_param(alloc: Global, element: Element) -> Result<Option<Tall>, NoMemory>
    ensures { IfOk result (λ now. now ≡ spec.element_param element) }
{
    match element {
        Element::Param(
            LambdaParam {
                name,
                binds,
                span,
                ty,
            },
        ) => Ok(param(name, binds, span, param_kids(alloc, ty)?)),
        Element::Plain(..) => Ok(None),
    }
}

// `x: T`
fn typed(alloc: Global, of: Operand, end: u32, ty: Option<Tall>) -> Result<Operand, NoMemory>
    ensures { IfOk result (λ now. now ≡ spec.typed of end ty) }
{
    let span = Span {
        start: of.span.start,
        end,
    };
    let kids = pair(alloc, of.tall, ty)?;
    Ok(Operand {
        tall: unlabelled(alloc, TreeKind::Typed, span, kids),
        span,
    })
}

fn name_of_param(alloc: Global, name: Name, binds: bool) -> Result<Ready, NoMemory>
    ensures { IfOk result (λ now. now ≡ spec.name_of_param name binds) }
{
    if binds {
        Ok(Ready {
            operand: ident(alloc, name),
            free: Row::new(alloc),
        })
    } else {
        wild_at(alloc, name.span, Row::new(alloc))
    }
}

fn typed_param(
    alloc: Global,
    of: Ready,
    span: Span,
    ty: Option<Option<Tall>>,
) -> Result<Built, NoMemory>
    ensures { IfOk result (λ now. now ≡ spec.typed_param of span ty) }
{
    let Ready { operand, free } = of;
    match ty {
        None => Ok(Built {
            tall: operand.tall,
            free,
        }),
        Some(ty) => {
            let typed = typed(alloc, operand, span.end, ty)?;
            Ok(Built {
                tall: bound(alloc, free, span, typed.tall)?,
                free: Row::new(alloc),
            })
        }
    }
}

// The expression that an element is where no `=>` follows.
fn element_expr(alloc: Global, element: Element) -> Result<Built, NoMemory>
    ensures { IfOk result (λ now. now ≡ spec.element_expr element) }
{
    match element {
        Element::Plain(tall, free) => Ok(Built { tall, free }),
        Element::Param(
            LambdaParam {
                name,
                binds,
                span,
                ty,
            },
        ) => {
            let of = name_of_param(alloc, name, binds)?;
            typed_param(alloc, of, span, ty)
        }
    }
}

fn with_element(alloc: Global, so_far: BuiltKids, element: Element) -> Result<BuiltKids, NoMemory>
    ensures { IfOk result (λ now. now ≡ spec.with_element so_far element) }
{
    let BuiltKids { kids, free } = so_far;
    let Built { tall, free: left } = element_expr(alloc, element)?;
    Ok(BuiltKids {
        kids: joined(kids, tall)?,
        free: with_spans(free, left)?,
    })
}

#[tactic(auto, using(crate::proofs::Listing::one_more))]
fn with_elements(
    alloc: Global,
    free: Row<Span>,
    elements: Row<Element>,
) -> Result<BuiltKids, NoMemory>
    ensures { IfOk result (λ now. now ≡ spec.with_elements (record { kids = no_kids; free = free }) elements) }
{
    let mut so_far = BuiltKids {
        kids: no_kids(alloc),
        free,
    };
    for element in elements.into_vec() {
        so_far = with_element(alloc, so_far, element)?;
    }
    Ok(so_far)
}

fn group_tree(
    alloc: Global,
    span: Span,
    count: usize,
    kids: Option<Kids>,
) -> Result<Option<Tall>, NoMemory>
    ensures { IfOk result (λ now. now ≡ spec.group_tree span count kids) }
{
    if count == 0 {
        let label = Text::new(alloc, "()")?;
        return Ok(leaf(alloc, TreeKind::Literal, label, span));
    }
    if count == 1 {
        return Ok(only(kids));
    }
    Ok(unlabelled(alloc, TreeKind::Tuple, span, kids))
}

fn group_at(alloc: Global, group: Group, free: Row<Span>) -> Result<Ready, NoMemory>
    ensures { IfOk result (λ now. now ≡ spec.group_at group free) }
{
    let span = group.span;
    let count = group.elements.len();
    let BuiltKids { kids, free } = with_elements(alloc, free, group.elements)?;
    Ok(Ready {
        operand: Operand {
            tall: group_tree(alloc, span, count, kids)?,
            span,
        },
        free,
    })
}

fn call_at(alloc: Global, call: Call) -> Result<Operand, NoMemory>
    ensures { IfOk result (λ now. now ≡ spec.call_at call) }
{
    let kids = appended(alone(alloc, call.receiver)?, call.args)?;
    Ok(Operand {
        tall: unlabelled(alloc, TreeKind::Apply, call.span, kids),
        span: call.span,
    })
}

/// `new T` without arguments.
pub fn new_at(alloc: Global, new: NewOf) -> Operand
    ensures { result ≡ spec.new_at new }
{
    Operand {
        tall: unlabelled(alloc, TreeKind::New, new.span, new.kids),
        span: new.span,
    }
}

/// `new` and a type that is whole, or that is whole before its last `.`.
pub fn new_with_type(alloc: Global, start: u32, ty: TypeState) -> Result<NewOf, NoMemory>
    ensures { IfOk result (λ now. now ≡ spec.new_with_type start ty) }
{
    let ty = before_dot(ty);
    let span = Span {
        start,
        end: tail_end(&ty.tail),
    };
    let kids = alone(alloc, type_of(alloc, ty)?)?;
    Ok(NewOf { span, kids })
}

fn in_new_at(alloc: Global, start: u32, end: u32, ty: TypeState) -> Result<Operand, NoMemory>
    ensures { IfOk result (λ now. now ≡ spec.in_new_at start end ty) }
{
    let ends_in_dot = is_type_and_dot(&ty);
    let new = new_at(alloc, new_with_type(alloc, start, ty)?);
    if ends_in_dot {
        select_hole(alloc, new, end)
    } else {
        Ok(new)
    }
}

fn typed_of(alloc: Global, of: TypedOf, free: Row<Span>) -> Result<Ready, NoMemory>
    ensures { IfOk result (λ now. now ≡ spec.typed_of_at of free) }
{
    match of {
        TypedOf::Name(name) => Ok(Ready {
            operand: ident(alloc, name),
            free,
        }),
        TypedOf::Wild(span) => wild_at(alloc, span, free),
        TypedOf::Infix(operand) => Ok(Ready { operand, free }),
    }
}

fn typed_at(alloc: Global, of: TypedOf, ty: TypeState, free: Row<Span>) -> Result<Ready, NoMemory>
    ensures { IfOk result (λ now. now ≡ spec.typed_at of ty free) }
{
    let end = tail_end(&ty.tail);
    let ty = type_of(alloc, ty)?;
    let Ready { operand, free } = typed_of(alloc, of, free)?;
    Ok(Ready {
        operand: typed(alloc, operand, end, ty)?,
        free,
    })
}

fn wild_at(alloc: Global, span: Span, free: Row<Span>) -> Result<Ready, NoMemory>
    ensures { IfOk result (λ now. now ≡ spec.wild_at span free) }
{
    let mut free = free;
    free.push(span)?;
    Ok(Ready {
        operand: Operand {
            tall: placeholder_ident(alloc, span)?,
            span,
        },
        free,
    })
}

fn caught_at(alloc: Global, begun: Begun, end: u32) -> Operand
    ensures { result ≡ spec.caught_at begun end }
{
    let span = Span {
        start: begun.start,
        end,
    };
    Operand {
        tall: unlabelled(alloc, TreeKind::Try, span, begun.kids),
        span,
    }
}

fn return_at(alloc: Global, span: Span) -> Operand
    ensures { result ≡ spec.return_at span }
{
    Operand {
        tall: leaf(alloc, TreeKind::Return, no_label(alloc), span),
        span,
    }
}

fn no_operand() -> Operand
    ensures { result ≡ spec.no_operand }
{
    Operand {
        tall: None,
        span: Span { start: 0, end: 0 },
    }
}

fn with_free(operand: Operand, free: Row<Span>) -> Ready
    ensures { result ≡ spec.ready operand free }
{
    Ready { operand, free }
}

/// The operand that ends at a tail, with the placeholders before it and in it.
#[tactic(auto, unfolding(crate::specs::Tails::operand_at))]
pub fn operand_at(alloc: Global, tail: Tail, free: Row<Span>) -> Result<Ready, NoMemory>
    ensures { IfOk result (λ now. now ≡ spec.operand_at tail free) }
{
    match tail {
        Tail::AtSign(name) => Ok(with_free(ident(alloc, name), free)),
        Tail::AtName(name, _) => Ok(with_free(ident(alloc, name), free)),
        Tail::AtWild(span) => wild_at(alloc, span, free),
        Tail::AtGroup(group) => group_at(alloc, group, free),
        Tail::InTyped(of, ty) => typed_at(alloc, of, ty, free),
        Tail::AtPrim(operand, _) => Ok(with_free(operand, free)),
        Tail::AtEnded(operand) => Ok(with_free(operand, free)),
        Tail::AtSemi(operand, _) => Ok(with_free(operand, free)),
        Tail::AtCall(call) => Ok(with_free(call_at(alloc, call)?, free)),
        Tail::AtDot(operand, point) => Ok(with_free(select_hole(alloc, operand, point.end)?, free)),
        Tail::InNew(start, end, ty) => Ok(with_free(in_new_at(alloc, start, end, ty)?, free)),
        Tail::AtNew(new) => Ok(with_free(new_at(alloc, new), free)),
        Tail::AtReturn(span) => Ok(with_free(return_at(alloc, span), free)),
        Tail::AtCaught(begun, end) => Ok(with_free(caught_at(alloc, begun, end), free)),
        tail => {
            drop(tail);
            Ok(with_free(no_operand(), free))
        }
    }
}

/// Whether parentheses are a Prim.
pub fn may_be_prim(group: &Group) -> bool
    ensures { result ≡ spec.may_be_prim group.now }
{
    group.elements.len() <= 3
}

/// Whether an expression can end at the tail.
pub fn is_whole(tail: &Tail) -> bool
    ensures { result ≡ spec.is_whole tail.now }
{
    match tail {
        Tail::AtGroup(group) => may_be_prim(group),
        Tail::InTyped(_, ty) => is_type(ty),
        Tail::InNew(_, _, ty) => is_type(ty) || is_type_and_dot(ty),
        Tail::AtSign(_)
        | Tail::AtName(..)
        | Tail::AtWild(_)
        | Tail::AtPrim(..)
        | Tail::AtCall(_)
        | Tail::AtDot(..)
        | Tail::AtNew(_)
        | Tail::AtReturn(_)
        | Tail::AtCaught(..)
        | Tail::AtEnded(_) => true,
        _ => false,
    }
}

/// Whether an operator, `:` or `match` can follow what ends at the tail.
pub fn is_operand(tail: &Tail) -> bool
    ensures { result ≡ spec.is_operand tail.now }
{
    match tail {
        Tail::AtGroup(group) => may_be_prim(group),
        Tail::AtSign(_)
        | Tail::AtName(..)
        | Tail::AtWild(_)
        | Tail::AtPrim(..)
        | Tail::AtCall(_)
        | Tail::AtNew(_) => true,
        _ => false,
    }
}

/// Whether an identifier after the operand is an operator: it is the name of no Hole, and the operand of no prefix
/// operator.
pub fn is_before_operator(tail: &Tail) -> bool
    ensures { result ≡ spec.is_before_operator tail.now }
{
    match tail {
        Tail::AtSign(_) => false,
        Tail::AtName(_, is_sign) => !*is_sign,
        Tail::AtPrim(_, form) => !matches!(form, Form::Hole),
        _ => is_operand(tail),
    }
}
