//! Brackets: opened, with one element more, and closed.

ghost use Rattle.std.specs.Prelude.{◌≡◌, IfOk};
ghost use Rattle.source_grammar.specs.Newlines.{is_near as near};
ghost use Rattle.parse_patterns.specs.Steps.{is_no as no_newline};
ghost use Rattle.expr_frames.specs.Frames as spec;

use crate::beside;
use crate::generators::{Finished, finish, next_pattern, nothing_yet, with_free};
use crate::heads::with_head;
use expr_tails::ending::{at_tail, expr_at, fresh, is_expr, is_first, may_head};
use expr_tails::states::{
    Asker, Bracket, Call, Context, Element, Form, Frame, Group, HeadKind, LambdaParam, Limit,
    State, Tail, TypedOf,
};
use expr_tails::tails::{Ready, may_be_prim, operand_at};
use expr_tails::types::type_of;
use parse_parts::built::{Kids, joined, no_kids};
use parse_parts::stack::Stack;
use parse_parts::states::State as TypeState;
use parse_parts::steps::tail_end;
use parse_patterns::states::Operand;
use pc_terms::{NoMemory, Row, Span, Text, TreeKind};
use positioned_trees::Name;
use scan_tokens::Newline;
use std::alloc::Global;
use tree_lower::unlabelled;

// ---- opening

fn inner_context(alloc: Global, bracket: &Bracket) -> Context
    ensures { result ≡ spec.inner_context bracket.now }
{
    match bracket {
        Bracket::Generators(..) => next_pattern(alloc),
        _ => fresh(alloc, Limit::Expr),
    }
}

fn opened(
    alloc: Global,
    frames: Stack<Frame>,
    bracket: Bracket,
    start: u32,
    outer: Context,
) -> Result<State, NoMemory>
    ensures { IfOk result (λ now. now ≡ spec.opened frames bracket start outer) }
{
    let mut frames = frames;
    let context = inner_context(alloc, &bracket);
    let frame = Frame {
        bracket,
        start,
        outer,
    };
    beside!(context; frames.push(frame));
    Ok(State { frames, context })
}

fn asked(alloc: Global, asker: Asker) -> Bracket
    ensures { result ≡ spec.asked asker }
{
    match asker {
        Asker::If => Bracket::IfTest,
        Asker::While => Bracket::WhileTest,
        Asker::For => Bracket::Generators(Row::new(alloc), nothing_yet(alloc)),
    }
}

/// Whether the limit is that of a parameter.
pub fn is_param_limit(limit: Limit) -> bool
    ensures { result ≡ spec.is_param_limit limit }
{
    matches!(limit, Limit::Param)
}

fn is_receiver(tail: &Tail) -> bool
    ensures { result ≡ spec.is_receiver tail.now }
{
    match tail {
        Tail::AtGroup(group) => may_be_prim(group),
        Tail::AtName(_, is_sign) => !*is_sign,
        Tail::AtWild(_) | Tail::AtPrim(..) | Tail::AtCall(_) => true,
        _ => false,
    }
}

/// Whether Args can follow the Prim.
pub fn takes_args(context: &Context) -> bool
    ensures { result ≡ spec.takes_args context.now }
{
    is_receiver(&context.tail) && !is_param_limit(context.limit)
}

/// Whether nothing was read of an operand.
pub fn is_begin(tail: &Tail) -> bool
    ensures { result ≡ spec.is_begin tail.now }
{
    matches!(tail, Tail::Begin)
}

/// Whether no newline counts.
pub fn is_no(before: Newline) -> bool
    ensures { result ≡ no_newline before }
{
    matches!(before, Newline::No)
}

/// Whether at most one newline counts, and no empty line.
pub fn is_near(before: Newline) -> bool
    ensures { result ≡ near before }
{
    !matches!(before, Newline::Blank)
}

/// Whether an operand can begin here, after this newline.
pub fn may_stand(context: &Context, before: Newline) -> bool
    ensures { result ≡ spec.may_stand context.now before }
{
    is_begin(&context.tail)
        && !is_param_limit(context.limit)
        && (is_first(context) || context.sign.is_some() || is_near(before))
}

/// The operand that ends at the tail of a context, and the context without it.
#[derive(Debug, Drop)]
pub struct Left {
    pub operand: Operand,
    pub context: Context,
}

/// The context before its operand, which ends at its tail. Its prefix operator stays.
pub fn take_operand(alloc: Global, context: Context) -> Result<Left, NoMemory>
    ensures { IfOk result (λ now. now ≡ spec.left context) }
{
    let Context {
        heads,
        free,
        operations,
        sign,
        tail,
        limit,
    } = context;
    let Ready { operand, free } = operand_at(alloc, tail, free)?;
    Ok(Left {
        operand,
        context: Context {
            heads,
            free,
            operations,
            sign,
            tail: Tail::Begin,
            limit,
        },
    })
}

fn args_opened(alloc: Global, frames: Stack<Frame>, context: Context) -> Result<State, NoMemory>
    ensures { IfOk result (λ now. now ≡ spec.args_opened frames context) }
{
    let Left { operand, context } = take_operand(alloc, context)?;
    let start = operand.span.start;
    let bracket = Bracket::Args(operand.tall, no_kids(alloc), false);
    opened(alloc, frames, bracket, start, context)
}

/// What stands at the tail of a context, and the context with nothing there.
#[derive(Debug, Drop)]
pub struct Emptied {
    pub tail: Tail,
    pub context: Context,
}

/// Takes what stands at the tail of a context.
#[inline(always)]
pub fn take_tail(context: Context) -> Emptied
    ensures { result ≡ spec.emptied context }
{
    let Context {
        heads,
        free,
        operations,
        sign,
        tail,
        limit,
    } = context;
    Emptied {
        tail,
        context: Context {
            heads,
            free,
            operations,
            sign,
            tail: Tail::Begin,
            limit,
        },
    }
}

// Where something waits for the parenthesis.
fn waiting_opened(
    alloc: Global,
    frames: Stack<Frame>,
    context: Context,
    joined: bool,
) -> Result<Option<State>, NoMemory>
    ensures { IfOk result (λ now. now ≡ spec.waiting_opened frames context context.tail joined) }
{
    let Emptied { tail, context } = take_tail(context);
    match tail {
        Tail::AtAsker(asker, start) => {
            let bracket = asked(alloc, asker);
            Ok(Some(opened(alloc, frames, bracket, start, context)?))
        }
        Tail::AtUntil(begun) => {
            let bracket = Bracket::DoTest(begun.kids);
            Ok(Some(opened(alloc, frames, bracket, begun.start, context)?))
        }
        Tail::AtNew(new) => {
            if !joined {
                drop(context);
                return Ok(None);
            }
            let bracket = Bracket::NewArgs(new.kids, false);
            Ok(Some(opened(alloc, frames, bracket, new.span.start, context)?))
        }
        tail => {
            drop(tail);
            drop(context);
            Ok(None)
        }
    }
}

/// The state after `(`.
pub fn round_opened(
    alloc: Global,
    frames: Stack<Frame>,
    context: Context,
    start: u32,
    before: Newline,
) -> Result<Option<State>, NoMemory>
    ensures { IfOk result (λ now. now ≡ spec.round_opened frames context start before) }
{
    if takes_args(&context) {
        if is_no(before) {
            Ok(Some(args_opened(alloc, frames, context)?))
        } else {
            drop(context);
            Ok(None)
        }
    } else if may_stand(&context, before) {
        let bracket = Bracket::Group(Row::new(alloc), may_head(&context));
        Ok(Some(opened(alloc, frames, bracket, start, context)?))
    } else {
        waiting_opened(alloc, frames, context, is_no(before))
    }
}

// ---- elements

fn is_typed_param(of: &TypedOf) -> bool
    ensures { result ≡ spec.is_typed_param of.now }
{
    !matches!(of, TypedOf::Infix(_))
}

fn is_param_tail(tail: &Tail) -> bool
    ensures { result ≡ spec.is_param_tail tail.now }
{
    match tail {
        Tail::AtName(..) | Tail::AtWild(_) => true,
        Tail::InTyped(of, _) => is_typed_param(of),
        _ => false,
    }
}

fn is_param(context: &Context) -> bool
    ensures { result ≡ spec.is_param context.now }
{
    is_first(context) && context.heads.is_empty() && is_param_tail(&context.tail)
}

/// The name of `_`.
pub fn wild_name(alloc: Global, span: Span) -> Result<Name, NoMemory>
    ensures { IfOk result (λ now. now ≡ spec.wild_name span) }
{
    Ok(Name {
        text: Text::new(alloc, "_")?,
        span,
    })
}

fn param_alone(name: Name, binds: bool) -> Element
    ensures { result ≡ spec.param_alone name binds }
{
    let span = name.span;
    Element::Param(LambdaParam {
        name,
        binds,
        span,
        ty: None,
    })
}

fn param_typed(alloc: Global, name: Name, binds: bool, ty: TypeState) -> Result<Element, NoMemory>
    ensures { IfOk result (λ now. now ≡ spec.param_typed name binds ty) }
{
    let span = Span {
        start: name.span.start,
        end: tail_end(&ty.tail),
    };
    Ok(Element::Param(LambdaParam {
        name,
        binds,
        span,
        ty: Some(type_of(alloc, ty)?),
    }))
}

fn no_element(alloc: Global) -> Element
    ensures { result ≡ spec.no_element }
{
    Element::Plain(None, Row::new(alloc))
}

fn typed_element(alloc: Global, of: TypedOf, ty: TypeState) -> Result<Element, NoMemory>
    ensures { IfOk result (λ now. now ≡ spec.typed_element of ty) }
{
    match of {
        TypedOf::Name(name) => param_typed(alloc, name, true, ty),
        TypedOf::Wild(span) => {
            let name = beside!(ty; wild_name(alloc, span));
            param_typed(alloc, name, false, ty)
        }
        TypedOf::Infix(_operand) => {
            drop(ty);
            Ok(no_element(alloc))
        }
    }
}

fn param_element(alloc: Global, tail: Tail) -> Result<Element, NoMemory>
    ensures { IfOk result (λ now. now ≡ spec.param_element tail) }
{
    match tail {
        Tail::AtName(name, _) => Ok(param_alone(name, true)),
        Tail::AtWild(span) => Ok(param_alone(wild_name(alloc, span)?, false)),
        Tail::InTyped(of, ty) => typed_element(alloc, of, ty),
        tail => {
            drop(tail);
            Ok(no_element(alloc))
        }
    }
}

// The element that ends here.
fn element_at(alloc: Global, context: Context) -> Result<Element, NoMemory>
    ensures { IfOk result (λ now. now ≡ spec.element_at context) }
{
    if is_param(&context) {
        param_element(alloc, context.tail)
    } else {
        let Ready { operand, free } = expr_at(alloc, context)?;
        Ok(Element::Plain(operand.tall, free))
    }
}

// Whether nothing stands in the bracket yet.
fn is_untouched(context: &Context) -> bool
    ensures { result ≡ spec.is_untouched context.now }
{
    is_first(context) && context.heads.is_empty() && is_begin(&context.tail)
}

// Whether the bracket can have one more, after the element that ends here.
fn has_room(bracket: &Bracket, context: &Context) -> bool
    ensures { result ≡ spec.has_room bracket.now context.now }
{
    match bracket {
        Bracket::Group(elements, may_be_head) => elements.len() < 2
            || (*may_be_head && is_param(context)),
        Bracket::Args(..) | Bracket::NewArgs(..) => true,
        _ => false,
    }
}

/// A bracket, and what stands before it.
#[derive(Debug, Drop)]
pub struct Grown {
    pub bracket: Bracket,
    pub outer: Context,
}

/// Arguments, and what stands before them.
#[derive(Debug, Drop)]
pub struct Args {
    pub kids: Option<Kids>,
    pub outer: Context,
}

// What stays free in an argument is the receiver's.
fn with_arg(
    alloc: Global,
    kids: Option<Kids>,
    outer: Context,
    context: Context,
) -> Result<Args, NoMemory>
    ensures { IfOk result (λ now. now ≡ spec.with_arg kids outer context) }
{
    let Ready { operand, free } = beside!(outer; expr_at(alloc, context));
    let kids = beside!(outer; joined(kids, operand.tall));
    Ok(Args {
        kids,
        outer: with_free(outer, free)?,
    })
}

fn with_element(
    alloc: Global,
    bracket: Bracket,
    outer: Context,
    context: Context,
) -> Result<Grown, NoMemory>
    ensures { IfOk result (λ now. now ≡ spec.with_element bracket outer context) }
{
    match bracket {
        Bracket::Group(elements, may_be_head) => {
            let stays = may_be_head && is_param(&context);
            let mut elements = elements;
            let element = beside!(outer; element_at(alloc, context));
            beside!(outer; elements.push(element));
            Ok(Grown {
                bracket: Bracket::Group(elements, stays),
                outer,
            })
        }
        Bracket::Args(receiver, kids, _) => {
            let Args { kids, outer } = with_arg(alloc, kids, outer, context)?;
            Ok(Grown {
                bracket: Bracket::Args(receiver, kids, true),
                outer,
            })
        }
        Bracket::NewArgs(kids, _) => {
            let Args { kids, outer } = with_arg(alloc, kids, outer, context)?;
            Ok(Grown {
                bracket: Bracket::NewArgs(kids, true),
                outer,
            })
        }
        bracket => {
            drop(context);
            Ok(Grown { bracket, outer })
        }
    }
}

fn limit_in(bracket: &Bracket) -> Limit
    ensures { result ≡ spec.limit_in bracket.now }
{
    match bracket {
        Bracket::Group(elements, _) => {
            if elements.len() >= 3 {
                Limit::Param
            } else {
                Limit::Expr
            }
        }
        _ => Limit::Expr,
    }
}

fn parted_in(
    alloc: Global,
    frames: Stack<Frame>,
    frame: Frame,
    context: Context,
) -> Result<State, NoMemory>
    ensures { IfOk result (λ now. now ≡ spec.parted_in frame frames context) }
{
    let Frame {
        bracket,
        start,
        outer,
    } = frame;
    let Grown { bracket, outer } = with_element(alloc, bracket, outer, context)?;
    let limit = limit_in(&bracket);
    let mut frames = frames;
    frames.push(Frame {
        bracket,
        start,
        outer,
    })?;
    Ok(State {
        frames,
        context: fresh(alloc, limit),
    })
}

/// The state after a comma.
pub fn parted(
    alloc: Global,
    frames: Stack<Frame>,
    context: Context,
) -> Result<Option<State>, NoMemory>
    ensures { IfOk result (λ now. now ≡ spec.parted frames context) }
{
    let mut frames = frames;
    let Some(frame) = frames.pop() else {
        drop(context);
        return Ok(None);
    };
    if is_expr(&context) && has_room(&frame.bracket, &context) {
        Ok(Some(parted_in(alloc, frames, frame, context)?))
    } else {
        drop(frame);
        drop(context);
        Ok(None)
    }
}

/// The state with a context, where there is one.
#[inline(always)]
pub fn in_state(frames: Stack<Frame>, context: Option<Context>) -> Option<State>
    ensures { result ≡ spec.in_state frames context }
{
    match context {
        Some(context) => Some(State { frames, context }),
        None => None,
    }
}

// ---- closing

fn may_be_empty(bracket: &Bracket) -> bool
    ensures { result ≡ spec.may_be_empty bracket.now }
{
    match bracket {
        Bracket::Group(elements, _) => elements.is_empty(),
        Bracket::Args(_, _, any) => !*any,
        Bracket::NewArgs(_, any) => !*any,
        _ => false,
    }
}

// The context after a bracket of elements.
fn closed_list(alloc: Global, bracket: Bracket, span: Span, outer: Context) -> Context
    ensures { result ≡ spec.closed_list bracket span outer }
{
    match bracket {
        Bracket::Group(elements, may_be_head) => {
            let group = Group {
                span,
                elements,
                may_be_head,
            };
            at_tail(outer, Tail::AtGroup(group))
        }
        Bracket::Args(receiver, args, _) => {
            let call = Call {
                span,
                receiver,
                args,
            };
            at_tail(outer, Tail::AtCall(call))
        }
        Bracket::NewArgs(kids, _) => {
            let tall = unlabelled(alloc, TreeKind::New, span, kids);
            at_tail(outer, Tail::AtPrim(Operand { tall, span }, Form::Plain))
        }
        bracket => {
            drop(bracket);
            outer
        }
    }
}

fn closed_element(
    alloc: Global,
    bracket: Bracket,
    span: Span,
    outer: Context,
    context: Context,
) -> Result<Context, NoMemory>
    ensures { IfOk result (λ now. now ≡ spec.closed_element bracket span outer context) }
{
    let Grown { bracket, outer } = with_element(alloc, bracket, outer, context)?;
    Ok(closed_list(alloc, bracket, span, outer))
}

fn behind_if(alloc: Global, span: Span, test: Args) -> Result<Context, NoMemory>
    ensures { IfOk result (λ now. now ≡ spec.behind_if span test) }
{
    with_head(alloc, test.outer, span.start, HeadKind::IfThen(test.kids))
}

fn behind_while(alloc: Global, span: Span, test: Args) -> Result<Context, NoMemory>
    ensures { IfOk result (λ now. now ≡ spec.behind_while span test) }
{
    with_head(alloc, test.outer, span.start, HeadKind::WhileDo(test.kids))
}

fn behind_do(alloc: Global, span: Span, test: Args) -> Context
    ensures { result ≡ spec.behind_do span test }
{
    let tall = unlabelled(alloc, TreeKind::DoWhile, span, test.kids);
    at_tail(test.outer, Tail::AtEnded(Operand { tall, span }))
}

fn behind_for(alloc: Global, span: Span, found: Finished) -> Result<Context, NoMemory>
    ensures { IfOk result (λ now. now ≡ spec.behind_for span found) }
{
    let Finished { generators, outer } = found;
    with_head(alloc, outer, span.start, HeadKind::For(generators, false))
}

// The context after a bracket that is not empty.
fn closed_in(
    alloc: Global,
    bracket: Bracket,
    span: Span,
    outer: Context,
    context: Context,
) -> Result<Context, NoMemory>
    ensures { IfOk result (λ now. now ≡ spec.closed_in bracket span outer context) }
{
    match bracket {
        Bracket::IfTest => {
            let test = with_arg(alloc, no_kids(alloc), outer, context)?;
            behind_if(alloc, span, test)
        }
        Bracket::WhileTest => {
            let test = with_arg(alloc, no_kids(alloc), outer, context)?;
            behind_while(alloc, span, test)
        }
        Bracket::DoTest(kids) => {
            let test = with_arg(alloc, kids, outer, context)?;
            Ok(behind_do(alloc, span, test))
        }
        Bracket::Generators(generators, part) => {
            let found = finish(alloc, generators, part, outer, context)?;
            behind_for(alloc, span, found)
        }
        bracket => closed_element(alloc, bracket, span, outer, context),
    }
}

fn closed_frame(
    alloc: Global,
    frame: Frame,
    context: Context,
    end: u32,
) -> Result<Option<Context>, NoMemory>
    ensures { IfOk result (λ now. now ≡ spec.closed_frame frame context end) }
{
    let Frame {
        bracket,
        start,
        outer,
    } = frame;
    let span = Span { start, end };
    if may_be_empty(&bracket) && is_untouched(&context) {
        drop(context);
        Ok(Some(closed_list(alloc, bracket, span, outer)))
    } else if is_expr(&context) {
        Ok(Some(closed_in(alloc, bracket, span, outer, context)?))
    } else {
        drop(bracket);
        drop(outer);
        drop(context);
        Ok(None)
    }
}

/// The state after `)`.
pub fn round_closed(
    alloc: Global,
    frames: Stack<Frame>,
    context: Context,
    end: u32,
) -> Result<Option<State>, NoMemory>
    ensures { IfOk result (λ now. now ≡ spec.round_closed frames context end) }
{
    let mut frames = frames;
    let Some(frame) = frames.pop() else {
        drop(context);
        return Ok(None);
    };
    Ok(in_state(frames, closed_frame(alloc, frame, context, end)?))
}
