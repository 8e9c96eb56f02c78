//! A pair of braces as one item of an expression.

ghost use Rattle.std.specs.Prelude.{◌≡◌, IfOk};
ghost use Rattle.expr_steps.specs.Braces as spec;

use crate::operands::decided;
use expr_frames::beside;
use expr_frames::frames::{
    Emptied, Left, is_near, is_no, is_param_limit, may_stand, take_operand, take_tail, takes_args,
};
use expr_frames::generators::with_free;
use expr_frames::heads::with_head;
use expr_tails::ending::at_tail;
use expr_tails::items::{Braces, Built, BuiltKids, Inside};
use expr_tails::states::{Asker, Begun, Call, Context, Form, HeadKind, NewOf, State, Tail};
use expr_tails::symbols::Symbol;
use parse_parts::built::joined;
use parse_parts::steps::alone;
use parse_patterns::states::Operand;
use pc_terms::{NoMemory, Row, Span, TreeKind};
use scan_tokens::Newline;
use std::alloc::Global;
use tree_lower::{appended, unlabelled};

/// What has to stand in braces at a place.
#[derive(Clone, Copy, Debug, PartialEq, Eq)]
pub enum Asks {
    Generators,
    Cases,
    /// A block or cases.
    Any,
}

/// A state before a pair of braces.
#[derive(Debug, Drop)]
pub struct Opened {
    pub state: State,
    pub asks: Asks,
}

fn when_any(holds: bool) -> Option<Asks>
    ensures { result ≡ spec.when_any holds }
{
    if holds { Some(Asks::Any) } else { None }
}

fn asks_of(asker: Asker) -> Option<Asks>
    ensures { result ≡ spec.asks_of asker }
{
    match asker {
        Asker::For => Some(Asks::Generators),
        Asker::If | Asker::While => None,
    }
}

// A Prim goes on, or begins.
fn block_asked(context: &Context, before: Newline) -> Option<Asks>
    ensures { result ≡ spec.block_asked context.now before }
{
    when_any((takes_args(context) && is_near(before)) || may_stand(context, before))
}

fn name_asks(is_sign: bool, before: Newline) -> Option<Asks>
    ensures { result ≡ spec.name_asks is_sign before }
{
    when_any(is_near(before) && !(is_sign && is_no(before)))
}

fn asks_at(context: &Context, before: Newline) -> Option<Asks>
    ensures { result ≡ spec.asks_at context.now.tail context.now before }
{
    match &context.tail {
        Tail::AtAsker(asker, _) => asks_of(*asker),
        Tail::AtMatch(_) | Tail::AtCatch(_) => Some(Asks::Cases),
        Tail::AtName(_, is_sign) => {
            if is_param_limit(context.limit) {
                None
            } else {
                name_asks(*is_sign, before)
            }
        }
        Tail::AtNew(_) => when_any(is_near(before)),
        _ => block_asked(context, before),
    }
}

fn opened_with(state: State, before: Newline) -> Option<Opened>
    ensures { result ≡ spec.opened_by (spec.asks_at state.context.tail state.context before) state }
{
    match asks_at(&state.context, before) {
        Some(asks) => Some(Opened { state, asks }),
        None => {
            drop(state);
            None
        }
    }
}

/// The state before a pair of braces, if one can stand next.
pub fn open_braces(alloc: Global, state: State, before: Newline) -> Result<Option<Opened>, NoMemory>
    ensures { IfOk result (λ now. now ≡ spec.opened state before) }
{
    let State { frames, context } = state;
    let context = decided(alloc, context, Symbol::OpenCurly, before)?;
    Ok(opened_with(State { frames, context }, before))
}

/// Whether these are the contents that are asked for.
pub fn answers(asks: Asks, inside: &Inside) -> bool
    ensures { result ≡ spec.answers asks inside.now }
{
    match inside {
        Inside::Block(_) => matches!(asks, Asks::Any),
        Inside::Cases(_) => matches!(asks, Asks::Any | Asks::Cases),
        Inside::Generators(_) => matches!(asks, Asks::Generators),
        Inside::Nothing => false,
    }
}

// A block or cases as a tree.
fn arg_of(alloc: Global, span: Span, inside: Inside) -> Built
    ensures { result ≡ spec.arg_of span inside }
{
    match inside {
        Inside::Block(built) => built,
        Inside::Cases(cases) => Built {
            tall: unlabelled(alloc, TreeKind::CaseFunction, span, cases.kids),
            free: cases.free,
        },
        Inside::Generators(_generators) => Built {
            tall: None,
            free: Row::new(alloc),
        },
        Inside::Nothing => Built {
            tall: None,
            free: Row::new(alloc),
        },
    }
}

fn cases_of(alloc: Global, inside: Inside) -> BuiltKids
    ensures { result ≡ spec.cases_of inside }
{
    match inside {
        Inside::Cases(cases) => cases,
        inside => {
            drop(inside);
            BuiltKids {
                kids: None,
                free: Row::new(alloc),
            }
        }
    }
}

fn behind_for(
    alloc: Global,
    context: Context,
    start: u32,
    inside: Inside,
) -> Result<Context, NoMemory>
    ensures { IfOk result (λ now. now ≡ spec.behind_for context start inside) }
{
    match inside {
        Inside::Generators(found) => {
            let context = with_free(context, found.free)?;
            with_head(
                alloc,
                context,
                start,
                HeadKind::For(found.generators, false),
            )
        }
        inside => {
            drop(inside);
            Ok(context)
        }
    }
}

fn behind_match(
    alloc: Global,
    context: Context,
    operand: Operand,
    span: Span,
    cases: BuiltKids,
) -> Result<Context, NoMemory>
    ensures { IfOk result (λ now. now ≡ spec.behind_match context operand span cases) }
{
    let span = Span {
        start: operand.span.start,
        end: span.end,
    };
    let BuiltKids { kids, free } = cases;
    let receiver = beside!(context; alone(alloc, operand.tall));
    let kids = beside!(context; appended(receiver, kids));
    let tall = unlabelled(alloc, TreeKind::Match, span, kids);
    let context = with_free(context, free)?;
    Ok(at_tail(context, Tail::AtEnded(Operand { tall, span })))
}

fn behind_catch(
    context: Context,
    begun: Begun,
    span: Span,
    cases: BuiltKids,
) -> Result<Context, NoMemory>
    ensures { IfOk result (λ now. now ≡ spec.behind_catch context begun span cases) }
{
    let BuiltKids { kids, free } = cases;
    let kids = beside!(context; appended(begun.kids, kids));
    let caught = Begun {
        start: begun.start,
        kids,
    };
    let context = with_free(context, free)?;
    Ok(at_tail(context, Tail::AtCaught(caught, span.end)))
}

fn behind_new(
    alloc: Global,
    context: Context,
    new: NewOf,
    span: Span,
    arg: Built,
) -> Result<Context, NoMemory>
    ensures { IfOk result (λ now. now ≡ spec.behind_new context new span arg) }
{
    let span = Span {
        start: new.span.start,
        end: span.end,
    };
    let Built { tall, free } = arg;
    let kids = beside!(context; joined(new.kids, tall));
    let tall = unlabelled(alloc, TreeKind::New, span, kids);
    let context = with_free(context, free)?;
    Ok(at_tail(context, Tail::AtPrim(Operand { tall, span }, Form::Plain)))
}

fn as_prim(context: Context, span: Span, arg: Built) -> Result<Context, NoMemory>
    ensures { IfOk result (λ now. now ≡ spec.as_prim context span arg) }
{
    let Built { tall, free } = arg;
    let context = with_free(context, free)?;
    Ok(at_tail(context, Tail::AtPrim(Operand { tall, span }, Form::Plain)))
}

fn as_arg(alloc: Global, of: Left, span: Span, arg: Built) -> Result<Context, NoMemory>
    ensures { IfOk result (λ now. now ≡ spec.as_arg of span arg) }
{
    let Left { operand, context } = of;
    let Built { tall, free } = arg;
    let args = beside!(context; alone(alloc, tall));
    let call = Call {
        span: Span {
            start: operand.span.start,
            end: span.end,
        },
        receiver: operand.tall,
        args,
    };
    let context = with_free(context, free)?;
    Ok(at_tail(context, Tail::AtCall(call)))
}

fn behind_at(
    alloc: Global,
    context: Context,
    span: Span,
    inside: Inside,
) -> Result<Context, NoMemory>
    ensures { IfOk result (λ now. now ≡ spec.behind_at context.tail context span inside) }
{
    let Emptied { tail, context } = take_tail(context);
    match tail {
        Tail::AtAsker(_, start) => behind_for(alloc, context, start, inside),
        Tail::AtMatch(operand) => {
            let cases = cases_of(alloc, inside);
            behind_match(alloc, context, operand, span, cases)
        }
        Tail::AtCatch(begun) => {
            let cases = cases_of(alloc, inside);
            behind_catch(context, begun, span, cases)
        }
        Tail::AtNew(new) => {
            let arg = arg_of(alloc, span, inside);
            behind_new(alloc, context, new, span, arg)
        }
        Tail::Begin => {
            let arg = arg_of(alloc, span, inside);
            as_prim(context, span, arg)
        }
        tail => {
            let arg = arg_of(alloc, span, inside);
            let of = take_operand(alloc, at_tail(context, tail))?;
            as_arg(alloc, of, span, arg)
        }
    }
}

/// The state after a pair of braces that has what is asked for.
#[tactic(auto, unfolding(crate::specs::Braces::behind))]
pub fn behind(alloc: Global, state: State, braces: Braces) -> Result<State, NoMemory>
    ensures { IfOk result (λ now. now ≡ spec.behind state braces) }
{
    let State { frames, context } = state;
    let context = behind_at(alloc, context, braces.span, braces.inside)?;
    Ok(State { frames, context })
}

fn behind_opened(alloc: Global, opened: Opened, braces: Braces) -> Result<Option<State>, NoMemory>
    ensures { IfOk result (λ now. now ≡ spec.behind_opened opened braces) }
{
    let Opened { state, asks } = opened;
    if answers(asks, &braces.inside) {
        Ok(Some(behind(alloc, state, braces)?))
    } else {
        drop(state);
        drop(braces);
        Ok(None)
    }
}

/// The state after a pair of braces, if it can stand next.
pub fn step_braces(alloc: Global, state: State, braces: Braces) -> Result<Option<State>, NoMemory>
    ensures { IfOk result (λ now. now ≡ spec.step_braces state braces) }
{
    match beside!(braces; open_braces(alloc, state, braces.before)) {
        Some(opened) => behind_opened(alloc, opened, braces),
        None => {
            drop(braces);
            Ok(None)
        }
    }
}
