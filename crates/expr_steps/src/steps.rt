//! What a reader of expressions makes of one token more.

ghost use Rattle.std.specs.Prelude.{◌≡◌, IfOk};
ghost use Rattle.expr_steps.specs.Steps as spec;
ghost use Rattle.expr_steps.specs.Reading as reading;
ghost use Rattle.parse_parts.specs.Built.{no_kids as nothing_built};
ghost use Rattle.parse_patterns.specs.Names.{lexeme_with};

use crate::operands::{
    decided, in_type, on_dot, on_id, on_literal, on_number, on_open_square, on_underscore, types_on,
};
use expr_frames::beside;
use expr_frames::frames::{
    Emptied, Left, in_state, is_param_limit, may_stand, parted, round_closed, round_opened,
    take_tail, wild_name,
};
use expr_frames::generators::{
    begins_generator, chain_of, ends_part, guarded, in_pattern, next_generator, separated,
};
use expr_frames::heads::{is_taken, with_head, with_semicolon, with_word};
use expr_tails::ending::{
    at_tail, expr_at, fresh, is_expr, is_expr_limit, is_first, is_semi, may_head, waits,
};
use expr_tails::items::Built;
use expr_tails::states::{
    Asker, Begun, Call, Context, Element, Form, Frame, Head, HeadKind, Limit, Reach, State, Tail,
    TypedOf,
};
use expr_tails::symbols::{Symbol, Word, read_symbol};
use expr_tails::tails::{Ready, element_param, ident, is_operand, is_whole};
use expr_tails::types::{type_begun, type_takes};
use parse_parts::built::{Kids, joined, no_kids};
use parse_parts::read_symbol as read_type_symbol;
use parse_parts::stack::Stack;
use parse_parts::steps::{alone, no_label};
use parse_patterns::states::Operand;
use pc_terms::{NoMemory, Row, Span, TreeKind};
use positioned_trees::Name;
use scan_tokens::{Newline, Token};
use std::alloc::Global;
use tree_lower::{Generator, leaf, param};

/// The machine before the first item of an expression.
pub fn begun(alloc: Global, limit: Limit) -> State
    ensures { result ≡ reading.begun limit }
{
    State {
        frames: Stack::new(alloc),
        context: fresh(alloc, limit),
    }
}

/// Whether what was read is whole.
pub fn is_read(state: &State) -> bool
    ensures { result ≡ reading.is_read state.now }
{
    state.frames.is_empty() && is_expr(&state.context)
}

fn built_of(ready: Ready) -> Built
    ensures { result ≡ reading.built_of ready }
{
    let Ready { operand, free } = ready;
    Built {
        tall: operand.tall,
        free,
    }
}

/// The expression that was read.
pub fn built_at(alloc: Global, state: State) -> Result<Built, NoMemory>
    ensures { IfOk result (λ now. now ≡ reading.built_at state) }
{
    Ok(built_of(expr_at(alloc, state.context)?))
}

/// The Infix that was read.
pub fn guard_at(alloc: Global, state: State) -> Result<Built, NoMemory>
    ensures { IfOk result (λ now. now ≡ reading.guard_at state) }
{
    Ok(built_of(chain_of(alloc, state.context)?))
}

// ---- what ends an Infix

fn chain_left(alloc: Global, context: Context) -> Result<Left, NoMemory>
    ensures { IfOk result (λ now. now ≡ spec.chain_left context) }
{
    let Context {
        heads,
        free,
        operations,
        sign,
        tail,
        limit,
    } = context;
    let Ready { operand, free } = expr_tails::ending::chain_at(
        alloc, operations, sign, tail, free,
    )?;
    Ok(Left {
        operand,
        context: Context {
            heads,
            free,
            operations: Stack::new(alloc),
            sign: None,
            tail: Tail::Begin,
            limit,
        },
    })
}

fn typed_infix(alloc: Global, of: Left) -> Context
    ensures { result ≡ spec.typed_infix of }
{
    let Left { operand, context } = of;
    at_tail(
        context,
        Tail::InTyped(TypedOf::Infix(operand), type_begun(alloc)),
    )
}

fn is_name_or_wild_tail(tail: &Tail) -> bool
    ensures { result ≡ spec.is_name_or_wild_tail tail.now }
{
    matches!(tail, Tail::AtName(..) | Tail::AtWild(_))
}

// A name or `_` alone, which may be a parameter.
fn typed_name(alloc: Global, context: Context) -> Context
    ensures { result ≡ spec.typed_name context.tail context }
{
    let Emptied { tail, context } = take_tail(context);
    match tail {
        Tail::AtName(name, _) => at_tail(
            context,
            Tail::InTyped(TypedOf::Name(name), type_begun(alloc)),
        ),
        Tail::AtWild(span) => at_tail(
            context,
            Tail::InTyped(TypedOf::Wild(span), type_begun(alloc)),
        ),
        tail => at_tail(context, tail),
    }
}

fn typed_from(alloc: Global, context: Context) -> Result<Context, NoMemory>
    ensures { IfOk result (λ now. now ≡ spec.typed_from context) }
{
    if is_first(&context) && is_name_or_wild_tail(&context.tail) {
        Ok(typed_name(alloc, context))
    } else {
        let of = chain_left(alloc, context)?;
        Ok(typed_infix(alloc, of))
    }
}

fn may_be_typed(context: &Context) -> bool
    ensures { result ≡ spec.may_be_typed context.now }
{
    is_operand(&context.tail) && (is_expr_limit(context.limit) || is_param_limit(context.limit))
}

fn on_colon(alloc: Global, context: Context) -> Result<Option<Context>, NoMemory>
    ensures { IfOk result (λ now. now ≡ spec.on_colon context) }
{
    if !may_be_typed(&context) {
        drop(context);
        return Ok(None);
    }
    Ok(Some(typed_from(alloc, context)?))
}

fn matched(of: Left) -> Context
    ensures { result ≡ spec.matched of }
{
    let Left { operand, context } = of;
    at_tail(context, Tail::AtMatch(operand))
}

fn on_match(alloc: Global, context: Context) -> Result<Option<Context>, NoMemory>
    ensures { IfOk result (λ now. now ≡ spec.on_match context) }
{
    if is_operand(&context.tail) && is_expr_limit(context.limit) {
        Ok(Some(matched(chain_left(alloc, context)?)))
    } else {
        drop(context);
        Ok(None)
    }
}

// ---- heads

fn assigned(alloc: Global, context: Context, target: Operand) -> Result<Context, NoMemory>
    ensures { IfOk result (λ now. now ≡ spec.assigned context target) }
{
    let kids = beside!(context; alone(alloc, target.tall));
    with_head(alloc, context, target.span.start, HeadKind::Assign(kids))
}

fn updated(alloc: Global, context: Context, call: Call) -> Result<Context, NoMemory>
    ensures { IfOk result (λ now. now ≡ spec.updated context call) }
{
    let kind = HeadKind::Update(call.receiver, call.args);
    with_head(alloc, context, call.span.start, kind)
}

fn equals_at(alloc: Global, context: Context) -> Result<Option<Context>, NoMemory>
    ensures { IfOk result (λ now. now ≡ spec.equals_at context.tail context) }
{
    let Emptied { tail, context } = take_tail(context);
    match tail {
        Tail::AtName(name, _) => Ok(Some(assigned(alloc, context, ident(alloc, name))?)),
        Tail::AtPrim(operand, Form::Select) => Ok(Some(assigned(alloc, context, operand)?)),
        Tail::AtCall(call) => Ok(Some(updated(alloc, context, call)?)),
        tail => {
            drop(tail);
            drop(context);
            Ok(None)
        }
    }
}

fn on_equals(alloc: Global, context: Context) -> Result<Option<Context>, NoMemory>
    ensures { IfOk result (λ now. now ≡ spec.on_equals context) }
{
    if may_head(&context) {
        equals_at(alloc, context)
    } else {
        drop(context);
        Ok(None)
    }
}

#[tactic(auto, using(crate::proofs::Params::one_more))]
fn group_params(alloc: Global, elements: Row<Element>) -> Result<Option<Kids>, NoMemory>
    ensures { IfOk result (λ now. now ≡ spec.element_params nothing_built elements) }
{
    let mut kids = no_kids(alloc);
    for element in elements.into_vec() {
        kids = joined(kids, element_param(alloc, element)?)?;
    }
    Ok(kids)
}

fn is_head_tail(tail: &Tail) -> bool
    ensures { result ≡ spec.is_head_tail tail.now }
{
    match tail {
        Tail::AtSign(_) | Tail::AtName(..) | Tail::AtWild(_) => true,
        Tail::AtGroup(group) => group.may_be_head,
        _ => false,
    }
}

/// Whether what stands at the tail can be the head of a lambda.
pub fn is_lambda_head(context: &Context) -> bool
    ensures { result ≡ spec.is_lambda_head context.now }
{
    may_head(context) && is_head_tail(&context.tail)
}

fn one_param(alloc: Global, name: Name, binds: bool) -> Result<Begun, NoMemory>
    ensures { IfOk result (λ now. now ≡ spec.one_param name binds) }
{
    let span = name.span;
    let tall = param(name, binds, span, no_kids(alloc));
    Ok(Begun {
        start: span.start,
        kids: alone(alloc, tall)?,
    })
}

/// The parameters that stand at the tail, and where they start.
pub fn params_at(alloc: Global, tail: Tail) -> Result<Begun, NoMemory>
    ensures { IfOk result (λ now. now ≡ spec.params_at tail) }
{
    match tail {
        Tail::AtSign(name) => one_param(alloc, name, true),
        Tail::AtName(name, _) => one_param(alloc, name, true),
        Tail::AtWild(span) => one_param(alloc, wild_name(alloc, span)?, false),
        Tail::AtGroup(group) => Ok(Begun {
            start: group.span.start,
            kids: group_params(alloc, group.elements)?,
        }),
        tail => {
            drop(tail);
            Ok(Begun {
                start: 0,
                kids: None,
            })
        }
    }
}

fn lambda(alloc: Global, context: Context, params: Begun) -> Result<Context, NoMemory>
    ensures { IfOk result (λ now. now ≡ spec.lambda context params) }
{
    with_head(alloc, context, params.start, HeadKind::Lambda(params.kids))
}

fn on_arrow(alloc: Global, context: Context) -> Result<Option<Context>, NoMemory>
    ensures { IfOk result (λ now. now ≡ spec.on_arrow context) }
{
    if !is_lambda_head(&context) {
        drop(context);
        return Ok(None);
    }
    let Emptied { tail, context } = take_tail(context);
    let params = beside!(context; params_at(alloc, tail));
    Ok(Some(lambda(alloc, context, params)?))
}

fn yields_head(start: u32, generators: Row<Generator>, free: Row<Span>, reach: Reach) -> Head
    ensures { result ≡ spec.yields_head start generators free reach }
{
    Head {
        start,
        kind: HeadKind::For(generators, true),
        free,
        reach,
    }
}

// Directly after the generators, where `yield` does not stand yet.
fn yielding_by(context: Context, head: Head) -> Result<Option<Context>, NoMemory>
    ensures { IfOk result (λ now. now ≡ spec.yielding_by head.kind context head) }
{
    let Head {
        start,
        kind,
        free,
        reach,
    } = head;
    match kind {
        HeadKind::For(generators, yields) => {
            if yields {
                drop(context);
                return Ok(None);
            }
            let mut context = context;
            let head = yields_head(start, generators, free, reach);
            beside!(context; context.heads.push(head));
            Ok(Some(context))
        }
        kind => {
            drop(kind);
            drop(context);
            Ok(None)
        }
    }
}

fn yielding_at(context: Context) -> Result<Option<Context>, NoMemory>
    ensures { IfOk result (λ now. now ≡ spec.yielding_at context.heads context) }
{
    let mut context = context;
    match context.heads.pop() {
        Some(head) => yielding_by(context, head),
        None => {
            drop(context);
            Ok(None)
        }
    }
}

fn may_begin(context: &Context) -> bool
    ensures { result ≡ spec.may_begin context.now }
{
    may_stand(context, Newline::No) && may_head(context)
}

fn yielding(context: Context) -> Result<Option<Context>, NoMemory>
    ensures { IfOk result (λ now. now ≡ spec.yielding context) }
{
    if may_begin(&context) {
        yielding_at(context)
    } else {
        drop(context);
        Ok(None)
    }
}

fn begun_with(
    alloc: Global,
    word: Word,
    context: Context,
    span: Span,
) -> Result<Option<Context>, NoMemory>
    ensures { IfOk result (λ now. now ≡ spec.begun_with word context span) }
{
    let start = span.start;
    match word {
        Word::If => Ok(Some(at_tail(context, Tail::AtAsker(Asker::If, start)))),
        Word::While => Ok(Some(at_tail(context, Tail::AtAsker(Asker::While, start)))),
        Word::For => Ok(Some(at_tail(context, Tail::AtAsker(Asker::For, start)))),
        Word::Return => Ok(Some(at_tail(context, Tail::AtReturn(span)))),
        Word::Do => Ok(Some(with_head(alloc, context, start, HeadKind::Do)?)),
        Word::Try => Ok(Some(with_head(alloc, context, start, HeadKind::Try)?)),
        Word::Throw => Ok(Some(with_head(alloc, context, start, HeadKind::Throw)?)),
        _ => {
            drop(context);
            Ok(None)
        }
    }
}

// A word where an expression begins.
fn begins(
    alloc: Global,
    word: Word,
    context: Context,
    span: Span,
) -> Result<Option<Context>, NoMemory>
    ensures { IfOk result (λ now. now ≡ spec.begins word context span) }
{
    if may_begin(&context) {
        begun_with(alloc, word, context, span)
    } else {
        drop(context);
        Ok(None)
    }
}

fn prim_tail(alloc: Global, word: Word, span: Span) -> Tail
    ensures { result ≡ spec.prim_tail word span }
{
    match word {
        Word::Super => Tail::AtSuper(span),
        Word::New => Tail::InNew(span.start, span.end, type_begun(alloc)),
        _ => {
            let tall = leaf(alloc, TreeKind::This, no_label(alloc), span);
            Tail::AtPrim(Operand { tall, span }, Form::Plain)
        }
    }
}

fn prim_word(
    alloc: Global,
    word: Word,
    context: Context,
    before: Newline,
    span: Span,
) -> Option<Context>
    ensures { result ≡ spec.prim_word word context before span }
{
    if may_stand(&context, before) {
        Some(at_tail(context, prim_tail(alloc, word, span)))
    } else {
        drop(context);
        None
    }
}

fn word_at(
    alloc: Global,
    word: Word,
    context: Context,
    before: Newline,
    span: Span,
) -> Result<Option<Context>, NoMemory>
    ensures { IfOk result (λ now. now ≡ spec.word_at word context before span) }
{
    match word {
        Word::This => Ok(prim_word(alloc, Word::This, context, before, span)),
        Word::Super => Ok(prim_word(alloc, Word::Super, context, before, span)),
        Word::New => Ok(prim_word(alloc, Word::New, context, before, span)),
        Word::Match => on_match(alloc, context),
        Word::Yield => yielding(context),
        _ => begins(alloc, word, context, span),
    }
}

fn taken_or(
    alloc: Global,
    word: Word,
    context: Context,
    before: Newline,
    span: Span,
) -> Result<Option<Context>, NoMemory>
    ensures { IfOk result (λ now. now ≡ spec.taken_or word context before span) }
{
    if is_taken(&context, word) {
        Ok(Some(with_word(alloc, context, word)?))
    } else {
        word_at(alloc, word, context, before, span)
    }
}

fn is_if(word: Word) -> bool
    ensures { result ≡ spec.is_if word }
{
    matches!(word, Word::If)
}

fn on_word(
    alloc: Global,
    word: Word,
    frames: Stack<Frame>,
    context: Context,
    token: Token,
) -> Result<Option<State>, NoMemory>
    ensures { IfOk result (λ now. now ≡ spec.on_word word frames context token.before token.span) }
{
    if is_if(word) && ends_part(&frames, &context) {
        guarded(alloc, frames, context)
    } else {
        let context = taken_or(alloc, word, context, token.before, token.span)?;
        Ok(in_state(frames, context))
    }
}

// Whether a `while` or an `else` of a head may stand after it.
fn is_crossed(context: &Context) -> bool
    ensures { result ≡ spec.is_crossed context.now }
{
    (waits(context) && is_semi(&context.tail))
        || (is_whole(&context.tail) && (waits(context) || is_taken(context, Word::Else)))
}

fn on_semicolon(
    alloc: Global,
    frames: &Stack<Frame>,
    context: Context,
) -> Result<Option<Context>, NoMemory>
    ensures { IfOk result (λ now. now ≡ spec.on_semicolon frames.now context) }
{
    if ends_part(frames, &context) {
        Ok(Some(separated(alloc, context)?))
    } else if is_crossed(&context) {
        Ok(Some(with_semicolon(alloc, context)?))
    } else {
        drop(context);
        Ok(None)
    }
}

#[inline(always)]
#[tactic(auto, unfolding(crate::specs::Steps::on_token))]
fn on_token(
    alloc: Global,
    frames: Stack<Frame>,
    context: Context,
    symbol: Symbol,
    token: Token,
    word: &str,
) -> Result<Option<State>, NoMemory>
    ensures { IfOk result (λ now. now ≡ spec.on_token symbol frames context (lexeme_with token word.now)) }
{
    match symbol {
        Symbol::Id => Ok(in_state(frames, on_id(alloc, context, token, word)?)),
        Symbol::Number => Ok(in_state(frames, on_number(alloc, context, token, word)?)),
        Symbol::Literal => Ok(in_state(frames, on_literal(alloc, context, token, word)?)),
        Symbol::Underscore => {
            let context = on_underscore(alloc, context, token.before, token.span)?;
            Ok(in_state(frames, context))
        }
        Symbol::Colon => Ok(in_state(frames, on_colon(alloc, context)?)),
        Symbol::Equals => Ok(in_state(frames, on_equals(alloc, context)?)),
        Symbol::Arrow => Ok(in_state(frames, on_arrow(alloc, context)?)),
        Symbol::Dot => Ok(in_state(frames, on_dot(alloc, context, token.span)?)),
        Symbol::OpenRound => round_opened(alloc, frames, context, token.span.start, token.before),
        Symbol::CloseRound => round_closed(alloc, frames, context, token.span.end),
        Symbol::OpenSquare => Ok(in_state(frames, on_open_square(alloc, context)?)),
        Symbol::Comma => parted(alloc, frames, context),
        Symbol::Semicolon => {
            let context = on_semicolon(alloc, &frames, context)?;
            Ok(in_state(frames, context))
        }
        Symbol::Word(reserved) => on_word(alloc, reserved, frames, context, token),
        _ => {
            drop(context);
            Ok(None)
        }
    }
}

// ---- one token more

fn pattern_step(
    alloc: Global,
    frames: Stack<Frame>,
    tail: Tail,
    symbol: Symbol,
    token: Token,
    word: &str,
) -> Result<Option<State>, NoMemory>
    ensures { IfOk result (λ now. now ≡ spec.pattern_step tail frames symbol (lexeme_with token word.now)) }
{
    match tail {
        Tail::InPattern(pattern) => in_pattern(alloc, frames, pattern, symbol, token, word),
        tail => {
            drop(tail);
            Ok(None)
        }
    }
}

fn next_begun(
    alloc: Global,
    next: Option<State>,
    symbol: Symbol,
    token: Token,
    word: &str,
) -> Result<Option<State>, NoMemory>
    ensures { IfOk result (λ now. now ≡ spec.next_begun next symbol (lexeme_with token word.now)) }
{
    match next {
        Some(state) => {
            let State { frames, context } = state;
            let Emptied { tail, context } = take_tail(context);
            drop(context);
            pattern_step(alloc, frames, tail, symbol, token, word)
        }
        None => Ok(None),
    }
}

#[inline(always)]
fn token_or_next(
    alloc: Global,
    frames: Stack<Frame>,
    context: Context,
    symbol: Symbol,
    token: Token,
    word: &str,
) -> Result<Option<State>, NoMemory>
    ensures { IfOk result (λ now. now ≡ spec.token_or_next frames context symbol (lexeme_with token word.now)) }
{
    if begins_generator(&frames, &context, symbol, token.before) {
        let next = next_generator(alloc, frames, context)?;
        next_begun(alloc, next, symbol, token, word)
    } else {
        on_token(alloc, frames, context, symbol, token, word)
    }
}

#[inline(always)]
fn decided_step(
    alloc: Global,
    frames: Stack<Frame>,
    context: Context,
    symbol: Symbol,
    token: Token,
    word: &str,
) -> Result<Option<State>, NoMemory>
    ensures { IfOk result (λ now. now ≡ spec.decided_step frames context symbol (lexeme_with token word.now)) }
{
    if matches!(context.tail, Tail::AtDot(..)) {
        return on_token(alloc, frames, context, symbol, token, word);
    }
    if !matches!(context.tail, Tail::InPattern(_) | Tail::InTypes(..)) {
        return token_or_next(alloc, frames, context, symbol, token, word);
    }
    let Emptied { tail, context } = take_tail(context);
    match tail {
        Tail::InPattern(pattern) => {
            drop(context);
            in_pattern(alloc, frames, pattern, symbol, token, word)
        }
        Tail::InTypes(begun, ty) => {
            let context = types_on(alloc, context, begun, ty, symbol, token.span.end)?;
            Ok(in_state(frames, context))
        }
        tail => {
            drop(tail);
            drop(context);
            Ok(None)
        }
    }
}

#[inline(always)]
fn type_step(
    alloc: Global,
    frames: Stack<Frame>,
    context: Context,
    token: Token,
    word: &str,
) -> Result<State, NoMemory>
    ensures { IfOk result (λ now. now ≡ spec.type_step frames context (lexeme_with token word.now)) }
{
    let Emptied { tail, context } = take_tail(context);
    let tail = beside!(context; in_type(alloc, tail, token, word));
    Ok(State {
        frames,
        context: at_tail(context, tail),
    })
}

/// The state after a token, if it can stand next.
#[tactic(auto, unfolding(crate::specs::Steps::step))]
pub fn step(
    alloc: Global,
    state: State,
    token: Token,
    word: &str,
) -> Result<Option<State>, NoMemory>
    ensures { IfOk result (λ now. now ≡ spec.step state (lexeme_with token word.now)) }
{
    let symbol = read_symbol(token.kind, word.as_bytes());
    let type_symbol = read_type_symbol(token.kind, word.as_bytes());
    let State { frames, context } = state;
    if type_takes(context.limit, &context.tail, type_symbol) {
        Ok(Some(type_step(alloc, frames, context, token, word)?))
    } else {
        let context = decided(alloc, context, symbol, token.before)?;
        decided_step(alloc, frames, context, symbol, token, word)
    }
}
