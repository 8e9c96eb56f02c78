//! The generators of a `for`.

ghost use Rattle.std.specs.Prelude.{◌≡◌, IfOk};
ghost use Rattle.expr_frames.specs.Generators as spec;
ghost use Rattle.source_grammar.specs.Brackets.{has_newline as newline_counts};
ghost use Rattle.parse_patterns.specs.Names.{lexeme_with};
ghost use Rattle.parse_patterns.specs.Reading.{begun as pattern_start};

use crate::beside;
use crate::heads::{in_context, with_semicolon};
use expr_tails::ending::{at_tail, chain_at, expr_at, fresh, is_expr, is_semi, waits};
use expr_tails::items::Generators;
use expr_tails::states::{Bracket, Context, Frame, Limit, Part, State, Tail};
use expr_tails::symbols::Symbol;
use expr_tails::tails::{Ready, with_spans};
use parse_parts::stack::Stack;
use parse_patterns::admitting::{admits, is_whole};
use parse_patterns::names::is_variable;
use parse_patterns::patterns::pattern_at;
use parse_patterns::states::{Current, Infix, State as PatternState, Tail as PatternTail};
use parse_patterns::steps::advance;
use pc_terms::{NoMemory, Row, Span};
use scan_tokens::{Newline, Token};
use std::alloc::Global;
use tree_lower::Generator;

/// The machine of patterns before its first token.
pub fn pattern_begun(alloc: Global) -> PatternState
    ensures { result ≡ pattern_start }
{
    PatternState {
        frames: Stack::new(alloc),
        earlier: None,
        current: Current::InInfix(Infix {
            binder: None,
            operations: Stack::new(alloc),
            tail: PatternTail::Begin,
        }),
    }
}

/// A generator of which nothing was read.
pub fn nothing_yet(alloc: Global) -> Part
    ensures { result ≡ spec.nothing_yet }
{
    Part {
        pattern: None,
        from: None,
        guards: Row::new(alloc),
    }
}

/// The machine before the first generator.
pub fn generators_begun(alloc: Global) -> Result<State, NoMemory>
    ensures { IfOk result (λ now. now ≡ spec.generators_begun) }
{
    let mut frames = Stack::new(alloc);
    frames.push(Frame {
        bracket: Bracket::Generators(Row::new(alloc), nothing_yet(alloc)),
        start: 0,
        outer: fresh(alloc, Limit::Expr),
    })?;
    Ok(State {
        frames,
        context: next_pattern(alloc),
    })
}

/// The context before the pattern of a generator.
pub fn next_pattern(alloc: Global) -> Context
    ensures { result ≡ spec.next_pattern }
{
    at_tail(
        fresh(alloc, Limit::Expr),
        Tail::InPattern(pattern_begun(alloc)),
    )
}

fn is_ended(pattern: &PatternState) -> bool
    ensures { result ≡ spec.is_ended pattern.now }
{
    match &pattern.current {
        Current::InInfix(chain) => pattern.frames.is_empty() && is_whole(&chain.tail),
        Current::InType(..) => false,
    }
}

fn is_begin(pattern: &PatternState) -> bool
    ensures { result ≡ spec.is_begin_at pattern.now.current }
{
    match &pattern.current {
        Current::InInfix(chain) => matches!(chain.tail, PatternTail::Begin),
        Current::InType(..) => false,
    }
}

// Variables, `_`, and tuples of these.
fn is_generator_token(pattern: &PatternState, symbol: Symbol, token: Token, word: &str) -> bool
    ensures { result ≡ spec.is_generator_token pattern.now symbol (lexeme_with token word.now) }
{
    match symbol {
        Symbol::Id => is_begin(pattern) && is_variable(token, word),
        Symbol::Underscore | Symbol::OpenRound => is_begin(pattern),
        Symbol::Comma | Symbol::CloseRound => !is_begin(pattern),
        _ => false,
    }
}

/// The state after one token more of the pattern of a generator, or after the arrow.
pub fn in_pattern(
    alloc: Global,
    frames: Stack<Frame>,
    pattern: PatternState,
    symbol: Symbol,
    token: Token,
    word: &str,
) -> Result<Option<State>, NoMemory>
    ensures { IfOk result (λ now. now ≡ spec.in_pattern frames pattern symbol (lexeme_with token word.now)) }
{
    match symbol {
        Symbol::BackArrow => arrowed(alloc, frames, pattern),
        _ => pattern_on(alloc, frames, pattern, symbol, token, word),
    }
}

fn pattern_on(
    alloc: Global,
    frames: Stack<Frame>,
    pattern: PatternState,
    symbol: Symbol,
    token: Token,
    word: &str,
) -> Result<Option<State>, NoMemory>
    ensures { IfOk result (λ now. now ≡ spec.pattern_on frames pattern symbol (lexeme_with token word.now)) }
{
    if is_generator_token(&pattern, symbol, token, word) && admits(&pattern, token, word) {
        let tail = Tail::InPattern(advance(alloc, pattern, token, word)?);
        Ok(Some(State {
            frames,
            context: at_tail(fresh(alloc, Limit::Expr), tail),
        }))
    } else {
        drop(pattern);
        Ok(None)
    }
}

fn with_pattern(alloc: Global, part: Part, pattern: PatternState) -> Result<Part, NoMemory>
    ensures { IfOk result (λ now. now ≡ spec.with_pattern part pattern) }
{
    Ok(Part {
        pattern: pattern_at(alloc, pattern)?,
        from: part.from,
        guards: part.guards,
    })
}

fn arrowed_in(
    alloc: Global,
    frames: Stack<Frame>,
    frame: Frame,
    pattern: PatternState,
) -> Result<Option<State>, NoMemory>
    ensures { IfOk result (λ now. now ≡ spec.arrowed_in frame.bracket frame.start frame.outer frames pattern) }
{
    let mut frames = frames;
    let Frame {
        bracket,
        start,
        outer,
    } = frame;
    match bracket {
        Bracket::Generators(generators, part) => {
            let part = beside!(outer; with_pattern(alloc, part, pattern));
            frames.push(generators_frame(generators, part, start, outer))?;
            Ok(Some(State {
                frames,
                context: fresh(alloc, Limit::Expr),
            }))
        }
        bracket => {
            drop(bracket);
            drop(outer);
            drop(pattern);
            Ok(None)
        }
    }
}

fn arrowed(
    alloc: Global,
    frames: Stack<Frame>,
    pattern: PatternState,
) -> Result<Option<State>, NoMemory>
    ensures { IfOk result (λ now. now ≡ spec.arrowed frames pattern) }
{
    let mut frames = frames;
    let Some(frame) = frames.pop() else {
        drop(pattern);
        return Ok(None);
    };
    if is_ended(&pattern) {
        arrowed_in(alloc, frames, frame, pattern)
    } else {
        drop(frame);
        drop(pattern);
        Ok(None)
    }
}

/// The context with more placeholders after those so far.
pub fn with_free(context: Context, free: Row<Span>) -> Result<Context, NoMemory>
    ensures { IfOk result (λ now. now ≡ spec.with_free context free) }
{
    let Context {
        heads,
        free: before,
        operations,
        sign,
        tail,
        limit,
    } = context;
    let free = beside!(tail; with_spans(before, free));
    Ok(Context {
        heads,
        free,
        operations,
        sign,
        tail,
        limit,
    })
}

/// A generator, and what stands before the `for`.
#[derive(Debug, Drop)]
pub struct Parted {
    pub part: Part,
    pub outer: Context,
}

fn with_guard(part: Part, outer: Context, guard: Ready) -> Result<Parted, NoMemory>
    ensures { IfOk result (λ now. now ≡ spec.with_guard part outer guard) }
{
    let Part {
        pattern,
        from,
        guards,
    } = part;
    let Ready { operand, free } = guard;
    let mut guards = guards;
    beside!(outer; guards.push(operand.tall));
    Ok(Parted {
        part: Part {
            pattern,
            from,
            guards,
        },
        outer: with_free(outer, free)?,
    })
}

fn with_from(part: Part, outer: Context, from: Ready) -> Result<Parted, NoMemory>
    ensures { IfOk result (λ now. now ≡ spec.with_from part outer from) }
{
    let Ready { operand, free } = from;
    Ok(Parted {
        part: Part {
            pattern: part.pattern,
            from: operand.tall,
            guards: part.guards,
        },
        outer: with_free(outer, free)?,
    })
}

fn is_guard(limit: Limit) -> bool
    ensures { result ≡ spec.is_guard limit }
{
    matches!(limit, Limit::Guard)
}

/// The operands and operators that end here, as one.
pub fn chain_of(alloc: Global, context: Context) -> Result<Ready, NoMemory>
    ensures { IfOk result (λ now. now ≡ spec.chain_of context) }
{
    let Context {
        heads: _,
        free,
        operations,
        sign,
        tail,
        limit: _,
    } = context;
    chain_at(alloc, operations, sign, tail, free)
}

// The generator with what was read last of it: where it is from, or a guard. A guard is no expression: what is free in
// it stays so.
fn with_last(
    alloc: Global,
    part: Part,
    outer: Context,
    context: Context,
) -> Result<Parted, NoMemory>
    ensures { IfOk result (λ now. now ≡ spec.with_last part outer context) }
{
    if is_guard(context.limit) {
        let guard = beside!(outer; chain_of(alloc, context));
        with_guard(part, outer, guard)
    } else {
        let from = beside!(outer; expr_at(alloc, context));
        with_from(part, outer, from)
    }
}

/// Generators, and what stands before the `for`.
#[derive(Debug, Drop)]
pub struct Finished {
    pub generators: Row<Generator>,
    pub outer: Context,
}

fn with_generator(generators: Row<Generator>, parted: Parted) -> Result<Finished, NoMemory>
    ensures { IfOk result (λ now. now ≡ spec.with_generator generators parted) }
{
    let Parted { part, outer } = parted;
    let mut generators = generators;
    let generator = Generator {
        pattern: part.pattern,
        from: part.from,
        guards: part.guards,
    };
    beside!(outer; generators.push(generator));
    Ok(Finished { generators, outer })
}

/// The generators with the one that ends here, and what stands before them.
pub fn finish(
    alloc: Global,
    generators: Row<Generator>,
    part: Part,
    outer: Context,
    context: Context,
) -> Result<Finished, NoMemory>
    ensures { IfOk result (λ now. now ≡ spec.finished generators part outer context) }
{
    with_generator(generators, with_last(alloc, part, outer, context)?)
}

fn in_generators(frames: &Stack<Frame>) -> bool
    ensures { result ≡ spec.in_generators frames.now }
{
    match frames.top() {
        Some(frame) => matches!(frame.bracket, Bracket::Generators(..)),
        None => false,
    }
}

fn is_behind_semicolon(context: &Context) -> bool
    ensures { result ≡ spec.is_behind_semicolon context.now }
{
    is_semi(&context.tail) && !waits(context)
}

fn begins_pattern(symbol: Symbol) -> bool
    ensures { result ≡ spec.begins_pattern symbol }
{
    matches!(symbol, Symbol::Id | Symbol::Underscore | Symbol::OpenRound)
}

fn has_newline(before: Newline) -> bool
    ensures { result ≡ newline_counts before }
{
    !matches!(before, Newline::No)
}

/// Whether the token begins the next generator.
pub fn begins_generator(
    frames: &Stack<Frame>,
    context: &Context,
    symbol: Symbol,
    before: Newline,
) -> bool
    ensures { result ≡ spec.begins_generator frames.now context.now symbol before }
{
    (is_behind_semicolon(context) || (is_expr(context) && has_newline(before)))
        && in_generators(frames)
        && begins_pattern(symbol)
}

/// Whether `if` begins a guard, and a `;` may stand here.
pub fn ends_part(frames: &Stack<Frame>, context: &Context) -> bool
    ensures { result ≡ spec.ends_part frames.now context.now }
{
    in_generators(frames) && (is_behind_semicolon(context) || is_expr(context))
}

fn generators_frame(generators: Row<Generator>, part: Part, start: u32, outer: Context) -> Frame
    ensures { result ≡ spec.generators_frame generators part start outer }
{
    Frame {
        bracket: Bracket::Generators(generators, part),
        start,
        outer,
    }
}

/// The state before the pattern of the next generator.
pub fn next_generator(
    alloc: Global,
    frames: Stack<Frame>,
    context: Context,
) -> Result<Option<State>, NoMemory>
    ensures { IfOk result (λ now. now ≡ spec.next_generator frames context) }
{
    let mut frames = frames;
    let Some(frame) = frames.pop() else {
        drop(context);
        return Ok(None);
    };
    let Frame {
        bracket,
        start,
        outer,
    } = frame;
    match bracket {
        Bracket::Generators(generators, part) => {
            let Finished { generators, outer } = finish(alloc, generators, part, outer, context)?;
            frames.push(generators_frame(generators, nothing_yet(alloc), start, outer))?;
            Ok(Some(State {
                frames,
                context: next_pattern(alloc),
            }))
        }
        bracket => {
            drop(bracket);
            drop(outer);
            drop(context);
            Ok(None)
        }
    }
}

/// The state after the `if` of a guard.
pub fn guarded(
    alloc: Global,
    frames: Stack<Frame>,
    context: Context,
) -> Result<Option<State>, NoMemory>
    ensures { IfOk result (λ now. now ≡ spec.guarded frames context) }
{
    let mut frames = frames;
    let Some(frame) = frames.pop() else {
        drop(context);
        return Ok(None);
    };
    let Frame {
        bracket,
        start,
        outer,
    } = frame;
    match bracket {
        Bracket::Generators(generators, part) => {
            let Parted { part, outer } = with_last(alloc, part, outer, context)?;
            frames.push(generators_frame(generators, part, start, outer))?;
            Ok(Some(State {
                frames,
                context: fresh(alloc, Limit::Guard),
            }))
        }
        bracket => {
            drop(bracket);
            drop(outer);
            drop(context);
            Ok(None)
        }
    }
}

fn guard_separated(alloc: Global, guard: Ready) -> Context
    ensures { result ≡ spec.guard_separated guard }
{
    let Ready { operand, free } = guard;
    in_context(
        alloc,
        Stack::new(alloc),
        free,
        Tail::AtSemi(operand, false),
        Limit::Guard,
    )
}

/// The context after a `;` between generators or before a guard.
pub fn separated(alloc: Global, context: Context) -> Result<Context, NoMemory>
    ensures { IfOk result (λ now. now ≡ spec.separated context) }
{
    if is_guard(context.limit) {
        Ok(guard_separated(alloc, chain_of(alloc, context)?))
    } else {
        with_semicolon(alloc, context)
    }
}

fn placeholders(context: Context) -> Row<Span>
    ensures { result ≡ context.free }
{
    let Context {
        heads: _,
        free,
        operations: _,
        sign: _,
        tail,
        limit: _,
    } = context;
    drop(tail);
    free
}

fn generators_in(
    alloc: Global,
    bracket: Bracket,
    outer: Context,
    context: Context,
) -> Result<Option<Generators>, NoMemory>
    ensures { IfOk result (λ now. now ≡ spec.generators_in bracket outer context) }
{
    match bracket {
        Bracket::Generators(generators, part) => {
            let Finished { generators, outer } = finish(alloc, generators, part, outer, context)?;
            Ok(Some(Generators {
                generators,
                free: placeholders(outer),
            }))
        }
        bracket => {
            drop(bracket);
            drop(outer);
            drop(context);
            Ok(None)
        }
    }
}

/// The generators, where what was read is whole.
pub fn generators_at(alloc: Global, state: State) -> Result<Option<Generators>, NoMemory>
    ensures { IfOk result (λ now. now ≡ spec.generators_at state.frames state.context) }
{
    let State {
        mut frames,
        context,
    } = state;
    match frames.pop() {
        None => {
            drop(context);
            Ok(None)
        }
        Some(frame) => generators_in(alloc, frame.bracket, frame.outer, context),
    }
}

fn is_one(frames: &Stack<Frame>) -> bool
    ensures { result ≡ spec.is_one_frame frames.now }
{
    frames.top().is_some() && frames.peek(1).is_none()
}

/// Whether what was read are generators, with no bracket open.
pub fn are_generators(state: &State) -> bool
    ensures { result ≡ spec.are_generators state.now }
{
    is_one(&state.frames) && is_expr(&state.context)
}
