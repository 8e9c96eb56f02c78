//! Heads that wait for an expression: pushed, and folded up to the one to which a word belongs.

ghost use Rattle.std.specs.Prelude.{◌≡◌, IfOk};
ghost use Rattle.expr_frames.specs.Heads as spec;

use crate::beside;
use expr_tails::ending::{headed, innermost, is_semi};
use expr_tails::states::{Begun, Context, Head, HeadKind, Limit, Reach, Tail};
use expr_tails::symbols::Word;
use expr_tails::tails::{Ready, is_whole, with_spans};
use parse_parts::built::{Kids, joined};
use parse_parts::stack::Stack;
use parse_parts::steps::alone;
use parse_patterns::states::Operand;
use pc_terms::{NoMemory, Row, Span};
use std::alloc::Global;

fn nothing() -> Reach
    ensures { result ≡ spec.nothing }
{
    Reach {
        takes_else: false,
        takes_catch: false,
        takes_finally: false,
        waits: false,
    }
}

/// What the heads can take.
pub fn reach_of(heads: &Stack<Head>) -> Reach
    ensures { result ≡ spec.reach_of heads.now }
{
    match heads.top() {
        Some(head) => head.reach,
        None => nothing(),
    }
}

fn reach_with(below: Reach, kind: &HeadKind) -> Reach
    ensures { result ≡ spec.reach_with below kind.now }
{
    match kind {
        HeadKind::IfThen(_) => Reach {
            takes_else: true,
            ..below
        },
        HeadKind::Try => Reach {
            takes_catch: true,
            takes_finally: true,
            ..below
        },
        HeadKind::Do => Reach {
            waits: true,
            ..nothing()
        },
        _ => below,
    }
}

/// The context after one head more. Its placeholders so far are the head's.
pub fn with_head(
    alloc: Global,
    context: Context,
    start: u32,
    kind: HeadKind,
) -> Result<Context, NoMemory>
    ensures { IfOk result (λ now. now ≡ spec.with_head context start kind) }
{
    let Context {
        heads,
        free,
        operations,
        sign,
        tail,
        limit,
    } = context;
    drop(tail);
    let mut heads = heads;
    let reach = reach_with(reach_of(&heads), &kind);
    heads.push(Head {
        start,
        kind,
        free,
        reach,
    })?;
    Ok(Context {
        heads,
        free: Row::new(alloc),
        operations,
        sign,
        tail: Tail::Begin,
        limit,
    })
}

fn is_after_one(tail: &Tail) -> bool
    ensures { result ≡ spec.is_after_one tail.now }
{
    match tail {
        Tail::AtSemi(_, is_one) => *is_one,
        _ => is_whole(tail),
    }
}

fn is_caught(tail: &Tail) -> bool
    ensures { result ≡ spec.is_caught tail.now }
{
    matches!(tail, Tail::AtCaught(..))
}

fn is_taken_in(reach: Reach, tail: &Tail, word: Word) -> bool
    ensures { result ≡ spec.is_taken_in reach tail.now word }
{
    match word {
        Word::Else => is_after_one(tail) && reach.takes_else,
        Word::Catch => is_whole(tail) && reach.takes_catch,
        Word::Finally => is_caught(tail) || (is_whole(tail) && reach.takes_finally),
        Word::While => (is_whole(tail) || is_semi(tail)) && reach.waits,
        _ => false,
    }
}

/// Whether the word belongs to a head.
pub fn is_taken(context: &Context, word: Word) -> bool
    ensures { result ≡ spec.is_taken context.now word }
{
    is_taken_in(reach_of(&context.heads), &context.tail, word)
}

fn takes(kind: &HeadKind, word: Word) -> bool
    ensures { result ≡ spec.takes kind.now word }
{
    match kind {
        HeadKind::IfThen(_) => matches!(word, Word::Else),
        HeadKind::Try => matches!(word, Word::Catch | Word::Finally),
        HeadKind::Do => matches!(word, Word::While),
        _ => false,
    }
}

/// A context in which nothing but a tail was read of an expression.
pub fn in_context(
    alloc: Global,
    heads: Stack<Head>,
    free: Row<Span>,
    tail: Tail,
    limit: Limit,
) -> Context
    ensures { result ≡ spec.in_context heads free tail limit }
{
    Context {
        heads,
        free,
        operations: Stack::new(alloc),
        sign: None,
        tail,
        limit,
    }
}

fn test_of(kind: HeadKind) -> Option<Kids>
    ensures { result ≡ spec.test_of kind }
{
    match kind {
        HeadKind::IfThen(kids) => kids,
        kind => {
            drop(kind);
            None
        }
    }
}

fn begun_by(alloc: Global, start: u32, body: Operand) -> Result<Begun, NoMemory>
    ensures { IfOk result (λ now. now ≡ spec.begun_by start body) }
{
    Ok(Begun {
        start,
        kids: alone(alloc, body.tall)?,
    })
}

fn behind_else(
    alloc: Global,
    context: Context,
    start: u32,
    kind: HeadKind,
    body: Operand,
) -> Result<Context, NoMemory>
    ensures { IfOk result (λ now. now ≡ spec.behind_else context start kind body) }
{
    let kids = beside!(context; joined(test_of(kind), body.tall));
    with_head(alloc, context, start, HeadKind::IfElse(kids))
}

fn behind_finally(alloc: Global, context: Context, begun: Begun) -> Result<Context, NoMemory>
    ensures { IfOk result (λ now. now ≡ spec.behind_finally context begun) }
{
    with_head(alloc, context, begun.start, HeadKind::Finally(begun.kids))
}

// The context after the word, which the head takes.
fn behind_head(
    alloc: Global,
    heads: Stack<Head>,
    head: Head,
    word: Word,
    body: Ready,
    limit: Limit,
) -> Result<Context, NoMemory>
    ensures { IfOk result (λ now. now ≡ spec.behind_head heads head word body limit) }
{
    let Head {
        start,
        kind,
        free,
        reach: _,
    } = head;
    let free = beside!(kind; with_spans(free, body.free));
    match word {
        Word::Else => {
            let context = in_context(alloc, heads, free, Tail::Begin, limit);
            behind_else(alloc, context, start, kind, body.operand)
        }
        Word::Catch => {
            drop(kind);
            let begun = begun_by(alloc, start, body.operand)?;
            Ok(in_context(alloc, heads, free, Tail::AtCatch(begun), limit))
        }
        Word::Finally => {
            drop(kind);
            let begun = begun_by(alloc, start, body.operand)?;
            let context = in_context(alloc, heads, free, Tail::Begin, limit);
            behind_finally(alloc, context, begun)
        }
        _ => {
            drop(kind);
            let begun = begun_by(alloc, start, body.operand)?;
            Ok(in_context(alloc, heads, free, Tail::AtUntil(begun), limit))
        }
    }
}

/// The head that takes a word, the heads around it, and the expression after it.
#[derive(Debug, Drop)]
pub struct Taken {
    pub head: Option<Head>,
    pub heads: Stack<Head>,
    pub body: Ready,
}

// The heads inside the one that takes the word are folded.
fn fold_heads(alloc: Global, heads: Stack<Head>, word: Word, body: Ready) -> Result<Taken, NoMemory>
    ensures { IfOk result (λ now. now ≡ spec.taken heads word body) }
{
    let mut heads = heads;
    let mut body = body;
    while let Some(head) = heads.pop() {
        if takes(&head.kind, word) {
            return Ok(Taken {
                head: Some(head),
                heads,
                body,
            });
        }
        body = headed(alloc, head, body)?;
    }
    Ok(Taken {
        head: None,
        heads,
        body,
    })
}

fn behind_taken(alloc: Global, taken: Taken, word: Word, limit: Limit) -> Result<Context, NoMemory>
    ensures { IfOk result (λ now. now ≡ spec.behind_taken taken word limit) }
{
    let Taken { head, heads, body } = taken;
    match head {
        Some(head) => behind_head(alloc, heads, head, word, body, limit),
        None => Ok(in_context(alloc, heads, body.free, Tail::Begin, limit)),
    }
}

fn behind_caught(
    alloc: Global,
    heads: Stack<Head>,
    free: Row<Span>,
    tail: Tail,
    limit: Limit,
) -> Result<Context, NoMemory>
    ensures { IfOk result (λ now. now ≡ spec.behind_caught heads free tail limit) }
{
    match tail {
        Tail::AtCaught(begun, _) => {
            let context = in_context(alloc, heads, free, Tail::Begin, limit);
            behind_finally(alloc, context, begun)
        }
        tail => Ok(in_context(alloc, heads, free, tail, limit)),
    }
}

fn is_finally(word: Word) -> bool
    ensures { result ≡ spec.is_finally word }
{
    matches!(word, Word::Finally)
}

/// The context after `else`, `catch`, `finally` or the `while` of a `do`, which a head takes.
#[tactic(auto, unfolding(crate::specs::Heads::with_word))]
pub fn with_word(alloc: Global, context: Context, word: Word) -> Result<Context, NoMemory>
    ensures { IfOk result (λ now. now ≡ spec.with_word context word) }
{
    let Context {
        heads,
        free,
        operations,
        sign,
        tail,
        limit,
    } = context;
    if is_finally(word) && is_caught(&tail) {
        return behind_caught(alloc, heads, free, tail, limit);
    }
    let body = innermost(alloc, operations, sign, tail, free)?;
    behind_taken(alloc, fold_heads(alloc, heads, word, body)?, word, limit)
}

/// The context after a `;` that a head may cross.
pub fn with_semicolon(alloc: Global, context: Context) -> Result<Context, NoMemory>
    ensures { IfOk result (λ now. now ≡ spec.with_semicolon context) }
{
    let Context {
        heads,
        free,
        operations,
        sign,
        tail,
        limit,
    } = context;
    let is_first = !is_semi(&tail);
    let Ready { operand, free } = innermost(alloc, operations, sign, tail, free)?;
    Ok(in_context(alloc, heads, free, Tail::AtSemi(operand, is_first), limit))
}
