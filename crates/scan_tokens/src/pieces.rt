//! A text as its tokens and problems, piece by piece. Where newlines count is not said yet.

ghost use Rattle.std.specs.Prelude.{◌≡◌, ◌≤◌, ◌<◌, ◌^◌, ◌++◌, length, OnOk, IfOk};
ghost use Rattle.std.specs.Str.{chars};
ghost use Rattle.scan_tokens.specs.Pieces as spec;

use crate::characters::{bytes_up_to, offset};
use crate::kinds::kind_of;
use crate::problems::{add_problems, fault_of};
use crate::reading::read;
use crate::shapes::Shape;
use crate::tokens::{Newline, Token, TokenKind};
use pc_terms::{NoMemory, Problem, Row, Span};
use std::alloc::Global;

fn span_of(total: usize, from: &str, after: &str) -> Span
    requires small { total < 2 ^ 32 }
    requires from_within { length from.now ≤ total }
    requires after_within { length after.now ≤ total }
    ensures { result ≡ spec.span_of total (chars from.now) (chars after.now) }
{
    Span {
        start: offset(total, from),
        end: offset(total, after),
    }
}

fn add_token(tokens: &mut Row<Token>, kind: Option<TokenKind>, span: Span) -> Result<(), NoMemory>
    ensures { OnOk result (tokens.new ≡ tokens.old ++ spec.token_at kind span) }
{
    match kind {
        None => Ok(()),
        Some(kind) => tokens.push(Token {
            kind,
            span,
            before: Newline::No,
        }),
    }
}

/// Adds the token and the problems of the piece at the front of the rest of a text of `total` bytes, and gives what comes after it.
#[tactic(auto, unfolding(crate::specs::Pieces::token_of, crate::specs::Pieces::problems_of))]
fn add_piece<'a>(
    alloc: Global,
    total: usize,
    rest: &'a str,
    tokens: &mut Row<Token>,
    problems: &mut Row<Problem>,
) -> Result<&'a str, NoMemory>
    requires small { total < 2 ^ 32 }
    requires within { length rest.now ≤ total }
    ensures tokens { OnOk result (tokens.new ≡ tokens.old ++ spec.token_of total (spec.piece_at (chars rest.now))) }
    ensures problems { OnOk result (problems.new ≡ problems.old ++ spec.problems_of total (spec.piece_at (chars rest.now))) }
    ensures after { IfOk result (λ after. chars after.now ≡ (spec.piece_at (chars rest.now)).after) }
    ensures moves { IfOk result (λ after. 0 < length rest.now → length after.now < length rest.now) }
{
    let (shape, after) = read(rest);
    if matches!(shape, Shape::Space) {
        return Ok(after);
    }
    let bytes = bytes_up_to(rest, after);
    let span = span_of(total, rest, after);
    add_token(tokens, kind_of(shape, bytes), span)?;
    if matches!(shape, Shape::Plain | Shape::Operator | Shape::Delimiter) {
        return Ok(after);
    }
    add_problems(
        alloc,
        problems,
        total,
        shape,
        rest,
        fault_of(shape, bytes),
        span,
    )?;
    Ok(after)
}

/// The tokens of a text and its problems, piece by piece.
pub fn divide(alloc: Global, text: &str) -> Result<(Row<Token>, Row<Problem>), NoMemory>
    requires { length text.now < 2 ^ 32 }
    ensures tokens { IfOk result (λ found. found.0 ≡ spec.tokens_in (length text.now) (chars text.now)) }
    ensures problems { IfOk result (λ found. found.1 ≡ spec.problems_in (length text.now) (chars text.now)) }
{
    let mut tokens = Row::new(alloc);
    let mut problems = Row::new(alloc);
    let mut rest = text;
    while !rest.is_empty() {
        rest = add_piece(alloc, text.len(), rest, &mut tokens, &mut problems)?;
    }
    Ok((tokens, problems))
}
