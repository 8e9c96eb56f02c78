//! What is wrong with a piece of a text.

ghost use Rattle.std.specs.Prelude.{◌≡◌, ◌≤◌, ◌<◌, ◌^◌, ◌++◌, length, map, false, OnOk, IfOk, codes};
ghost use Rattle.std.specs.Str.{chars};
ghost use Rattle.scan_tokens.specs.Pieces as spec;
ghost use Rattle.scan_tokens.specs.Literals.{bad_escapes};
ghost use Rattle.scan_tokens.specs.declared.problems.Fault.TheVariants.{NumberOrEscape};

use crate::characters::{first, offset, past_one};
use crate::kinds::number_kind;
use crate::literals::is_escape;
use crate::shapes::Shape;
use crate::tokens::TokenKind;
use pc_terms::{Code, NoMemory, Problem, Row, Span, Text};
use std::alloc::Global;

#[derive(Clone, Copy, Debug)]
pub enum Fault {
    Character,
    Literal,
    Comment,
    NumberOrEscape,
    Interpolated,
}

pub fn fault_of(shape: Shape, bytes: &[u8]) -> Option<Fault>
    ensures { result ≡ spec.fault_of shape bytes.now }
{
    match shape {
        Shape::OpenComment => Some(Fault::Comment),
        Shape::Number => match number_kind(bytes) {
            TokenKind::Error => Some(Fault::NumberOrEscape),
            _ => None,
        },
        Shape::Apostrophe | Shape::OpenString => Some(Fault::Literal),
        Shape::Interpolated => Some(Fault::Interpolated),
        Shape::Illegal => Some(Fault::Character),
        _ => None,
    }
}

fn code_of(fault: Fault) -> Code
    ensures { result ≡ spec.code_of fault }
{
    match fault {
        Fault::Character => Code::S1,
        Fault::Literal => Code::S2,
        Fault::Comment => Code::S3,
        Fault::NumberOrEscape => Code::S4,
        Fault::Interpolated => Code::S5,
    }
}

fn message_of(fault: Fault) -> &'static str
    ensures { result.now ≡ spec.message_of fault }
{
    match fault {
        Fault::Character => "illegal character",
        Fault::Literal => "unclosed literal",
        Fault::Comment => "unclosed comment",
        Fault::NumberOrEscape => "bad number or escape",
        Fault::Interpolated => "interpolated string",
    }
}

/// A problem of a text, at a span.
pub fn problem_of(alloc: Global, fault: Fault, span: Span) -> Result<Problem, NoMemory>
    ensures { IfOk result (λ problem. problem ≡ spec.problem_of fault span) }
{
    let text = Text::new(alloc, message_of(fault))?;
    Ok(Problem {
        code: code_of(fault),
        span,
        text,
    })
}

/// Adds the bad escapes of a literal, whose text stands here without the quote that begins it.
fn add_bad_escapes(
    alloc: Global,
    problems: &mut Row<Problem>,
    total: usize,
    quote: char,
    text: &str,
) -> Result<(), NoMemory>
    requires small { total < 2 ^ 32 }
    requires within { length text.now ≤ total }
    ensures { OnOk result (problems.new ≡ problems.old ++ map (spec.problem_of NumberOrEscape) (bad_escapes total quote false (chars text.now))) }
{
    let mut rest = text;
    let mut escaped = false;
    while let Some((c, after)) = first(rest) {
        if escaped {
            if !is_escape(rest) {
                let span = Span {
                    start: offset(total, rest).saturating_sub(1),
                    end: offset(total, after),
                };
                problems.push(problem_of(alloc, Fault::NumberOrEscape, span)?)?;
            }
            escaped = false;
        } else if c == quote {
            return Ok(());
        } else {
            escaped = c == '\\';
        }
        rest = after;
    }
    Ok(())
}

/// Adds what is wrong with a piece that begins with `from` and has this span: its fault as a whole, and the bad escapes in it.
pub fn add_problems(
    alloc: Global,
    problems: &mut Row<Problem>,
    total: usize,
    shape: Shape,
    from: &str,
    fault: Option<Fault>,
    span: Span,
) -> Result<(), NoMemory>
    requires small { total < 2 ^ 32 }
    requires within { length from.now ≤ total }
    ensures { OnOk result (problems.new ≡ problems.old ++ spec.problems_at total shape (chars from.now) fault span) }
{
    if let Some(fault) = fault {
        problems.push(problem_of(alloc, fault, span)?)?;
    }
    match shape {
        Shape::Character => add_bad_escapes(alloc, problems, total, '\'', past_one(from)),
        Shape::LineString => add_bad_escapes(alloc, problems, total, '"', past_one(from)),
        _ => Ok(()),
    }
}
