//! Texts that nest as deep as they can.

use crate::notation::tokens_of;
use parse_exprs::parse_expr;
use parse_parts::Part;
use pc_terms::{MAX_SOURCE_BYTES, NoMemory, Text};
use std::alloc::Global;
use std::process::Abort;
use std::test::Fail;

/// How long the texts are.
const BYTES: usize = 262_144;

// How often so many bytes have room beside these.
fn times(beside: usize, each: usize) -> usize {
    BYTES.saturating_sub(beside).checked_div(each).unwrap_or(0)
}

// A beginning, and as many of one piece as a source can have behind it.
fn filled(alloc: Global, begin: &str, piece: &str) -> Result<Text, NoMemory> {
    let mut text = Text::new(alloc, begin)?;
    for _ in 0..times(begin.len(), piece.len()) {
        text.push_str(piece)?;
    }
    Ok(text)
}

// An opening piece and a closing one, each as often as a source can have both, around a middle.
fn nested(alloc: Global, open: &str, middle: &str, close: &str) -> Result<Text, NoMemory> {
    let mut text = Text::new(alloc, "")?;
    let count = times(middle.len(), open.len().saturating_add(close.len()));
    for _ in 0..count {
        text.push_str(open)?;
    }
    text.push_str(middle)?;
    for _ in 0..count {
        text.push_str(close)?;
    }
    Ok(text)
}

#[derive(Clone, Copy, Debug, PartialEq, Eq)]
enum Kind {
    Read,
    NotHere,
    TooHigh,
}

fn answer_to(rt: &impl Abort, alloc: Global, text: &Text) -> Result<(Kind, u32, usize), Fail> {
    assert!(rt; text.len() <= MAX_SOURCE_BYTES);
    let tokens = tokens_of(alloc, text.as_str())?;
    let count = tokens.tokens.len();
    Ok(match parse_expr(alloc, &tokens, 0)? {
        Part::Read(_, behind) => (Kind::Read, behind, count),
        Part::NotHere(bad) => (Kind::NotHere, bad, count),
        Part::TooHigh(behind) => (Kind::TooHigh, behind, count),
    })
}

/// Where the answer points: at this token, or as many before the end of the text.
#[derive(Clone, Copy, Debug, PartialEq, Eq)]
enum At {
    Token(usize),
    BeforeEnd(usize),
}

fn token_at(at: At, count: usize) -> usize {
    match at {
        At::Token(token) => token,
        At::BeforeEnd(tokens) => count.saturating_sub(tokens),
    }
}

/// A beginning and a piece; what is answered, and where it points.
type Repeated = (&'static str, &'static str, Kind, At);

static BRACKETS: [Repeated; 4] = [
    ("", "{", Kind::NotHere, At::BeforeEnd(0)),
    ("", "(", Kind::NotHere, At::BeforeEnd(0)),
    ("", "f{", Kind::Read, At::Token(1)),
    ("", "new A(", Kind::Read, At::Token(2)),
];

static LAMBDAS: [Repeated; 2] = [
    ("", "x=>", Kind::TooHigh, At::BeforeEnd(1)),
    ("", "a=", Kind::TooHigh, At::BeforeEnd(1)),
];

static HEADS: [Repeated; 5] = [
    ("", "if(a)", Kind::NotHere, At::BeforeEnd(0)),
    ("", "throw ", Kind::NotHere, At::BeforeEnd(0)),
    ("", "try ", Kind::NotHere, At::BeforeEnd(0)),
    ("", "do ", Kind::NotHere, At::BeforeEnd(0)),
    ("", "for(x<-a)", Kind::NotHere, At::BeforeEnd(0)),
];

static OPERATORS: [Repeated; 3] = [
    ("", "a.", Kind::TooHigh, At::BeforeEnd(0)),
    ("", "a+", Kind::TooHigh, At::BeforeEnd(1)),
    ("", "a::", Kind::TooHigh, At::BeforeEnd(1)),
];

static PLACEHOLDERS: [Repeated; 2] = [
    ("", "_+", Kind::TooHigh, At::BeforeEnd(1)),
    ("", "_::", Kind::TooHigh, At::BeforeEnd(1)),
];

static LISTS: [Repeated; 4] = [
    ("x match{", "case x=>", Kind::Read, At::Token(1)),
    ("{", "a\n", Kind::NotHere, At::BeforeEnd(0)),
    ("", "a[b]", Kind::Read, At::Token(4)),
    ("for(x<-a;", "x<-a;", Kind::NotHere, At::BeforeEnd(0)),
];

fn again_and_again(rt: &impl Abort, alloc: Global, rows: &[Repeated]) -> Result<(), Fail> {
    for (begin, piece, want, at) in rows {
        let text = filled(alloc, begin, piece)?;
        let (found, token, count) = answer_to(rt, alloc, &text)?;
        assert_eq!(rt; found, *want, "{piece}");
        assert_eq!(rt; token as usize, token_at(*at, count), "{piece}");
    }
    Ok(())
}

#[test]
fn brackets_again_and_again(rt: HostRuntime) -> Result<(), Fail> {
    again_and_again(&rt, rt.alloc(), &BRACKETS)
}

#[test]
fn lambdas_again_and_again(rt: HostRuntime) -> Result<(), Fail> {
    again_and_again(&rt, rt.alloc(), &LAMBDAS)
}

#[test]
fn heads_again_and_again(rt: HostRuntime) -> Result<(), Fail> {
    again_and_again(&rt, rt.alloc(), &HEADS)
}

#[test]
fn operators_again_and_again(rt: HostRuntime) -> Result<(), Fail> {
    again_and_again(&rt, rt.alloc(), &OPERATORS)
}

#[test]
fn placeholders_again_and_again(rt: HostRuntime) -> Result<(), Fail> {
    again_and_again(&rt, rt.alloc(), &PLACEHOLDERS)
}

#[test]
fn lists_again_and_again(rt: HostRuntime) -> Result<(), Fail> {
    again_and_again(&rt, rt.alloc(), &LISTS)
}

/// What opens, what stands innermost, what closes; what is answered, and where it points.
type Nested = (&'static str, &'static str, &'static str, Kind, At);

static NESTED_BRACES: [Nested; 2] = [
    ("{", "a", "}", Kind::TooHigh, At::BeforeEnd(0)),
    ("f{", "a", "}", Kind::TooHigh, At::BeforeEnd(0)),
];

static NESTED_CASES: [Nested; 2] = [
    ("{case x=>", "a", "}", Kind::TooHigh, At::BeforeEnd(0)),
    ("{new A\n{", "a", "}\nb}", Kind::TooHigh, At::BeforeEnd(0)),
];

static NESTED_PARENTHESES: [Nested; 3] = [
    ("(", "a", ")", Kind::Read, At::BeforeEnd(0)),
    ("new A(", "a", ")", Kind::TooHigh, At::BeforeEnd(0)),
    ("f(_,", "a", ")", Kind::TooHigh, At::BeforeEnd(0)),
];

// the statement within is Broken, and the last `b` stands behind the block
static NESTED_BROKEN: [Nested; 1] = [("{", "a", "} b", Kind::Read, At::BeforeEnd(1))];

fn as_deep_as_can_be(rt: &impl Abort, alloc: Global, rows: &[Nested]) -> Result<(), Fail> {
    for (open, middle, close, want, at) in rows {
        let text = nested(alloc, open, middle, close)?;
        let (found, token, count) = answer_to(rt, alloc, &text)?;
        assert_eq!(rt; found, *want, "{open}");
        assert_eq!(rt; token as usize, token_at(*at, count), "{open} {close}");
    }
    Ok(())
}

#[test]
fn nested_braces(rt: HostRuntime) -> Result<(), Fail> {
    as_deep_as_can_be(&rt, rt.alloc(), &NESTED_BRACES)
}

#[test]
fn nested_cases_and_bodies(rt: HostRuntime) -> Result<(), Fail> {
    as_deep_as_can_be(&rt, rt.alloc(), &NESTED_CASES)
}

#[test]
fn nested_parentheses(rt: HostRuntime) -> Result<(), Fail> {
    as_deep_as_can_be(&rt, rt.alloc(), &NESTED_PARENTHESES)
}

#[test]
fn nested_and_broken(rt: HostRuntime) -> Result<(), Fail> {
    as_deep_as_can_be(&rt, rt.alloc(), &NESTED_BROKEN)
}
