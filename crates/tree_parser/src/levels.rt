//! The open lists of a unit: those around which no expression is, and the braces of expressions in the innermost one.

ghost use Rattle.std.specs.Prelude.{◌≡◌, ◌<◌, ◌∷◌, Some, None, IfOk, length, map};
ghost use Rattle.std.specs.List.{All};
ghost use Rattle.scan_tokens.specs.Words.{Bytes};
ghost use Rattle.source_grammar.specs.Lexemes.{lexeme_of};
ghost use Rattle.parse_parts.specs.Words.{IsCut};
ghost use Rattle.expr_steps.specs.Reading.{Pair};
ghost use Rattle.template_steps.specs.Statements as statements;
ghost use Rattle.template_steps.specs.Pieces.{IsPieceOf, OfBody, OfItem, part_in, parts_in};
ghost use Rattle.tree_parser.specs.Headings.{behind_braces as behind};
ghost use Rattle.tree_parser.specs.Levels as spec;
ghost use Rattle.tree_parser.specs.Levels.{AreLevelsOf, IsLevelOf, level_in, levels_in};
ghost use Rattle.tree_parser.specs.Plain as plain_spec;

use crate::blocks::block_of;
use crate::headings::{BodyKind, Heading, behind_braces, body_at, heading_behind, no_heading};
use crate::lists::built_list;
use crate::plain::{Plain, PlainLevels, plain_begun, plain_braces, plain_step};
use expr_tails::items::Braces;
use expr_tails::symbols::{Symbol, read_symbol};
use parse_exprs::contents::Opening;
use parse_exprs::items::Item;
use parse_exprs::openings::opening_behind;
use parse_parts::stack::Stack;
use parse_parts::words::word_in;
use pc_terms::{NoMemory, Row, Span};
use scan_tokens::{Newline, Token};
use sqlite_items::Boxed;
use std::alloc::Global;
use template_steps::pieces::{Body, Contents, Piece, symbol_in};
use template_steps::statements::ListKind;

/// Where the brace of a list stands: its token, and what is before it.
#[derive(Clone, Copy, Debug)]
pub struct Place {
    pub start: u32,
    pub before: Newline,
    pub token: usize,
    pub opening: Opening,
    /// Whether the braces may be those of an expression as well.
    pub parted: bool,
}

/// An open list around which no expression is.
#[derive(Debug, Drop)]
pub struct Level {
    pub kind: ListKind,
    pub place: Place,
    pub heading: Heading,
    pub pieces: Row<Piece>,
}

/// The list that is read, those around it, the innermost on top, and the open braces of expressions in it.
#[derive(Debug, Drop)]
pub struct Levels {
    pub current: Level,
    pub around: Stack<Level>,
    pub plain: Option<PlainLevels>,
}

fn level_at(alloc: Global, kind: ListKind, place: Place) -> Level
    ensures is { (text : Bytes) → level_in text result ≡ spec.level_at kind place }
    ensures words { (text : Bytes) → IsLevelOf text result }
{
    Level {
        kind,
        place,
        heading: no_heading(),
        pieces: Row::new(alloc),
    }
}

/// The levels before the first statement of a unit.
pub fn begun(alloc: Global) -> Levels
    ensures is { (text : Bytes) → levels_in text result ≡ spec.begun }
    ensures words { (text : Bytes) → AreLevelsOf text result }
{
    let place = Place {
        start: 0,
        before: Newline::No,
        token: 0,
        opening: Opening::Other,
        parted: false,
    };
    Levels {
        current: level_at(alloc, ListKind::Unit, place),
        around: Stack::new(alloc),
        plain: None,
    }
}

fn with_piece(level: Level, piece: Piece, heading: Heading) -> Result<Level, NoMemory>
    ensures is { IfOk result (λ now. (text : Bytes) → level_in text now ≡ spec.with_part (level_in text level) (part_in text piece) heading) }
    ensures words { IfOk result (λ now. (text : Bytes) → IsLevelOf text level → IsPieceOf text piece → IsLevelOf text now) }
{
    let mut pieces = level.pieces;
    pieces.push(piece)?;
    Ok(Level {
        kind: level.kind,
        place: level.place,
        heading,
        pieces,
    })
}

#[tactic(auto, using(crate::proofs::Openings::opening_of_last))]
fn opening_of(text: &str, pieces: &Row<Piece>) -> Opening
    requires { All (IsPieceOf text.now) pieces.now }
    ensures { result ≡ spec.opening_of Opening.Other (parts_in text.now pieces.now) }
{
    match pieces.as_slice().split_last() {
        Some((last, _)) => opening_behind(symbol_in(text, last)),
        None => Opening::Other,
    }
}

// ---- bodies

fn list_in(body: BodyKind) -> ListKind
    ensures { result ≡ spec.list_in body }
{
    match body {
        BodyKind::Template => ListKind::Template,
        BodyKind::Procedure => ListKind::Procedure,
    }
}

fn contents_of(
    alloc: Global,
    text: &str,
    kind: ListKind,
    span: Span,
    pieces: Row<Piece>,
) -> Result<Contents, NoMemory>
    requires { All (IsPieceOf text.now) pieces }
    ensures { IfOk result (λ contents. contents ≡ spec.contents_of kind span (parts_in text.now pieces)) }
{
    Ok(match kind {
        ListKind::Procedure => Contents::Procedure(block_of(alloc, text, span, pieces)?),
        ListKind::Template | ListKind::Unit => Contents::Template(
            built_list(alloc, text, ListKind::Template, pieces)?.kids,
        ),
    })
}

fn is_unit(kind: ListKind) -> bool
    ensures { result ≡ statements.is_unit kind }
{
    matches!(kind, ListKind::Unit)
}

// The same braces as an expression has them, where they may stand in one.
fn plain_reading(
    alloc: Global,
    text: &str,
    tokens: &[Token],
    place: Place,
    at: usize,
    outer: ListKind,
) -> Result<Option<Braces>, NoMemory>
    requires cut { All (IsCut text.now) tokens.now }
    requires within { at < length tokens.now }
    ensures { IfOk result (λ found. found ≡ spec.plain_reading (map (lexeme_of text.now) tokens.now) place at outer) }
{
    if place.parted && !is_unit(outer) && place.token <= at {
        plain_braces(alloc, text, &tokens[place.token..at + 1], place.opening)
    } else {
        Ok(None)
    }
}

// The body that the brace of this number closes.
fn body_of(
    alloc: Global,
    text: &str,
    tokens: &[Token],
    level: Level,
    outer: ListKind,
    end: u32,
    at: usize,
) -> Result<Body, NoMemory>
    requires cut { All (IsCut text.now) tokens.now }
    requires words { IsLevelOf text.now level }
    requires within { at < length tokens.now }
    ensures { IfOk result (λ body. body ≡ spec.body_of (map (lexeme_of text.now) tokens.now) (level_in text.now level) outer end at) }
{
    let Level {
        kind,
        place,
        heading: _,
        pieces,
    } = level;
    let span = Span {
        start: place.start,
        end,
    };
    let plain = plain_reading(alloc, text, tokens, place, at, outer)?;
    Ok(Body {
        span,
        before: place.before,
        contents: contents_of(alloc, text, kind, span, pieces)?,
        plain,
    })
}

// The list that a body stands in, behind it.
fn with_body(alloc: Global, outer: Level, body: Body) -> Result<Level, NoMemory>
    ensures is { IfOk result (λ now. (text : Bytes) → level_in text now ≡ spec.with_part (level_in text outer) (OfBody body) (behind outer.heading)) }
    ensures words { IfOk result (λ now. (text : Bytes) → IsLevelOf text outer → IsLevelOf text now) }
{
    let heading = behind_braces(outer.heading);
    with_piece(outer, Piece::Body(Boxed::new(alloc, body)?), heading)
}

// ---- one token more

// Braces of an expression begin.
fn plain_opened(
    alloc: Global,
    current: Level,
    around: Stack<Level>,
    token: Token,
    opening: Opening,
) -> Levels
    ensures is { (text : Bytes) → levels_in text result ≡ record { current = level_in text current; around = map (level_in text) around; plain = Some (plain_spec.plain_begun (lexeme_of text token) opening) } }
    ensures words { (text : Bytes) → IsLevelOf text current → All (IsLevelOf text) around → AreLevelsOf text result }
{
    Levels {
        current,
        around,
        plain: Some(plain_begun(alloc, token, opening)),
    }
}

// A body begins.
fn body_opened(
    alloc: Global,
    current: Level,
    around: Stack<Level>,
    kind: ListKind,
    place: Place,
) -> Result<Levels, NoMemory>
    ensures is { IfOk result (λ now. (text : Bytes) → levels_in text now ≡ record { current = spec.level_at kind place; around = level_in text current ∷ map (level_in text) around; plain = None }) }
    ensures words { IfOk result (λ now. (text : Bytes) → IsLevelOf text current → All (IsLevelOf text) around → AreLevelsOf text now) }
{
    let mut around = around;
    around.push(current)?;
    Ok(Levels {
        current: level_at(alloc, kind, place),
        around,
        plain: None,
    })
}

#[tactic(auto, unfolding(source_grammar::specs::Lexemes::lexeme_of))]
fn curly_opened(
    alloc: Global,
    text: &str,
    current: Level,
    around: Stack<Level>,
    token: Token,
    at: usize,
) -> Result<Levels, NoMemory>
    requires current { IsLevelOf text.now current }
    requires around { All (IsLevelOf text.now) around }
    ensures is { IfOk result (λ now. levels_in text.now now ≡ spec.curly_opened (level_in text.now current) (map (level_in text.now) around) (lexeme_of text.now token) at) }
    ensures words { IfOk result (AreLevelsOf text.now) }
{
    let opening = opening_of(text, &current.pieces);
    match body_at(current.heading, token.before) {
        Some(awaited) => {
            let place = Place {
                start: token.span.start,
                before: token.before,
                token: at,
                opening,
                parted: awaited.parted,
            };
            body_opened(alloc, current, around, list_in(awaited.body), place)
        }
        None => Ok(plain_opened(alloc, current, around, token, opening)),
    }
}

#[tactic(auto, unfolding(source_grammar::specs::Lexemes::lexeme_of))]
fn token_read(text: &str, current: Level, symbol: Symbol, token: Token) -> Result<Level, NoMemory>
    requires { IsCut text.now token }
    ensures is { IfOk result (λ now. level_in text.now now ≡ spec.token_read (level_in text.now current) symbol (lexeme_of text.now token)) }
    ensures words { IfOk result (λ now. IsLevelOf text.now current → IsLevelOf text.now now) }
{
    let word = word_in(text, token);
    let heading = heading_behind(current.heading, current.kind, symbol, token, word);
    with_piece(current, Piece::Item(Item::Token(token)), heading)
}

#[tactic(auto, unfolding(source_grammar::specs::Lexemes::lexeme_of))]
fn curly_closed(
    alloc: Global,
    text: &str,
    tokens: &[Token],
    current: Level,
    around: Stack<Level>,
    token: Token,
    at: usize,
) -> Result<Levels, NoMemory>
    requires cut { All (IsCut text.now) tokens.now }
    requires current { IsLevelOf text.now current }
    requires around { All (IsLevelOf text.now) around }
    requires within { at < length tokens.now }
    requires token { IsCut text.now token }
    ensures is { IfOk result (λ now. levels_in text.now now ≡ spec.curly_closed (map (lexeme_of text.now) tokens.now) (level_in text.now current) (map (level_in text.now) around) (lexeme_of text.now token) at) }
    ensures words { IfOk result (AreLevelsOf text.now) }
{
    let mut around = around;
    match around.pop() {
        Some(outer) => {
            let body = body_of(alloc, text, tokens, current, outer.kind, token.span.end, at)?;
            Ok(Levels {
                current: with_body(alloc, outer, body)?,
                around,
                plain: None,
            })
        }
        None => Ok(Levels {
            current: token_read(text, current, Symbol::CloseCurly, token)?,
            around,
            plain: None,
        }),
    }
}

fn is_open_curly(symbol: Symbol) -> bool
    ensures { result ≡ spec.is_open_curly symbol }
{
    matches!(symbol, Symbol::OpenCurly)
}

fn is_close_curly(symbol: Symbol) -> bool
    ensures { result ≡ spec.is_close_curly symbol }
{
    matches!(symbol, Symbol::CloseCurly)
}

#[tactic(auto, unfolding(source_grammar::specs::Lexemes::lexeme_of))]
fn in_list(
    alloc: Global,
    text: &str,
    tokens: &[Token],
    current: Level,
    around: Stack<Level>,
    token: Token,
    at: usize,
) -> Result<Levels, NoMemory>
    requires cut { All (IsCut text.now) tokens.now }
    requires current { IsLevelOf text.now current }
    requires around { All (IsLevelOf text.now) around }
    requires within { at < length tokens.now }
    requires token { IsCut text.now token }
    ensures is { IfOk result (λ now. levels_in text.now now ≡ spec.step_by None (map (lexeme_of text.now) tokens.now) (level_in text.now current) (map (level_in text.now) around) (lexeme_of text.now token) at) }
    ensures words { IfOk result (AreLevelsOf text.now) }
{
    let symbol = read_symbol(token.kind, word_in(text, token).as_bytes());
    if is_open_curly(symbol) {
        curly_opened(alloc, text, current, around, token, at)
    } else if is_close_curly(symbol) {
        curly_closed(alloc, text, tokens, current, around, token, at)
    } else {
        Ok(Levels {
            current: token_read(text, current, symbol, token)?,
            around,
            plain: None,
        })
    }
}

fn with_braces(alloc: Global, current: Level, braces: Braces) -> Result<Level, NoMemory>
    ensures is { IfOk result (λ now. (text : Bytes) → level_in text now ≡ spec.with_part (level_in text current) (OfItem (Pair braces)) (behind current.heading)) }
    ensures words { IfOk result (λ now. (text : Bytes) → IsLevelOf text current → IsLevelOf text now) }
{
    let heading = behind_braces(current.heading);
    with_piece(
        current,
        Piece::Item(Item::Braces(Boxed::new(alloc, braces)?)),
        heading,
    )
}

fn in_plain(
    alloc: Global,
    text: &str,
    current: Level,
    around: Stack<Level>,
    plain: PlainLevels,
    token: Token,
) -> Result<Levels, NoMemory>
    requires cut { IsCut text.now token }
    requires current { IsLevelOf text.now current }
    requires around { All (IsLevelOf text.now) around }
    requires plain { plain_spec.AreLevelsOf text.now plain }
    ensures is { IfOk result (λ now. levels_in text.now now ≡ spec.in_plain (plain_spec.plain_step (plain_spec.levels_in text.now plain) (lexeme_of text.now token)) (level_in text.now current) (map (level_in text.now) around)) }
    ensures words { IfOk result (AreLevelsOf text.now) }
{
    match plain_step(alloc, text, plain, token)? {
        Plain::Open(plain) => Ok(Levels {
            current,
            around,
            plain: Some(plain),
        }),
        Plain::Closed(braces) => Ok(Levels {
            current: with_braces(alloc, current, braces)?,
            around,
            plain: None,
        }),
    }
}

/// The levels behind a token, which has this number among those of the text.
pub fn step(
    alloc: Global,
    text: &str,
    tokens: &[Token],
    levels: Levels,
    token: Token,
    at: usize,
) -> Result<Levels, NoMemory>
    requires cut { All (IsCut text.now) tokens.now }
    requires words { AreLevelsOf text.now levels }
    requires within { at < length tokens.now }
    requires token { IsCut text.now token }
    ensures is { IfOk result (λ now. levels_in text.now now ≡ spec.step (map (lexeme_of text.now) tokens.now) (levels_in text.now levels) (lexeme_of text.now token) at) }
    ensures words { IfOk result (AreLevelsOf text.now) }
{
    let Levels {
        current,
        around,
        plain,
    } = levels;
    match plain {
        Some(plain) => in_plain(alloc, text, current, around, plain, token),
        None => in_list(alloc, text, tokens, current, around, token, at),
    }
}

/// What was read of a unit, where all its brackets match.
pub fn pieces_of(levels: Levels) -> Row<Piece>
    ensures { result ≡ levels.current.pieces }
{
    levels.current.pieces
}
