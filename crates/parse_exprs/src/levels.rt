//! The levels of open braces over which an expression is read.

ghost use Rattle.std.specs.Prelude.{◌≡◌, ◌&&◌, ◌∷◌, ◌++◌, [], IfOk};
ghost use Rattle.std.specs.Option.{option_map, ForSome};
ghost use Rattle.scan_tokens.specs.Words.{Bytes};
ghost use Rattle.parse_parts.specs.Reading.{is_nil};
ghost use Rattle.parse_parts.specs.Words.{IsCut};
ghost use Rattle.source_grammar.specs.Lexemes.{lexeme_of};
ghost use Rattle.parse_exprs.specs.Checks.{check_token as token_checked};
ghost use Rattle.parse_exprs.specs.Levels as spec;
ghost use Rattle.parse_exprs.specs.Levels.{AreLevelsOf, IsLevelOf, level_in, levels_in};

use crate::checks::{Check, Checks, check_braces, check_opening, check_token, may_close};
use crate::contents::Opening;
use crate::items::{Item, braces_shape};
use crate::openings::{braces_over, opening_of};
use expr_steps::steps::{begun as expr_begun, is_read};
use expr_tails::items::Braces;
use expr_tails::states::Limit;
use expr_tails::symbols::{Symbol, read_symbol};
use parse_parts::stack::Stack;
use parse_parts::words::word_in;
use pc_terms::{NoMemory, Row, Span};
use scan_tokens::{Newline, Token};
use sqlite_items::Boxed;
use std::alloc::Global;

/// An open brace: where it starts, what it stands behind, the items in it so far, and what can stand next.
#[derive(Debug, Drop)]
pub struct Level {
    pub start: u32,
    pub before: Newline,
    pub opening: Opening,
    pub items: Row<Item>,
    pub check: Check,
}

/// The level that is read, and those around it, the innermost on top.
#[derive(Debug, Drop)]
pub struct Levels {
    pub current: Level,
    pub around: Stack<Level>,
}

/// The levels before the first token of an expression.
pub fn begun(alloc: Global) -> Levels
    ensures { (text : Bytes) → levels_in text result ≡ spec.begun }
{
    Levels {
        current: Level {
            start: 0,
            before: Newline::No,
            opening: Opening::Other,
            items: Row::new(alloc),
            check: Check::Expr(expr_begun(alloc, Limit::Expr)),
        },
        around: Stack::new(alloc),
    }
}

fn is_expression(check: &Check) -> bool
    ensures { result ≡ spec.is_expression check.now }
{
    match check {
        Check::Expr(state) => is_read(state),
        _ => false,
    }
}

/// Whether what was read is an expression.
pub fn is_whole(levels: &Levels) -> bool
    ensures { result ≡ (is_nil levels.now.around && spec.is_expression levels.now.current.check) }
{
    levels.around.is_empty() && is_expression(&levels.current.check)
}

#[tactic(auto, unfolding(source_grammar::specs::Lexemes::lexeme_of))]
fn curly_opened(
    alloc: Global,
    text: &str,
    levels: Levels,
    token: Token,
) -> Result<Option<Levels>, NoMemory>
    requires { AreLevelsOf text.now levels }
    ensures is { IfOk result (λ now. option_map (levels_in text.now) now ≡ spec.step_by Symbol.OpenCurly (levels_in text.now levels) (lexeme_of text.now token)) }
    ensures items { IfOk result (λ now. ForSome now (AreLevelsOf text.now)) }
{
    let Levels {
        current,
        mut around,
    } = levels;
    let opening = opening_of(text, &current.items);
    let Level {
        start,
        before,
        opening: outer_opening,
        items,
        check,
    } = current;
    let Some(Checks { outer, inner }) = check_opening(alloc, check, token.before)? else {
        return Ok(None)
    };
    around.push(Level {
        start,
        before,
        opening: outer_opening,
        items,
        check: outer,
    })?;
    Ok(Some(Levels {
        current: Level {
            start: token.span.start,
            before: token.before,
            opening,
            items: Row::new(alloc),
            check: inner,
        },
        around,
    }))
}

fn braces_of(alloc: Global, text: &str, level: Level, end: u32) -> Result<Braces, NoMemory>
    requires { IsLevelOf text.now level }
    ensures { IfOk result (λ braces. braces ≡ spec.braces_of (level_in text.now level) end) }
{
    let span = Span {
        start: level.start,
        end,
    };
    braces_over(alloc, text, level.opening, level.before, span, level.items)
}

fn with_braces(alloc: Global, outer: Level, braces: Braces) -> Result<Level, NoMemory>
    ensures is { IfOk result (λ now. (text : Bytes) → level_in text now ≡ spec.with_braces (level_in text outer) braces) }
    ensures items { IfOk result (λ now. now.items ≡ outer.items ++ Item.Braces braces ∷ []) }
{
    let Level {
        start,
        before,
        opening,
        items,
        check,
    } = outer;
    let shape = braces_shape(alloc, &braces)?;
    let check = check_braces(alloc, check, shape)?;
    let mut items = items;
    items.push(Item::Braces(Boxed::new(alloc, braces)?))?;
    Ok(Level {
        start,
        before,
        opening,
        items,
        check,
    })
}

#[tactic(auto, unfolding(source_grammar::specs::Lexemes::lexeme_of))]
fn curly_closed(
    alloc: Global,
    text: &str,
    levels: Levels,
    token: Token,
) -> Result<Option<Levels>, NoMemory>
    requires { AreLevelsOf text.now levels }
    ensures is { IfOk result (λ now. option_map (levels_in text.now) now ≡ spec.step_by Symbol.CloseCurly (levels_in text.now levels) (lexeme_of text.now token)) }
    ensures items { IfOk result (λ now. ForSome now (AreLevelsOf text.now)) }
{
    let Levels {
        current,
        mut around,
    } = levels;
    if !may_close(&current.check) {
        return Ok(None);
    }
    let Some(outer) = around.pop() else {
        return Ok(None)
    };
    let braces = braces_of(alloc, text, current, token.span.end)?;
    let current = with_braces(alloc, outer, braces)?;
    Ok(Some(Levels { current, around }))
}

#[tactic(auto, unfolding(source_grammar::specs::Lexemes::lexeme_of))]
fn with_token(
    alloc: Global,
    text: &str,
    levels: Levels,
    token: Token,
) -> Result<Option<Levels>, NoMemory>
    requires words { AreLevelsOf text.now levels }
    requires cut { IsCut text.now token }
    ensures is { IfOk result (λ now. option_map (levels_in text.now) now ≡ spec.token_by (levels_in text.now levels) (lexeme_of text.now token) (token_checked levels.current.check (lexeme_of text.now token))) }
    ensures items { IfOk result (λ now. ForSome now (AreLevelsOf text.now)) }
{
    let Levels { current, around } = levels;
    let Level {
        start,
        before,
        opening,
        items,
        check,
    } = current;
    let Some(check) = check_token(alloc, check, token, word_in(text, token))? else {
        return Ok(None)
    };
    let mut items = items;
    items.push(Item::Token(token))?;
    Ok(Some(Levels {
        current: Level {
            start,
            before,
            opening,
            items,
            check,
        },
        around,
    }))
}

/// The levels after a token, if it can stand next.
#[tactic(auto, unfolding(source_grammar::specs::Lexemes::lexeme_of))]
pub fn step(
    alloc: Global,
    text: &str,
    levels: Levels,
    token: Token,
) -> Result<Option<Levels>, NoMemory>
    requires words { AreLevelsOf text.now levels }
    requires cut { IsCut text.now token }
    ensures is { IfOk result (λ now. option_map (levels_in text.now) now ≡ spec.stepped (levels_in text.now levels) (lexeme_of text.now token)) }
    ensures items { IfOk result (λ now. ForSome now (AreLevelsOf text.now)) }
{
    match read_symbol(token.kind, word_in(text, token).as_bytes()) {
        Symbol::OpenCurly => curly_opened(alloc, text, levels, token),
        Symbol::CloseCurly => curly_closed(alloc, text, levels, token),
        _ => with_token(alloc, text, levels, token),
    }
}
