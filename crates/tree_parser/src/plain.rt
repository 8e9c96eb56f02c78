//! Braces in which expressions are read: all that stand in an expression, and all within these.

ghost use Rattle.std.specs.Prelude.{◌≡◌, IfOk, map};
ghost use Rattle.std.specs.List.{All};
ghost use Rattle.scan_tokens.specs.Words.{Bytes};
ghost use Rattle.source_grammar.specs.Lexemes.{lexeme_of};
ghost use Rattle.parse_parts.specs.Words.{IsCut};
ghost use Rattle.parse_exprs.specs.Items.{IsItemOf, item_in};
ghost use Rattle.tree_parser.specs.Plain as spec;
ghost use Rattle.tree_parser.specs.Plain.{AreLevelsOf, IsLevelOf, IsPlainOf, level_in, levels_in, plain_in};

use expr_tails::items::Braces;
use parse_exprs::contents::Opening;
use parse_exprs::items::Item;
use parse_exprs::openings::{braces_over, opening_of};
use parse_parts::stack::Stack;
use parse_parts::words::word_in;
use pc_terms::{NoMemory, Row, Span};
use scan_tokens::{Newline, Token, TokenKind};
use sqlite_items::Boxed;
use std::alloc::Global;

/// An open brace, with the items in it so far.
#[derive(Debug, Drop)]
pub struct PlainLevel {
    pub start: u32,
    pub before: Newline,
    pub opening: Opening,
    pub items: Row<Item>,
}

/// The innermost open brace, and those around it, the innermost on top.
#[derive(Debug, Drop)]
pub struct PlainLevels {
    pub current: PlainLevel,
    pub around: Stack<PlainLevel>,
}

/// What a token makes of open braces.
#[derive(Debug, Drop)]
pub enum Plain {
    Open(PlainLevels),
    /// The outermost pair is closed.
    Closed(Braces),
}

/// Whether the token is this delimiter.
#[tactic(auto, unfolding(source_grammar::specs::Lexemes::lexeme_of))]
fn is_delimiter(text: &str, token: Token, bracket: &[u8]) -> bool
    requires { IsCut text.now token }
    ensures { result ≡ spec.is_delimiter bracket.now (lexeme_of text.now token) }
{
    matches!(token.kind, TokenKind::Delimiter) && word_in(text, token).as_bytes() == bracket
}

// The level that an opening brace opens.
#[tactic(auto, unfolding(source_grammar::specs::Lexemes::lexeme_of))]
fn level_at(alloc: Global, token: Token, opening: Opening) -> PlainLevel
    ensures is { (text : Bytes) → level_in text result ≡ spec.level_at (lexeme_of text token) opening }
    ensures words { (text : Bytes) → IsLevelOf text result }
{
    PlainLevel {
        start: token.span.start,
        before: token.before,
        opening,
        items: Row::new(alloc),
    }
}

/// The levels behind an opening brace.
#[tactic(auto, unfolding(source_grammar::specs::Lexemes::lexeme_of))]
pub fn plain_begun(alloc: Global, token: Token, opening: Opening) -> PlainLevels
    ensures is { (text : Bytes) → levels_in text result ≡ spec.plain_begun (lexeme_of text token) opening }
    ensures words { (text : Bytes) → AreLevelsOf text result }
{
    PlainLevels {
        current: level_at(alloc, token, opening),
        around: Stack::new(alloc),
    }
}

fn with_item(level: PlainLevel, item: Item) -> Result<PlainLevel, NoMemory>
    ensures is { IfOk result (λ now. (text : Bytes) → level_in text now ≡ spec.with_item (level_in text level) (item_in text item)) }
    ensures words { IfOk result (λ now. (text : Bytes) → IsLevelOf text level → IsItemOf text item → IsLevelOf text now) }
{
    let mut items = level.items;
    items.push(item)?;
    Ok(PlainLevel {
        start: level.start,
        before: level.before,
        opening: level.opening,
        items,
    })
}

#[tactic(auto, unfolding(source_grammar::specs::Lexemes::lexeme_of))]
fn curly_opened(
    alloc: Global,
    text: &str,
    levels: PlainLevels,
    token: Token,
) -> Result<PlainLevels, NoMemory>
    requires { AreLevelsOf text.now levels }
    ensures is { IfOk result (λ now. levels_in text.now now ≡ spec.curly_opened (levels_in text.now levels) (lexeme_of text.now token)) }
    ensures words { IfOk result (AreLevelsOf text.now) }
{
    let PlainLevels {
        current,
        mut around,
    } = levels;
    let opening = opening_of(text, &current.items);
    around.push(current)?;
    Ok(PlainLevels {
        current: level_at(alloc, token, opening),
        around,
    })
}

fn curly_closed(alloc: Global, text: &str, levels: PlainLevels, end: u32) -> Result<Plain, NoMemory>
    requires { AreLevelsOf text.now levels }
    ensures is { IfOk result (λ now. plain_in text.now now ≡ spec.curly_closed (levels_in text.now levels) end) }
    ensures words { IfOk result (IsPlainOf text.now) }
{
    let PlainLevels {
        current,
        mut around,
    } = levels;
    let span = Span {
        start: current.start,
        end,
    };
    let braces = braces_over(
        alloc,
        text,
        current.opening,
        current.before,
        span,
        current.items,
    )?;
    match around.pop() {
        Some(outer) => Ok(Plain::Open(PlainLevels {
            current: with_item(outer, Item::Braces(Boxed::new(alloc, braces)?))?,
            around,
        })),
        None => Ok(Plain::Closed(braces)),
    }
}

/// The levels behind a token, or the outermost pair of braces, where the token closes it.
#[tactic(auto, unfolding(source_grammar::specs::Lexemes::lexeme_of))]
pub fn plain_step(
    alloc: Global,
    text: &str,
    levels: PlainLevels,
    token: Token,
) -> Result<Plain, NoMemory>
    requires words { AreLevelsOf text.now levels }
    requires cut { IsCut text.now token }
    ensures is { IfOk result (λ now. plain_in text.now now ≡ spec.plain_step (levels_in text.now levels) (lexeme_of text.now token)) }
    ensures words { IfOk result (IsPlainOf text.now) }
{
    if is_delimiter(text, token, b"{".as_slice()) {
        Ok(Plain::Open(curly_opened(alloc, text, levels, token)?))
    } else if is_delimiter(text, token, b"}".as_slice()) {
        curly_closed(alloc, text, levels, token.span.end)
    } else {
        let PlainLevels { current, around } = levels;
        Ok(Plain::Open(PlainLevels {
            current: with_item(current, Item::Token(token))?,
            around,
        }))
    }
}

/// The braces that these tokens begin with.
pub fn plain_braces(
    alloc: Global,
    text: &str,
    tokens: &[Token],
    opening: Opening,
) -> Result<Option<Braces>, NoMemory>
    requires { All (IsCut text.now) tokens.now }
    ensures { IfOk result (λ found. found ≡ spec.plain_braces opening (map (lexeme_of text.now) tokens.now)) }
{
    let [first, rest @ ..] = tokens else {
        return Ok(None)
    };
    let mut levels = plain_begun(alloc, *first, opening);
    for token in rest {
        match plain_step(alloc, text, levels, *token)? {
            Plain::Open(next) => levels = next,
            Plain::Closed(braces) => return Ok(Some(braces)),
        }
    }
    Ok(None)
}
