//! Whether braces at a place may be the body of a template or of a `def`.

ghost use Rattle.std.specs.Prelude.{◌≡◌};
ghost use Rattle.parse_patterns.specs.Names.{lexeme_with};
ghost use Rattle.source_grammar.specs.Brackets as grammar;
ghost use Rattle.tree_parser.specs.Headings as spec;

use def_steps::params::one_more;
use expr_tails::symbols::{Symbol, Word};
use parse_exprs::items::is_template_word;
use scan_tokens::{Newline, Token, TokenKind};
use template_steps::statements::ListKind;

/// A body.
#[derive(Clone, Copy, Debug)]
pub enum BodyKind {
    Template,
    Procedure,
}

/// What was read at a level since the last word behind which a body may stand.
#[derive(Clone, Copy, Debug)]
pub struct Heading {
    /// The body that braces outside brackets are.
    pub awaits: Option<BodyKind>,
    /// A separator stands behind the word, so that the head may end before the braces.
    pub parted: bool,
    /// How many brackets are open at the level.
    pub depth: u32,
}

pub fn no_heading() -> Heading
    ensures { result ≡ spec.no_heading }
{
    Heading {
        awaits: None,
        parted: false,
        depth: 0,
    }
}

fn is_trait(token: Token, word: &str) -> bool
    ensures { result ≡ spec.is_trait (lexeme_with token word.now) }
{
    matches!(token.kind, TokenKind::Word) && word.as_bytes() == b"trait".as_slice()
}

fn is_def(symbol: Symbol) -> bool
    ensures { result ≡ spec.is_def symbol }
{
    matches!(symbol, Symbol::Word(Word::Def))
}

// The body that may stand behind a word in a list of this kind.
fn body_behind(kind: ListKind, symbol: Symbol, token: Token, word: &str) -> Option<BodyKind>
    ensures { result ≡ spec.body_behind symbol kind (lexeme_with token word.now) }
{
    if is_template_word(symbol) || is_trait(token, word) {
        template_in(kind)
    } else if is_def(symbol) {
        procedure_in(kind)
    } else {
        None
    }
}

fn template_in(kind: ListKind) -> Option<BodyKind>
    ensures { result ≡ spec.template_in kind }
{
    match kind {
        ListKind::Unit | ListKind::Template => Some(BodyKind::Template),
        ListKind::Procedure => None,
    }
}

fn procedure_in(kind: ListKind) -> Option<BodyKind>
    ensures { result ≡ spec.procedure_in kind }
{
    match kind {
        ListKind::Template | ListKind::Procedure => Some(BodyKind::Procedure),
        ListKind::Unit => None,
    }
}

// Modifiers, and the last word of a path.
fn stands_in_head(word: Word) -> bool
    ensures { result ≡ spec.stands_in_head word }
{
    matches!(
        word,
        Word::Abstract
            | Word::Case
            | Word::Final
            | Word::Lazy
            | Word::Override
            | Word::Private
            | Word::Protected
            | Word::Sealed
            | Word::Type
    )
}

// What cannot stand in the head of a template or of a `def` outside brackets.
fn ends_head(symbol: Symbol) -> bool
    ensures { result ≡ spec.ends_head symbol }
{
    match symbol {
        Symbol::Equals | Symbol::Semicolon => true,
        Symbol::Word(word) => !stands_in_head(word),
        _ => false,
    }
}

fn has_newline(before: Newline) -> bool
    ensures { result ≡ grammar.has_newline before }
{
    !matches!(before, Newline::No)
}

// A separator before a token may end the head.
fn parted_at(heading: Heading, before: Newline) -> Heading
    ensures { result ≡ spec.parted_at heading before }
{
    Heading {
        parted: heading.parted || has_newline(before),
        ..heading
    }
}

fn outside(heading: Heading, kind: ListKind, symbol: Symbol, token: Token, word: &str) -> Heading
    ensures { result ≡ spec.outside heading kind symbol (lexeme_with token word.now) }
{
    match body_behind(kind, symbol, token, word) {
        Some(body) => Heading {
            awaits: Some(body),
            parted: false,
            ..heading
        },
        None => {
            if ends_head(symbol) {
                no_heading()
            } else {
                parted_at(heading, token.before)
            }
        }
    }
}

fn opened(heading: Heading, before: Newline) -> Heading
    ensures { result ≡ spec.opened heading before }
{
    let heading = if heading.depth == 0 {
        parted_at(heading, before)
    } else {
        heading
    };
    Heading {
        depth: one_more(heading.depth),
        ..heading
    }
}

fn closed(heading: Heading) -> Heading
    ensures { result ≡ spec.closed heading }
{
    Heading {
        depth: heading.depth.saturating_sub(1),
        ..heading
    }
}

fn opens(symbol: Symbol) -> bool
    ensures { result ≡ spec.opens symbol }
{
    matches!(symbol, Symbol::OpenRound | Symbol::OpenSquare)
}

fn closes(symbol: Symbol) -> bool
    ensures { result ≡ spec.closes symbol }
{
    matches!(symbol, Symbol::CloseRound | Symbol::CloseSquare)
}

/// The heading behind a token that is no brace.
pub fn heading_behind(
    heading: Heading,
    kind: ListKind,
    symbol: Symbol,
    token: Token,
    word: &str,
) -> Heading
    ensures { result ≡ spec.heading_behind symbol heading kind (lexeme_with token word.now) }
{
    if opens(symbol) {
        opened(heading, token.before)
    } else if closes(symbol) {
        closed(heading)
    } else if heading.depth == 0 {
        outside(heading, kind, symbol, token, word)
    } else {
        heading
    }
}

/// The heading behind a pair of braces.
pub fn behind_braces(heading: Heading) -> Heading
    ensures { result ≡ spec.behind_braces heading }
{
    if heading.depth == 0 {
        no_heading()
    } else {
        heading
    }
}

/// The body that braces which begin here are, and whether they may be an expression as well.
#[derive(Clone, Copy, Debug)]
pub struct Awaited {
    pub body: BodyKind,
    pub parted: bool,
}

pub fn body_at(heading: Heading, before: Newline) -> Option<Awaited>
    ensures { result ≡ spec.body_at heading before }
{
    if heading.depth > 0 {
        return None;
    }
    match heading.awaits {
        Some(body) => Some(Awaited {
            body,
            parted: heading.parted || has_newline(before),
        }),
        None => None,
    }
}
