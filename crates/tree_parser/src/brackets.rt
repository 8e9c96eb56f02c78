//! Brackets that do not match, and how many are open at one place.

ghost use Rattle.std.specs.Prelude.{◌≡◌, max, not, IfOk, OnOk, map};
ghost use Rattle.source_grammar.specs.Brackets as grammar;
ghost use Rattle.std.specs.List.{All};
ghost use Rattle.parse_parts.specs.Words.{IsCut};
ghost use Rattle.source_grammar.specs.Lexemes.{lexeme_of};
ghost use Rattle.scan_tokens.specs.Newlines as scanned;
ghost use Rattle.tree_parser.specs.Bracketed as spec;

use parse_parts::stack::Stack;
use parse_parts::words::word_in;
use pc_terms::{NoMemory, Span};
use scan_tokens::{Token, TokenKind};
use std::alloc::Global;

/// The most brackets that may be open at one place.
const MAX_OPEN: usize = 400;

#[derive(Clone, Copy, Debug)]
pub enum Bracket {
    Round,
    Square,
    Curly,
}

#[derive(Clone, Copy, Debug)]
pub enum Role {
    Opens(Bracket),
    Closes(Bracket),
    Other,
}

/// A bracket that is open, and where it stands.
#[derive(Clone, Copy, Debug)]
pub struct Opened {
    pub bracket: Bracket,
    pub span: Span,
}

/// How the brackets of a text stand.
#[derive(Clone, Copy, Debug)]
pub enum Brackets {
    /// The first closing one that does not match the last open one, else the first that is left open.
    Unmatched(Span),
    /// All match, and too many are open at one place.
    TooMany,
    Matching,
}

fn is_delimiter(kind: TokenKind) -> bool
    ensures { result ≡ grammar.is_delimiter_kind kind }
{
    matches!(kind, TokenKind::Delimiter)
}

#[tactic(auto, unfolding(scan_tokens::specs::Newlines::delimiter_role))]
fn delimiter_role(word: &[u8]) -> Role
    ensures { result ≡ spec.bracket_role (scanned.delimiter_role word.now) }
{
    match word {
        [b'(', ..] => Role::Opens(Bracket::Round),
        [b')', ..] => Role::Closes(Bracket::Round),
        [b'[', ..] => Role::Opens(Bracket::Square),
        [b']', ..] => Role::Closes(Bracket::Square),
        [b'{', ..] => Role::Opens(Bracket::Curly),
        [b'}', ..] => Role::Closes(Bracket::Curly),
        _ => Role::Other,
    }
}

#[tactic(auto, unfolding(source_grammar::specs::Lexemes::lexeme_of))]
fn role_of(text: &str, token: Token) -> Role
    requires { IsCut text.now token }
    ensures { result ≡ spec.role_in (lexeme_of text.now token) }
{
    if is_delimiter(token.kind) {
        delimiter_role(word_in(text, token).as_bytes())
    } else {
        Role::Other
    }
}

fn left_open(opened: &Stack<Opened>) -> Option<Span>
    ensures { result ≡ grammar.left_open (spec.all_opened opened.now) }
{
    if opened.is_empty() {
        return None;
    }
    match opened.peek(opened.len() - 1) {
        Some(first) => Some(first.span),
        None => None,
    }
}

fn closing_of(bracket: Bracket) -> u8
    ensures { result ≡ scanned.closing_of (spec.scanned_by bracket) }
{
    match bracket {
        Bracket::Round => b')',
        Bracket::Square => b']',
        Bracket::Curly => b'}',
    }
}

fn is_same(bracket: Bracket, other: Bracket) -> bool
    ensures { result ≡ scanned.same_bracket (spec.scanned_by bracket) (spec.scanned_by other) }
{
    closing_of(bracket) == closing_of(other)
}

// Whether a closing bracket matches the last open one, which is taken away.
fn closes(opened: &mut Stack<Opened>, bracket: Bracket) -> bool
    ensures is { result ≡ grammar.matches (spec.scanned_by bracket) (spec.all_opened opened.old) }
    ensures behind { spec.all_opened opened.new ≡ grammar.without_first (spec.all_opened opened.old) }
{
    match opened.pop() {
        Some(last) => is_same(last.bracket, bracket),
        None => false,
    }
}

// Takes a token in. False where it closes a bracket that is not the last open one.
fn passes(text: &str, opened: &mut Stack<Opened>, token: Token) -> Result<bool, NoMemory>
    requires { IsCut text.now token }
    ensures fits { IfOk result (λ fits. fits ≡ not (grammar.closes_wrongly (grammar.role (lexeme_of text.now token)) (spec.all_opened opened.old))) }
    ensures behind { OnOk result (spec.all_opened opened.new ≡ grammar.open_after (lexeme_of text.now token) (spec.all_opened opened.old)) }
{
    match role_of(text, token) {
        Role::Opens(bracket) => {
            opened.push(Opened {
                bracket,
                span: token.span,
            })?;
            Ok(true)
        }
        Role::Closes(bracket) => Ok(closes(opened, bracket)),
        Role::Other => Ok(true),
    }
}

fn counted(unmatched: Option<Span>, most: usize) -> Brackets
    ensures { result ≡ spec.bracketed_by unmatched most }
{
    match unmatched {
        Some(span) => Brackets::Unmatched(span),
        None => {
            if most > MAX_OPEN {
                Brackets::TooMany
            } else {
                Brackets::Matching
            }
        }
    }
}

fn greater(a: usize, b: usize) -> usize
    ensures { result ≡ max a b }
{
    if a < b { b } else { a }
}

/// How the brackets of these tokens stand.
pub fn brackets_of(alloc: Global, text: &str, tokens: &[Token]) -> Result<Brackets, NoMemory>
    requires { All (IsCut text.now) tokens.now }
    ensures { IfOk result (λ now. now ≡ spec.brackets_of (map (lexeme_of text.now) tokens.now)) }
{
    let mut opened: Stack<Opened> = Stack::new(alloc);
    let mut most = 0;
    for token in tokens {
        most = greater(most, opened.len());
        if !passes(text, &mut opened, *token)? {
            return Ok(Brackets::Unmatched(token.span));
        }
    }
    Ok(counted(left_open(&opened), greater(most, opened.len())))
}
