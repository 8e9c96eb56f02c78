//! What the name of a token is in a pattern.

ghost use Rattle.std.specs.Prelude.{◌≡◌, []};
ghost use Rattle.source_grammar.specs.Patterns.{is_var, is_bar as is_stroke};
ghost use Rattle.source_grammar.specs.Precedence as spec;
ghost use Rattle.parse_patterns.specs.Names.{lexeme_with, id_of, lead_of, is_minus as is_sign};

use crate::states::Lead;
use scan_tokens::{Class, Token, TokenKind, class_of, first};
use unicode::properties::GeneralCategory;

fn first_character(name: &str) -> char
    ensures { result ≡ spec.first_character name.now }
{
    match first(name) {
        Some((c, _)) => c,
        None => '\0',
    }
}

fn last_byte(name: &str) -> u8
    ensures { result ≡ spec.last_byte name.now }
{
    match name.as_bytes().last() {
        Some(byte) => *byte,
        None => 0,
    }
}

fn is_letter(c: char) -> bool
    ensures { result ≡ spec.is_letter c }
{
    matches!(class_of(c), Class::Letter)
}

fn is_comparison(name: &str) -> bool
    ensures { result ≡ spec.is_comparison name.now }
{
    matches!(name.as_bytes(), b"<=" | b">=" | b"!=")
}

/// Whether an operator assigns (SLS 6.12.4).
#[tactic(auto, unfolding(source_grammar::specs::Precedence::is_assignment))]
pub fn is_assignment(name: &str) -> bool
    ensures { result ≡ spec.is_assignment name.now }
{
    let c = first_character(name);
    last_byte(name) == b'=' && c != '=' && !is_letter(c) && !is_comparison(name)
}

fn precedence_of_first(c: char) -> u32
    ensures { result ≡ spec.precedence_of_first c }
{
    if is_letter(c) {
        return 1;
    }
    match c {
        '|' => 2,
        '^' => 3,
        '&' => 4,
        '=' | '!' => 5,
        '<' | '>' => 6,
        ':' => 7,
        '+' | '-' => 8,
        '*' | '/' | '%' => 9,
        _ => 10,
    }
}

/// How close an operator binds.
#[tactic(auto, unfolding(source_grammar::specs::Precedence::precedence))]
pub fn precedence(name: &str) -> u32
    ensures { result ≡ spec.precedence name.now }
{
    if is_assignment(name) {
        0
    } else {
        precedence_of_first(first_character(name))
    }
}

/// Whether an operator associates to the right.
#[tactic(auto, unfolding(source_grammar::specs::Precedence::is_right))]
pub fn is_right(name: &str) -> bool
    ensures { result ≡ spec.is_right name.now }
{
    last_byte(name) == b':'
}

fn is_quoted(token: Token) -> bool
    ensures { result ≡ (id_of (lexeme_with token [])).quoted }
{
    matches!(token.kind, TokenKind::BackId)
}

/// Whether a name alone is a variable.
#[tactic(auto, unfolding(source_grammar::specs::Patterns::is_var))]
pub fn is_variable(token: Token, word: &str) -> bool
    ensures { result ≡ is_var (id_of (lexeme_with token word.now)) }
{
    let c = first_character(word);
    !is_quoted(token)
        && (c == '_'
            || matches!(
                GeneralCategory::for_char(c),
                GeneralCategory::LowercaseLetter
            ))
}

fn is_minus(token: Token, word: &str) -> bool
    ensures { result ≡ is_sign (id_of (lexeme_with token word.now)) }
{
    !is_quoted(token) && word.as_bytes() == b"-".as_slice()
}

/// Whether a token is the stroke between alternatives.
pub fn is_bar(token: Token, word: &str) -> bool
    ensures { result ≡ is_stroke (id_of (lexeme_with token word.now)) }
{
    !is_quoted(token) && word.as_bytes() == b"|".as_slice()
}

/// What a name alone may be.
#[tactic(auto, unfolding(crate::specs::Names::lead_of))]
pub fn lead(token: Token, word: &str) -> Lead
    ensures { result ≡ lead_of (id_of (lexeme_with token word.now)) }
{
    if is_variable(token, word) {
        Lead::Var
    } else if is_minus(token, word) {
        Lead::Minus
    } else {
        Lead::Plain
    }
}
