//! What a token does in a line: whether it can end a statement, and whether one can begin with it (SLS 1.2).

ghost use Rattle.std.specs.Prelude.{◌≡◌, ◌≤◌, length};
ghost use Rattle.scan_tokens.specs.Newlines as spec;
ghost use Rattle.scan_tokens.specs.Order.{IsWithin};

use crate::kinds::is_among;
use crate::tokens::{Token, TokenKind};

const ENDING_WORDS: [&[u8]; 6] = [b"this", b"null", b"true", b"false", b"return", b"type"];

const CONTINUING_WORDS: [&[u8]; 8] = [
    b"catch", b"else", b"extends", b"finally", b"forSome", b"match", b"with", b"yield",
];

const CASE_WORDS: [&[u8]; 1] = [b"case"];

const TEMPLATE_WORDS: [&[u8]; 2] = [b"class", b"object"];

const ENDING_SIGNS: [&[u8]; 1] = [b"_"];

/// The second is U+21D2.
const ARROWS: [&[u8]; 2] = [b"=>", b"\xe2\x87\x92"];

/// The last is U+2190.
const CONTINUING_SIGNS: [&[u8]; 8] = [
    b":",
    b"=",
    b"<-",
    b"<:",
    b"<%",
    b">:",
    b"#",
    b"\xe2\x86\x90",
];

#[derive(Clone, Copy, Debug)]
pub enum Bracket {
    Round,
    Square,
    Curly,
}

#[derive(Clone, Copy, Debug)]
pub enum Role {
    Opens(Bracket),
    Closes(Bracket),
    Case,
    /// `class` or `object`, before which `case` is a modifier.
    Template,
    Arrow,
    /// It neither ends a statement nor begins one.
    Continues,
    /// It can end a statement, and one can begin with it.
    Ends,
    /// A statement can begin with it, and it ends none.
    Begins,
}

#[tactic(auto, unfolding(crate::specs::Newlines::word_role, crate::specs::Words::ending_words, crate::specs::Words::continuing_words, crate::specs::Words::case_words, crate::specs::Words::template_words))]
fn word_role(word: &[u8]) -> Role
    ensures { result ≡ spec.word_role word.now }
{
    // With these letters no word begins that is in one of the lists.
    if let [b'a' | b'd' | b'i' | b'l' | b'p' | b's' | b'v', ..] = word {
        return Role::Begins;
    }
    if is_among(&ENDING_WORDS, word) {
        Role::Ends
    } else if is_among(&CONTINUING_WORDS, word) {
        Role::Continues
    } else if is_among(&CASE_WORDS, word) {
        Role::Case
    } else if is_among(&TEMPLATE_WORDS, word) {
        Role::Template
    } else {
        Role::Begins
    }
}

#[tactic(auto, unfolding(crate::specs::Newlines::sign_role, crate::specs::Words::ending_signs, crate::specs::Words::arrows, crate::specs::Words::continuing_signs))]
fn sign_role(sign: &[u8]) -> Role
    ensures { result ≡ spec.sign_role sign.now }
{
    if is_among(&ENDING_SIGNS, sign) {
        Role::Ends
    } else if is_among(&ARROWS, sign) {
        Role::Arrow
    } else if is_among(&CONTINUING_SIGNS, sign) {
        Role::Continues
    } else {
        Role::Begins
    }
}

#[tactic(auto, unfolding(crate::specs::Newlines::delimiter_role))]
fn delimiter_role(delimiter: &[u8]) -> Role
    ensures { result ≡ spec.delimiter_role delimiter.now }
{
    match delimiter {
        [b'(', ..] => Role::Opens(Bracket::Round),
        [b')', ..] => Role::Closes(Bracket::Round),
        [b'[', ..] => Role::Opens(Bracket::Square),
        [b']', ..] => Role::Closes(Bracket::Square),
        [b'{', ..] => Role::Opens(Bracket::Curly),
        [b'}', ..] => Role::Closes(Bracket::Curly),
        _ => Role::Continues,
    }
}

#[inline(always)]
fn role_of(kind: TokenKind, bytes: &[u8]) -> Role
    ensures { result ≡ spec.role_of kind bytes.now }
{
    match kind {
        TokenKind::Word => word_role(bytes),
        TokenKind::Sign => sign_role(bytes),
        TokenKind::Delimiter => delimiter_role(bytes),
        TokenKind::Error => Role::Begins,
        TokenKind::Id
        | TokenKind::BackId
        | TokenKind::Int
        | TokenKind::Long
        | TokenKind::Char
        | TokenKind::Str => Role::Ends,
    }
}

/// What a token of the text does.
#[inline(always)]
#[tactic(auto, unfolding(crate::specs::Newlines::role_at))]
pub fn role_at(text: &[u8], token: &Token) -> Role
    requires { IsWithin (length text.now) token.now.span }
    ensures { result ≡ spec.role_at text.now token.now }
{
    role_of(
        token.kind,
        &text[token.span.start as usize..token.span.end as usize],
    )
}

pub fn can_end(role: Role) -> bool
    ensures { result ≡ spec.can_end role }
{
    matches!(role, Role::Ends | Role::Closes(_))
}

pub fn can_begin(role: Role, template: bool) -> bool
    ensures { result ≡ spec.can_begin role template }
{
    match role {
        Role::Opens(Bracket::Square) | Role::Closes(_) | Role::Arrow | Role::Continues => false,
        Role::Case => template,
        Role::Opens(Bracket::Round | Bracket::Curly) | Role::Template | Role::Ends | Role::Begins =>
            true,
    }
}

pub fn is_template(role: Role) -> bool
    ensures { result ≡ spec.is_template role }
{
    matches!(role, Role::Template)
}
