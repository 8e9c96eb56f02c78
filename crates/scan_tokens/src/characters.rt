//! What a character can be part of (SLS 1), and the steps from one character to the next.

ghost use Rattle.std.specs.Prelude.{◌≡◌, ◌<◌, ◌≤◌, ◌∷◌, ◌^◌, [], length, MatchOption, IfSome, IfNone};
ghost use Rattle.std.specs.Str.{chars};
ghost use Rattle.scan_tokens.specs.Characters as spec;

use unicode::properties::GeneralCategory;

#[derive(Clone, Copy, Debug)]
pub enum Class {
    Space,
    Letter,
    Digit,
    Operator,
    Delimiter,
    Apostrophe,
    Quote,
    Backquote,
    Other,
}

/// The characters that a run is made of.
#[derive(Clone, Copy, Debug)]
pub enum Run {
    Spaces,
    LettersAndDigits,
    AsciiAlphanumerics,
    /// All but LF.
    LineRest,
    /// All but LF, tab and the backquote.
    BetweenBackquotes,
    Quotes,
    Us,
}

fn class_in(category: GeneralCategory) -> Class
    ensures { result ≡ spec.class_in category }
{
    match category {
        GeneralCategory::LowercaseLetter
        | GeneralCategory::UppercaseLetter
        | GeneralCategory::TitlecaseLetter
        | GeneralCategory::OtherLetter
        | GeneralCategory::LetterNumber => Class::Letter,
        GeneralCategory::MathSymbol | GeneralCategory::OtherSymbol => Class::Operator,
        _ => Class::Other,
    }
}

fn is_space(c: char) -> bool
    ensures { result ≡ spec.is_space c }
{
    c == ' ' || c == '\t' || c == '\r' || c == '\n' || c == '\x0c'
}

#[inline(always)]
#[tactic(auto, unfolding(crate::specs::Characters::class_of))]
pub fn class_of(c: char) -> Class
    ensures { result ≡ spec.class_of c }
{
    match c {
        'A'..='Z' | 'a'..='z' => Class::Letter,
        ' ' | '\t' | '\r' | '\n' | '\x0c' => Class::Space,
        '0'..='9' => Class::Digit,
        '\'' => Class::Apostrophe,
        '"' => Class::Quote,
        '`' => Class::Backquote,
        '$' | '_' => Class::Letter,
        '(' | ')' | '[' | ']' | '{' | '}' | '.' | ',' | ';' => Class::Delimiter,
        '!'
        | '#'
        | '%'
        | '&'
        | '*'
        | '+'
        | '-'
        | '/'
        | ':'
        | '<'
        | '='
        | '>'
        | '?'
        | '@'
        | '\\'
        | '^'
        | '|'
        | '~' => Class::Operator,
        _ => class_in(GeneralCategory::for_char(c)),
    }
}

pub fn is_operator(class: Class) -> bool
    ensures { result ≡ spec.is_operator class }
{
    matches!(class, Class::Operator)
}

pub fn is_letter_or_digit(class: Class) -> bool
    ensures { result ≡ spec.is_letter_or_digit class }
{
    matches!(class, Class::Letter | Class::Digit)
}

#[inline(always)]
#[tactic(auto, unfolding(crate::specs::Characters::in_run))]
pub fn in_run(run: Run, c: char) -> bool
    ensures { result ≡ spec.in_run run c }
{
    match run {
        Run::Spaces => is_space(c),
        Run::LettersAndDigits => is_letter_or_digit(class_of(c)),
        Run::AsciiAlphanumerics => c.is_ascii_alphanumeric(),
        Run::LineRest => c != '\n',
        Run::BetweenBackquotes => !(c == '\n' || c == '\t' || c == '`'),
        Run::Quotes => c == '"',
        Run::Us => c == 'u',
    }
}

/// The first character of a text, and the text after it.
#[inline(always)]
pub fn first(text: &str) -> Option<(char, &str)>
    ensures value { MatchOption result (chars text.now ≡ []) (λ p. chars text.now ≡ p.0 ∷ chars p.1.now) }
    ensures shorter { IfSome result (λ p. length p.1.now < length text.now) }
    ensures empty { IfNone result (length text.now ≡ 0) }
{
    let mut rest = text.chars();
    let c = rest.next()?;
    Some((c, rest.as_str()))
}

/// The text from its first character on that is not of the run.
#[inline(always)]
pub fn past(run: Run, text: &str) -> &str
    ensures value { chars result.now ≡ spec.past run (chars text.now) }
    ensures within { length result.now ≤ length text.now }
{
    let mut rest = text;
    while let Some((c, after)) = first(rest) {
        if !in_run(run, c) {
            break;
        }
        rest = after;
    }
    rest
}

#[inline(always)]
pub fn next_is(c: char, text: &str) -> bool
    ensures { result ≡ spec.next_is c (chars text.now) }
{
    match first(text) {
        None => false,
        Some((d, _)) => d == c,
    }
}

pub fn next_are(c: char, d: char, text: &str) -> bool
    ensures { result ≡ spec.next_are c d (chars text.now) }
{
    match first(text) {
        None => false,
        Some((e, after)) => e == c && next_is(d, after),
    }
}

pub fn past_one(text: &str) -> &str
    ensures value { chars result.now ≡ spec.past_one (chars text.now) }
    ensures within { length result.now ≤ length text.now }
{
    match first(text) {
        None => text,
        Some((_, after)) => after,
    }
}

/// Where the rest of a text of `total` bytes begins.
pub fn offset(total: usize, left: &str) -> u32
    requires small { total < 2 ^ 32 }
    requires within { length left.now ≤ total }
    ensures { result ≡ spec.offset total (chars left.now) }
{
    (total - left.len()) as u32
}

/// The bytes of a text up to where `after` begins.
pub fn bytes_up_to<'a>(from: &'a str, after: &str) -> &'a [u8]
    requires { length after.now ≤ length from.now }
    ensures { result.now ≡ spec.bytes_up_to (chars from.now) (chars after.now) }
{
    &from.as_bytes()[..from.len() - after.len()]
}
