//! Character and string literals (SLS 1.3). A text stands here without the quote that begins it.

ghost use Rattle.std.specs.Prelude.{◌≡◌, ◌≤◌, ◌<◌, ◌^◌, ◌++◌, true, false, length, map, OnOk, IfSome};
ghost use Rattle.std.specs.Option.{option_map};
ghost use Rattle.std.specs.Str.{chars};
ghost use Rattle.scan_tokens.specs.Literals as spec;

use crate::characters::{Run, first, next_are, next_is, past, past_one};
use crate::shapes::Shape;

/// A piece of the text by its shape, and what comes after it.
pub type Cut<'a> = (Shape, &'a str);

fn past_hex(text: &str) -> Option<&str>
    ensures value { option_map (λ r. chars r.now) result ≡ spec.past_hex (chars text.now) }
    ensures within { IfSome result (λ r. length r.now ≤ length text.now) }
{
    match first(text) {
        Some((c, after)) if c.is_ascii_hexdigit() => Some(after),
        _ => None,
    }
}

#[tactic(auto, unfolding(crate::specs::Literals::past_unicode))]
fn past_unicode(text: &str) -> Option<&str>
    ensures value { option_map (λ r. chars r.now) result ≡ spec.past_unicode (chars text.now) }
    ensures within { IfSome result (λ r. length r.now ≤ length text.now) }
{
    if !next_is('u', text) {
        return None;
    }
    past_hex(past_hex(past_hex(past_hex(past(Run::Us, text))?)?)?)
}

fn is_escaped_letter(c: char) -> bool
    ensures { result ≡ spec.is_escaped_letter c }
{
    c == 'b' || c == 't' || c == 'n' || c == 'f' || c == 'r' || c == '"' || c == '\'' || c == '\\'
}

#[tactic(auto, unfolding(crate::specs::Literals::is_escape))]
pub fn is_escape(text: &str) -> bool
    ensures { result ≡ spec.is_escape (chars text.now) }
{
    match first(text) {
        None => false,
        Some((c, _)) => is_escaped_letter(c) || past_unicode(text).is_some(),
    }
}

#[tactic(auto, unfolding(crate::specs::Literals::past_escape))]
fn past_escape(text: &str) -> Option<&str>
    ensures value { option_map (λ r. chars r.now) result ≡ spec.past_escape (chars text.now) }
    ensures within { IfSome result (λ r. length r.now ≤ length text.now) }
{
    match first(text) {
        None | Some(('\n', _)) => None,
        Some((_, after)) => Some(past_unicode(text).unwrap_or(after)),
    }
}

#[tactic(auto, unfolding(crate::specs::Literals::past_character))]
fn past_character(text: &str) -> Option<&str>
    ensures value { option_map (λ r. chars r.now) result ≡ spec.past_character (chars text.now) }
    ensures within { IfSome result (λ r. length r.now ≤ length text.now) }
{
    match first(text) {
        None | Some(('\'' | '\n', _)) => None,
        Some(('\\', after)) => past_escape(after),
        Some((_, after)) => Some(after),
    }
}

#[tactic(auto, unfolding(crate::specs::Literals::character))]
pub fn character(text: &str) -> Cut<'_>
    ensures value { (result.0, chars result.1.now) ≡ spec.character (chars text.now) }
    ensures within { length result.1.now ≤ length text.now }
{
    match past_character(text) {
        Some(after) if next_is('\'', after) => (Shape::Character, past_one(after)),
        _ => (Shape::Apostrophe, text),
    }
}

fn line_string(text: &str) -> Cut<'_>
    ensures value { (result.0, chars result.1.now) ≡ spec.line_string false (chars text.now) }
    ensures within { length result.1.now ≤ length text.now }
{
    let mut rest = text;
    let mut escaped = false;
    while let Some((c, after)) = first(rest) {
        if c == '\n' {
            break;
        }
        if !escaped && c == '"' {
            return (Shape::LineString, after);
        }
        escaped = !escaped && c == '\\';
        rest = after;
    }
    (Shape::OpenString, rest)
}

fn raw_string(text: &str) -> Cut<'_>
    ensures value { (result.0, chars result.1.now) ≡ spec.raw_string (chars text.now) }
    ensures within { length result.1.now ≤ length text.now }
{
    let mut rest = text;
    while let Some((c, after)) = first(rest) {
        if c == '"' && next_are('"', '"', after) {
            return (Shape::RawString, past(Run::Quotes, after));
        }
        rest = after;
    }
    (Shape::OpenString, rest)
}

#[tactic(auto, unfolding(crate::specs::Literals::string))]
pub fn string(text: &str) -> Cut<'_>
    ensures value { (result.0, chars result.1.now) ≡ spec.string (chars text.now) }
    ensures within { length result.1.now ≤ length text.now }
{
    if next_are('"', '"', text) {
        raw_string(past_one(past_one(text)))
    } else {
        line_string(text)
    }
}
