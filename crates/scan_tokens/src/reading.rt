//! Reads the piece at the front of a text: a token, white space or a comment (SLS 1).

ghost use Rattle.std.specs.Prelude.{◌≡◌, ◌≤◌, ◌<◌, ◌∷◌, ◌+◌, false, length};
ghost use Rattle.std.specs.Str.{chars};
ghost use Rattle.scan_tokens.specs.Reading as spec;

use crate::characters::{
    Class, Run, bytes_up_to, class_of, first, is_letter_or_digit, is_operator, next_are, next_is,
    past, past_one,
};
use crate::kinds::is_reserved;
use crate::literals::{Cut, character, string};
use crate::shapes::Shape;

#[tactic(auto, unfolding(crate::specs::Reading::begins_comment))]
fn begins_comment(text: &str) -> bool
    ensures { result ≡ spec.begins_comment (chars text.now) }
{
    next_are('/', '/', text) || next_are('/', '*', text)
}

fn past_operators(text: &str) -> &str
    ensures value { chars result.now ≡ spec.past_operators (chars text.now) }
    ensures within { length result.now ≤ length text.now }
{
    let mut rest = text;
    while let Some((c, after)) = first(rest) {
        if !is_operator(class_of(c)) || begins_comment(rest) {
            break;
        }
        rest = after;
    }
    rest
}

fn past_name(text: &str) -> &str
    ensures value { chars result.now ≡ spec.past_name false (chars text.now) }
    ensures within { length result.now ≤ length text.now }
{
    let mut rest = text;
    let mut underscore = false;
    while let Some((c, after)) = first(rest) {
        if !is_letter_or_digit(class_of(c)) {
            break;
        }
        underscore = c == '_';
        rest = after;
    }
    if underscore {
        past_operators(rest)
    } else {
        rest
    }
}

fn named<'a>(from: &'a str, after: &'a str) -> Cut<'a>
    requires { length after.now ≤ length from.now }
    ensures value { (result.0, chars result.1.now) ≡ spec.named (chars from.now) (chars after.now) }
    ensures within { length result.1.now ≤ length after.now }
{
    if next_is('"', after) && !is_reserved(bytes_up_to(from, after)) {
        let (_, end) = string(past_one(after));
        (Shape::Interpolated, end)
    } else {
        (Shape::Plain, after)
    }
}

fn comment(text: &str) -> Cut<'_>
    ensures value { (result.0, chars result.1.now) ≡ spec.comment 0 false (chars text.now) }
    ensures within { length result.1.now ≤ length text.now }
{
    let mut rest = text;
    let mut depth = 0usize;
    let mut second = false;
    while let Some((c, after)) = first(rest) {
        rest = after;
        if second {
            second = false;
        } else if c == '*' && next_is('/', after) {
            if depth == 0 {
                return (Shape::Comment, past_one(after));
            }
            depth -= 1;
            second = true;
        } else if c == '/' && next_is('*', after) {
            depth += 1;
            second = true;
        }
    }
    (Shape::OpenComment, rest)
}

fn operator(c: char, text: &str) -> Cut<'_>
    ensures value { (result.0, chars result.1.now) ≡ spec.operator c (chars text.now) }
    ensures within { length result.1.now ≤ length text.now }
{
    if c == '/' && next_is('/', text) {
        (Shape::Comment, past(Run::LineRest, text))
    } else if c == '/' && next_is('*', text) {
        comment(past_one(text))
    } else {
        (Shape::Operator, past_operators(text))
    }
}

fn backquoted(text: &str) -> Cut<'_>
    ensures value { (result.0, chars result.1.now) ≡ spec.backquoted (chars text.now) }
    ensures within { length result.1.now ≤ length text.now }
{
    let after = past(Run::BetweenBackquotes, text);
    if !next_is('`', text) && next_is('`', after) {
        (Shape::Backquoted, past_one(after))
    } else {
        (Shape::Illegal, text)
    }
}

/// The piece at the front, which is at least one character of a text that is not empty, and what comes after it.
#[tactic(auto, unfolding(crate::specs::Reading::read))]
pub fn read(text: &str) -> Cut<'_>
    ensures value { (result.0, chars result.1.now) ≡ spec.read (chars text.now) }
    ensures within { length result.1.now ≤ length text.now }
    ensures moves { 0 < length text.now → length result.1.now < length text.now }
{
    let Some((c, after)) = first(text) else {
        return (Shape::Space, text);
    };
    match class_of(c) {
        Class::Space => (Shape::Space, past(Run::Spaces, after)),
        Class::Letter => named(text, past_name(after)),
        Class::Digit => (Shape::Number, past(Run::AsciiAlphanumerics, after)),
        Class::Operator => operator(c, after),
        Class::Delimiter => (Shape::Delimiter, after),
        Class::Apostrophe => character(after),
        Class::Quote => string(after),
        Class::Backquote => backquoted(after),
        Class::Other => (Shape::Illegal, after),
    }
}
