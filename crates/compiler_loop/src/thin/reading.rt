ghost use Rattle.std.specs.Prelude.{[], ◌≡◌, ◌+◌, ◌-◌, ◌≤◌, ◌<◌, IsTrue, true, length, map, drop, IfOk, IfSome};
ghost use Rattle.std.specs.List.{list_all, take_while};
ghost use Rattle.std.specs.Char.{is_ascii_alphanumeric};
ghost use Rattle.compiler_loop.specs.Thin as spec;

use pc_terms::{NoMemory, Row, Span, Text, read_number};
use scan_tokens::is_reserved_word;
use std::alloc::Global;

#[derive(Clone, Copy, Debug, PartialEq, Eq)]
pub enum ValType {
    Int,
    String,
}

/// A val: where it starts, where its right side stands, and the name that this is, where it is one.
#[derive(Debug, Drop)]
pub struct ThinVal {
    pub name: Text,
    pub start: u32,
    pub right: Span,
    pub of: ValType,
    pub refers: Option<Text>,
}

#[derive(Debug, Drop)]
pub struct ThinObject {
    pub name: Text,
    pub vals: Row<ThinVal>,
}

/// What a text is: `Other` where it is not thin.
#[derive(Debug, Drop)]
pub enum ThinUnit {
    Empty,
    Object(ThinObject),
    Other,
}

fn are_letters_and_digits(bytes: &[u8]) -> bool
    ensures { result ≡ list_all is_ascii_alphanumeric bytes.now }
{
    bytes.iter().all(|b| b.is_ascii_alphanumeric())
}

fn begins_with_letter(bytes: &[u8]) -> bool
    ensures { result ≡ spec.begins_with_letter bytes.now }
{
    match bytes {
        [first, ..] => first.is_ascii_alphabetic(),
        [] => false,
    }
}

#[tactic(auto, unfolding(crate::specs::Thin::is_identifier))]
fn is_identifier(word: &[u8]) -> bool
    ensures value { result ≡ spec.is_identifier word.now }
    ensures letters { IsTrue result → list_all is_ascii_alphanumeric word.now ≡ true }
{
    are_letters_and_digits(word) && begins_with_letter(word) && !is_reserved_word(word)
}

#[tactic(auto, unfolding(crate::specs::Thin::is_number))]
fn is_number(word: &[u8]) -> bool
    ensures { result ≡ spec.is_number word.now }
{
    match read_number(word) {
        Some(value) => value <= 2147483647,
        None => false,
    }
}

fn is_plain(byte: u8) -> bool
    ensures { result ≡ spec.is_plain byte }
{
    32 <= byte && byte <= 126 && byte != b'"' && byte != b'\\'
}

fn from(text: &[u8], at: usize) -> &[u8]
    ensures rest { result.now ≡ drop at text.now }
    ensures len { length result.now ≡ length text.now - at }
{
    if at <= text.len() { &text[at..] } else { &[] }
}

#[tactic(auto, unfolding(crate::specs::Thin::stands_at))]
fn stands_at(text: &[u8], at: usize, word: &[u8]) -> bool
    ensures value { result ≡ spec.stands_at text.now at word.now }
    ensures within { IsTrue result → 0 < length word.now → at + length word.now ≤ length text.now }
{
    from(text, at).starts_with(word)
}

fn run_len(bytes: &[u8]) -> usize
    ensures value { result ≡ length (take_while is_ascii_alphanumeric bytes.now) }
    ensures within { result ≤ length bytes.now }
{
    bytes
        .iter()
        .take_while(|b| b.is_ascii_alphanumeric())
        .count()
}

#[tactic(auto, unfolding(crate::specs::Thin::run_at))]
fn run_at(text: &[u8], at: usize) -> &[u8]
    ensures run { result.now ≡ spec.run_at text.now at }
    ensures len { length result.now ≤ length text.now - at }
{
    let rest = from(text, at);
    &rest[..run_len(rest)]
}

fn plain_len(bytes: &[u8]) -> usize
    ensures value { result ≡ length (take_while spec.is_plain bytes.now) }
    ensures within { result ≤ length bytes.now }
{
    bytes.iter().take_while(|b| is_plain(**b)).count()
}

fn are_plain(bytes: &[u8]) -> bool
    ensures { result ≡ list_all spec.is_plain bytes.now }
{
    bytes.iter().all(|b| is_plain(*b))
}

#[tactic(auto, unfolding(crate::specs::Thin::right_len))]
fn right_len(bytes: &[u8]) -> usize
    requires { length bytes.now ≤ 262144 }
    ensures { result ≡ spec.right_len bytes.now }
{
    match bytes {
        [b'"', rest @ ..] => plain_len(rest) + 2,
        _ => run_len(bytes),
    }
}

#[tactic(auto, unfolding(crate::specs::Thin::is_string))]
fn is_string(bytes: &[u8]) -> bool
    ensures { result ≡ spec.is_string bytes.now }
{
    match bytes {
        [b'"', rest @ ..] => is_closed(rest),
        _ => false,
    }
}

#[tactic(auto, unfolding(crate::specs::Thin::is_closed))]
fn is_closed(bytes: &[u8]) -> bool
    ensures { result ≡ spec.is_closed bytes.now }
{
    match bytes {
        [inner @ .., b'"'] => are_plain(inner),
        _ => false,
    }
}

// The text of letters and digits.
#[tactic(auto, using(crate::proofs::ThinLemmas::all_ascii_letters))]
fn word_text(alloc: Global, word: &[u8]) -> Result<Text, NoMemory>
    requires { list_all is_ascii_alphanumeric word.now ≡ true }
    ensures { IfOk result (λ text. text ≡ word.now) }
{
    Text::from_ascii(alloc, word)
}

fn type_of(vals: &[ThinVal], name: &[u8]) -> Option<ValType>
    ensures { result ≡ spec.type_of vals.now name.now }
{
    for val in vals {
        if val.name.as_str().as_bytes() == name {
            return Some(val.of);
        }
    }
    None
}

#[tactic(auto, unfolding(crate::specs::Thin::right_type))]
fn right_type(vals: &[ThinVal], right: &[u8]) -> Option<ValType>
    ensures { result ≡ spec.right_type vals.now right.now }
{
    if is_string(right) {
        Some(ValType::String)
    } else if is_number(right) {
        Some(ValType::Int)
    } else if is_identifier(right) {
        type_of(vals, right)
    } else {
        None
    }
}

fn is_new(vals: &[ThinVal], name: &[u8]) -> bool
    ensures value { result ≡ spec.is_new vals.now name.now }
    ensures letters { IsTrue result → list_all is_ascii_alphanumeric name.now ≡ true }
{
    is_identifier(name) && type_of(vals, name).is_none()
}

fn right_at(text: &[u8], at: usize) -> &[u8]
    requires { length text.now ≤ 262144 }
    ensures right { result.now ≡ spec.right_at text.now at }
    ensures len { length result.now ≤ length text.now - at }
{
    let rest = from(text, at);
    let len = right_len(rest).min(rest.len());
    &rest[..len]
}

fn refers_to(alloc: Global, right: &[u8]) -> Result<Option<Text>, NoMemory>
    ensures { IfOk result (λ name. name ≡ spec.refers_to right.now) }
{
    if is_identifier(right) {
        Ok(Some(word_text(alloc, right)?))
    } else {
        Ok(None)
    }
}

fn made_val(
    alloc: Global,
    name: &[u8],
    start: usize,
    right_start: usize,
    right: &[u8],
    of: ValType,
) -> Result<ThinVal, NoMemory>
    requires letters { list_all is_ascii_alphanumeric name.now ≡ true }
    requires order { start ≤ right_start }
    requires small { right_start + length right.now ≤ 262144 }
    ensures { IfOk result (λ v. v ≡ spec.made_val name.now start right_start right.now of) }
{
    let refers = refers_to(alloc, right)?;
    Ok(ThinVal {
        name: word_text(alloc, name)?,
        start: start as u32,
        right: Span {
            start: right_start as u32,
            end: (right_start + right.len()) as u32,
        },
        of,
        refers,
    })
}

// `val NAME = RIGHT`, at this place.
#[tactic(auto, unfolding(crate::specs::Thin::val_at))]
fn val_at(
    alloc: Global,
    text: &[u8],
    vals: &[ThinVal],
    at: usize,
) -> Result<Option<ThinVal>, NoMemory>
    requires small { length text.now ≤ 262144 }
    requires within { at ≤ length text.now }
    ensures value { IfOk result (λ v. v ≡ spec.val_at text.now vals.now at) }
    ensures within { IfOk result (λ v. IfSome v (λ v. v.right.end ≤ length text.now)) }
{
    if !stands_at(text, at, b"val ") {
        return Ok(None);
    }
    let name = run_at(text, at + 4);
    if !is_new(vals, name) || !stands_at(text, at + 4 + name.len(), b" = ") {
        return Ok(None);
    }
    let start = at + 4 + name.len() + 3;
    let right = right_at(text, start);
    match right_type(vals, right) {
        Some(of) => Ok(Some(made_val(alloc, name, at, start, right, of)?)),
        None => Ok(None),
    }
}

#[tactic(auto, using(crate::proofs::ThinLemmas::vals_from_more))]
fn vals_from(alloc: Global, text: &[u8], start: usize) -> Result<Option<Row<ThinVal>>, NoMemory>
    requires small { length text.now ≤ 262144 }
    requires within { start ≤ length text.now }
    ensures { IfOk result (λ vals. vals ≡ spec.vals_from (length text.now) text.now [] start) }
{
    let mut vals = Row::new(alloc);
    let mut at = start;
    let mut most = text.len();
    while most > 0 {
        most -= 1;
        let Some(val) = val_at(alloc, text, vals.as_slice(), at)? else {
            return Ok(None);
        };
        let end = val.right.end as usize;
        vals.push(val)?;
        if from(text, end) == b" }".as_slice() {
            return Ok(Some(vals));
        }
        if !stands_at(text, end, b"; ") {
            return Ok(None);
        }
        at = end + 2;
    }
    Ok(None)
}

// `object NAME { VALS }`, of which the head is read up to the name.
fn object_at(alloc: Global, text: &[u8], name: &[u8]) -> Result<ThinUnit, NoMemory>
    requires small { length text.now ≤ 262144 }
    requires within { length name.now ≤ length text.now }
    ensures { IfOk result (λ unit. unit ≡ spec.object_at text.now name.now) }
{
    if !is_identifier(name) || !stands_at(text, 7 + name.len(), b" { ") {
        return Ok(ThinUnit::Other);
    }
    match vals_from(alloc, text, 10 + name.len())? {
        Some(vals) => Ok(ThinUnit::Object(ThinObject {
            name: word_text(alloc, name)?,
            vals,
        })),
        None => Ok(ThinUnit::Other),
    }
}

/// Reads a text. Its time grows with the square of the number of vals.
#[tactic(auto, unfolding(crate::specs::Thin::unit_of))]
pub fn read_unit(alloc: Global, text: &[u8]) -> Result<ThinUnit, NoMemory>
    requires { length text.now ≤ 262144 }
    ensures { IfOk result (λ unit. unit ≡ spec.unit_of text.now) }
{
    if text.is_empty() {
        return Ok(ThinUnit::Empty);
    }
    if !stands_at(text, 0, b"object ") {
        return Ok(ThinUnit::Other);
    }
    object_at(alloc, text, run_at(text, 7))
}
