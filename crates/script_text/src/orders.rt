//! Reads the order of a line.

ghost use Rattle.std.specs.Prelude.{◌≡◌, ◌∷◌, [], true, length, Some, None, IfOk};
ghost use Rattle.std.specs.Option.{option_copied, option_map};
ghost use Rattle.std.specs.List.{list_all};
ghost use Rattle.script_text.specs.Words as word_spec;
ghost use Rattle.script_text.specs.Pieces.{pieces_behind};
ghost use Rattle.pc_terms.specs.Bytes.{space};
ghost use Rattle.script_text.specs.Orders.{TakesPair};
ghost use Rattle.script_text.specs.Reading as spec;

use crate::pieces::{cut, only_piece, two_pieces};
use crate::words::{Word, word_of};
use ask_history::{Call, Order};
use indexmap::IndexSet;
use pc_terms::{NoMemory, Row, Text, read_number};
use std::alloc::Global;

fn is_word_byte(byte: u8) -> bool
    ensures { result ≡ word_spec.is_word_byte byte }
{
    33 <= byte && byte <= 126
}

fn are_word_bytes(bytes: &[u8]) -> bool
    ensures { result ≡ list_all word_spec.is_word_byte bytes.now }
{
    bytes.iter().all(|b| is_word_byte(*b))
}

fn is_word(word: &[u8]) -> bool
    ensures { result ≡ word_spec.is_word word.now }
{
    match word {
        [first, rest @ ..] => is_word_byte(*first) && are_word_bytes(rest),
        [] => false,
    }
}

fn is_name(word: &[u8]) -> bool
    ensures { result ≡ word_spec.is_name word.now }
{
    match word {
        [first, ..] => *first != b'<' && is_word(word),
        [] => false,
    }
}

#[tactic(auto, using(crate::proofs::WordLemmas::word_is_ascii))]
fn word_text(alloc: Global, word: &[u8]) -> Result<Text, NoMemory>
    requires { word_spec.is_word word.now ≡ true }
    ensures { IfOk result (λ text. text ≡ word.now) }
{
    Text::from_ascii(alloc, word)
}

#[tactic(auto, using(crate::proofs::WordLemmas::name_is_word))]
fn name_text(alloc: Global, name: &[u8]) -> Result<Text, NoMemory>
    requires { word_spec.is_name name.now ≡ true }
    ensures { IfOk result (λ text. text ≡ name.now) }
{
    word_text(alloc, name)
}

fn as_name(alloc: Global, name: &[u8]) -> Result<Option<Text>, NoMemory>
    ensures { IfOk result (λ found. found ≡ spec.as_name name.now) }
{
    if !is_name(name) {
        return Ok(None);
    }
    Ok(Some(name_text(alloc, name)?))
}

fn one_name(alloc: Global, left: Option<&[u8]>) -> Result<Option<Text>, NoMemory>
    ensures { IfOk result (λ found. found ≡ spec.one_name (pieces_behind space (option_copied left.entry))) }
{
    match only_piece(left, b' ') {
        Some(name) => as_name(alloc, name),
        None => Ok(None),
    }
}

fn one_number(left: Option<&[u8]>) -> Option<u32>
    ensures { result ≡ spec.one_number (pieces_behind space (option_copied left.entry)) }
{
    read_number(only_piece(left, b' ')?)
}

fn as_name_and_offset(
    alloc: Global,
    name: &[u8],
    offset: &[u8],
) -> Result<Option<(Text, u32)>, NoMemory>
    ensures { IfOk result (λ found. found ≡ spec.as_name_and_offset name.now offset.now) }
{
    if !is_name(name) {
        return Ok(None);
    }
    match read_number(offset) {
        Some(offset) => Ok(Some((name_text(alloc, name)?, offset))),
        None => Ok(None),
    }
}

fn name_and_offset(alloc: Global, left: Option<&[u8]>) -> Result<Option<(Text, u32)>, NoMemory>
    ensures { IfOk result (λ found. found ≡ spec.name_and_offset (pieces_behind space (option_copied left.entry))) }
{
    match two_pieces(left, b' ') {
        Some((name, offset)) => as_name_and_offset(alloc, name, offset),
        None => Ok(None),
    }
}

// Takes one more name and its path, where the name is new.
fn take_pair(
    alloc: Global,
    names: &mut IndexSet<Text>,
    pairs: &mut Row<(Text, Text)>,
    name: &[u8],
    path: &[u8],
) -> Result<bool, NoMemory>
    ensures { IfOk result (TakesPair names.old.keys pairs.old name.now path.now names.new.keys pairs.new) }
{
    if !is_name(name) || !is_word(path) {
        return Ok(false);
    }
    let name = name_text(alloc, name)?;
    let (_, is_new) = names.insert_full(name.clone()?)?;
    if is_new {
        pairs.push((name, word_text(alloc, path)?))?;
    }
    Ok(is_new)
}

type Pairs = Row<(Text, Text)>;

fn pairs_of(alloc: Global, words: &[u8]) -> Result<Option<Pairs>, NoMemory>
    ensures { IfOk result (λ found. found ≡ spec.pairs_from [] [] (spec.words_of words.now)) }
{
    let mut names = IndexSet::new(alloc);
    let mut pairs = Row::new(alloc);
    let mut left = Some(words);
    while let Some(rest) = left {
        let (name, behind) = cut(rest, b' ');
        let Some(behind) = behind else {
            return Ok(None);
        };
        let (path, behind) = cut(behind, b' ');
        if !take_pair(alloc, &mut names, &mut pairs, name, path)? {
            return Ok(None);
        }
        left = behind;
    }
    Ok(Some(pairs))
}

fn names_of(alloc: Global, words: &[u8]) -> Result<Option<Row<Text>>, NoMemory>
    ensures { IfOk result (λ found. found ≡ spec.names_from [] (spec.words_of words.now)) }
{
    let mut names = Row::new(alloc);
    let mut left = Some(words);
    while let Some(rest) = left {
        let (name, behind) = cut(rest, b' ');
        if !is_name(name) {
            return Ok(None);
        }
        names.push(name_text(alloc, name)?)?;
        left = behind;
    }
    Ok(Some(names))
}

#[tactic(auto, using(crate::proofs::PieceLemmas::some_pieces))]
fn reload_of(alloc: Global, left: Option<&[u8]>) -> Result<Option<Order>, NoMemory>
    ensures { IfOk result (λ found. found ≡ spec.reload_of (pieces_behind space (option_copied left.entry))) }
{
    match left {
        Some(words) => { Ok(pairs_of(alloc, words)?.map(|pairs| Order::Call(Call::Reload(pairs)))) }
        None => Ok(None),
    }
}

#[tactic(auto, using(crate::proofs::PieceLemmas::some_pieces))]
fn remove_of(alloc: Global, left: Option<&[u8]>) -> Result<Option<Order>, NoMemory>
    ensures { IfOk result (λ found. found ≡ spec.remove_of (pieces_behind space (option_copied left.entry))) }
{
    match left {
        Some(words) => Ok(names_of(alloc, words)?.map(|names| Order::Call(Call::Remove(names)))),
        None => Ok(None),
    }
}

#[tactic(auto, using(crate::proofs::PieceLemmas::nothing_behind))]
fn alone(left: Option<&[u8]>, order: Order) -> Option<Order>
    ensures { result ≡ spec.nothing_else order (pieces_behind space (option_copied left.entry)) }
{
    match left {
        None => Some(order),
        Some(_) => None,
    }
}

fn order_of(alloc: Global, word: Word, left: Option<&[u8]>) -> Result<Option<Order>, NoMemory>
    ensures { IfOk result (λ found. found ≡ spec.order_of word (pieces_behind space (option_copied left.entry))) }
{
    match word {
        Word::Reload => reload_of(alloc, left),
        Word::Remove => remove_of(alloc, left),
        Word::Type => Ok(name_and_offset(alloc, left)?.map(|(name, offset)| Order::Call(
            Call::TypeAt(name, offset),
        ))),
        Word::Members => Ok(name_and_offset(alloc, left)?.map(|(name, offset)| Order::Call(
            Call::MembersAt(name, offset),
        ))),
        Word::Scope => Ok(name_and_offset(alloc, left)?.map(|(name, offset)| Order::Call(
            Call::ScopeAt(name, offset),
        ))),
        Word::Link => Ok(name_and_offset(alloc, left)?.map(|(name, offset)| Order::Call(
            Call::LinkAt(name, offset),
        ))),
        Word::Structure => Ok(one_name(alloc, left)?.map(|name| Order::Call(Call::Structure(
            name,
        )))),
        Word::Typed => Ok(one_name(alloc, left)?.map(|name| Order::Call(Call::LoadedTyped(name)))),
        Word::Cancel => Ok(one_number(left).map(Order::Cancel)),
        Word::Close => Ok(alone(left, Order::Close)),
        Word::Wait => Ok(one_number(left).map(Order::Wait)),
        Word::Idle => Ok(alone(left, Order::Idle)),
    }
}

/// The order that the words of a line give.
pub fn order_from(alloc: Global, words: &[u8]) -> Result<Option<Order>, NoMemory>
    ensures { IfOk result (λ found. found ≡ spec.order_from (spec.words_of words.now)) }
{
    let (first, left) = cut(words, b' ');
    match word_of(first) {
        Some(word) => order_of(alloc, word, left),
        None => Ok(None),
    }
}
