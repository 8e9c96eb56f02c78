//! Reads the longest type that begins at a token.

ghost use Rattle.std.specs.Prelude.{◌≡◌, ◌+◌, ◌≤◌, IfOk, Some, length, map, take, drop};
ghost use Rattle.std.specs.List.{All};
ghost use Rattle.std.specs.Option.{ForSome};
ghost use Rattle.pc_terms.specs.Bytes.{max_source_bytes};
ghost use Rattle.scan_tokens.specs.Scanned.{scanned};
ghost use Rattle.source_grammar.specs.Lexemes.{lexeme_of, lexemes};
ghost use Rattle.positioned_trees.specs.Trees.{height, max_number, numbered};
ghost use Rattle.parse_parts.specs.Built.{max_height};
ghost use Rattle.parse_parts.specs.Parting as spec;
ghost use Rattle.parse_parts.specs.Parting.{IsTypeAt};
ghost use Rattle.parse_parts.specs.Reading.{ComesTo, LeadsTo, reader};
ghost use Rattle.parse_parts.specs.Standing.{IsPlacedPart};
ghost use Rattle.parse_parts.specs.Words.{IsCut};

use crate::built::Tall;
use crate::parts::Part;
use crate::stack::Stack;
use crate::states::{State, Tail};
use crate::steps::{admits, advance, is_whole, type_at};
use crate::symbols::read_symbol;
use crate::words::word_in;
use pc_terms::NoMemory;
use positioned_trees::number;
use scan_tokens::{Token, Tokens};
use std::alloc::Global;

/// How far the reader comes: its last state, how many tokens it has read, and how many of them are the longest type.
#[derive(Debug, Drop)]
struct Reading {
    state: State,
    reached: u32,
    best: Option<u32>,
}

fn is_type(state: &State) -> bool
    ensures { result ≡ (reader).whole state.now }
{
    state.frames.is_empty() && is_whole(&state.tail)
}

fn read(alloc: Global, text: &str, tokens: &[Token]) -> Result<Reading, NoMemory>
    requires cut { All (IsCut text.now) tokens.now }
    requires few { length tokens.now ≤ max_source_bytes }
    ensures { IfOk result (λ r. ComesTo (map (lexeme_of text.now) tokens.now) r.state r.reached r.best) }
{
    let mut state = State {
        frames: Stack::new(alloc),
        heads: Stack::new(alloc),
        tail: Tail::Begin,
    };
    let mut reached = 0;
    let mut best = None;
    for token in tokens {
        if is_type(&state) {
            best = Some(reached);
        }
        let word = word_in(text, *token);
        let symbol = read_symbol(token.kind, word.as_bytes());
        if !admits(&state, symbol) {
            return Ok(Reading {
                state,
                reached,
                best,
            });
        }
        state = advance(alloc, state, symbol, token.span, word)?;
        reached += 1;
    }
    if is_type(&state) {
        best = Some(reached);
    }
    Ok(Reading {
        state,
        reached,
        best,
    })
}

// The state after the first `count` tokens, which are the longest type of this reading.
fn state_behind(
    alloc: Global,
    text: &str,
    tokens: &[Token],
    reading: Reading,
    count: u32,
) -> Result<State, NoMemory>
    requires cut { All (IsCut text.now) tokens.now }
    requires few { length tokens.now ≤ max_source_bytes }
    requires longest { ComesTo (map (lexeme_of text.now) tokens.now) reading.state reading.reached (Some count) }
    ensures { IfOk result (LeadsTo (take count (map (lexeme_of text.now) tokens.now))) }
{
    if count == reading.reached {
        return Ok(reading.state);
    }
    drop(reading);
    let again = read(alloc, text, &tokens[..count as usize])?;
    Ok(again.state)
}

/// The part whose tree this is, with the trees' numbers.
pub fn part_of(alloc: Global, tall: Option<Tall>, behind: u32) -> Part
    requires low { ForSome tall (λ tall. height tall.tree ≤ max_height) }
    requires few { ForSome tall (λ tall. (numbered tall.tree 0).next ≤ max_number) }
    ensures { result ≡ spec.part_of tall behind }
{
    let Some(tall) = tall else {
        return Part::TooHigh(behind)
    };
    let mut tree = tall.tree;
    match number(alloc, &mut tree, 0) {
        Some(_) => Part::Read(tree, behind),
        None => unreachable!(),
    }
}

// Reads the longest type that these tokens begin with. The first of them is token `at`.
fn parse(alloc: Global, text: &str, tokens: &[Token], at: u32) -> Result<Part, NoMemory>
    requires cut { All (IsCut text.now) tokens.now }
    requires few { at + length tokens.now ≤ max_source_bytes }
    ensures { IfOk result (λ part. IsTypeAt (map (lexeme_of text.now) tokens.now) at part) }
{
    let reading = read(alloc, text, tokens)?;
    match reading.best {
        None => Ok(Part::NotHere(at + reading.reached)),
        Some(count) => {
            let state = state_behind(alloc, text, tokens, reading, count)?;
            let tall = type_at(alloc, state.heads, state.tail)?;
            Ok(part_of(alloc, tall, at + count))
        }
    }
}

/// Reads the longest type that begins at token `at`. It takes memory for what is open, and for the tree.
pub fn parse_type(alloc: Global, tokens: &Tokens, at: u32) -> Result<Part, NoMemory>
    requires short { length tokens.now.text ≤ max_source_bytes }
    requires scanned { tokens.now ≡ scanned tokens.now.text }
    requires within { at ≤ length tokens.now.tokens }
    ensures is { IfOk result (λ part. IsTypeAt (drop at (lexemes tokens.now)) at part) }
    ensures placed { IfOk result (λ part. IsPlacedPart (length tokens.now.text) part) }
{
    let text = tokens.text.as_str();
    parse(alloc, text, &tokens.tokens.as_slice()[at as usize..], at)
}
