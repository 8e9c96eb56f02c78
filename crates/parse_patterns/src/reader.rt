//! Reads the longest pattern that begins at a token.

ghost use Rattle.std.specs.Prelude.{◌≡◌, ◌+◌, ◌≤◌, IfOk, Some, length, map, take, drop};
ghost use Rattle.std.specs.List.{All};
ghost use Rattle.pc_terms.specs.Bytes.{max_source_bytes};
ghost use Rattle.scan_tokens.specs.Scanned.{scanned};
ghost use Rattle.source_grammar.specs.Lexemes.{lexeme_of, lexemes};
ghost use Rattle.reading_machines.specs.Machines.{reading_of, run};
ghost use Rattle.reading_machines.specs.Parts.{anything};
ghost use Rattle.parse_parts.specs.Standing.{IsPlacedPart};
ghost use Rattle.parse_parts.specs.Words.{IsCut};
ghost use Rattle.parse_patterns.specs.Parting.{IsPatternAt};
ghost use Rattle.parse_patterns.specs.Reading as spec;
ghost use Rattle.parse_patterns.specs.Reading.{reader};

use crate::admitting::{admits, is_simple, is_whole};
use crate::patterns::pattern_at;
use crate::states::{Current, State};
use crate::steps::{advance, nothing_yet};
use parse_parts::stack::Stack;
use parse_parts::words::word_in;
use parse_parts::{Part, part_of};
use pc_terms::NoMemory;
use scan_tokens::{Token, Tokens};
use std::alloc::Global;

/// How far the reader comes: its last state, how many tokens it has read, and how many of them are the longest pattern.
#[derive(Debug, Drop)]
struct Reading {
    state: State,
    reached: u32,
    best: Option<u32>,
}

fn begun(alloc: Global) -> State
    ensures { result ≡ spec.begun }
{
    State {
        frames: Stack::new(alloc),
        earlier: None,
        current: nothing_yet(alloc),
    }
}

fn is_pattern(state: &State) -> bool
    ensures { result ≡ (reader).whole state.now }
{
    state.frames.is_empty()
        && match &state.current {
            Current::InType(_, ty) => is_simple(ty),
            Current::InInfix(chain) => is_whole(&chain.tail),
        }
}

fn read(alloc: Global, text: &str, tokens: &[Token]) -> Result<Reading, NoMemory>
    requires cut { All (IsCut text.now) tokens.now }
    requires few { length tokens.now ≤ max_source_bytes }
    ensures { IfOk result (λ r. reading_of reader anything (map (lexeme_of text.now) tokens.now) ≡ record { state = r.state; reached = r.reached; best = r.best }) }
{
    let mut state = begun(alloc);
    let mut reached = 0;
    let mut best = None;
    for token in tokens {
        if is_pattern(&state) {
            best = Some(reached);
        }
        let word = word_in(text, *token);
        if !admits(&state, *token, word) {
            return Ok(Reading {
                state,
                reached,
                best,
            });
        }
        state = advance(alloc, state, *token, word)?;
        reached += 1;
    }
    if is_pattern(&state) {
        best = Some(reached);
    }
    Ok(Reading {
        state,
        reached,
        best,
    })
}

// The state after the first `count` tokens, which are the longest pattern of this reading.
fn state_behind(
    alloc: Global,
    text: &str,
    tokens: &[Token],
    reading: Reading,
    count: u32,
) -> Result<State, NoMemory>
    requires cut { All (IsCut text.now) tokens.now }
    requires few { length tokens.now ≤ max_source_bytes }
    requires longest { reading_of reader anything (map (lexeme_of text.now) tokens.now) ≡ record { state = reading.state; reached = reading.reached; best = Some count } }
    ensures { IfOk result (λ state. run (reader).step (take count (map (lexeme_of text.now) tokens.now)) (reader).start ≡ Some state) }
{
    if count == reading.reached {
        return Ok(reading.state);
    }
    drop(reading);
    let again = read(alloc, text, &tokens[..count as usize])?;
    Ok(again.state)
}

// Reads the longest pattern that these tokens begin with. The first of them is token `at`.
fn parse(alloc: Global, text: &str, tokens: &[Token], at: u32) -> Result<Part, NoMemory>
    requires cut { All (IsCut text.now) tokens.now }
    requires few { at + length tokens.now ≤ max_source_bytes }
    ensures { IfOk result (λ part. IsPatternAt (map (lexeme_of text.now) tokens.now) at part) }
{
    let reading = read(alloc, text, tokens)?;
    match reading.best {
        None => Ok(Part::NotHere(at + reading.reached)),
        Some(count) => {
            let state = state_behind(alloc, text, tokens, reading, count)?;
            let tall = pattern_at(alloc, state)?;
            Ok(part_of(alloc, tall, at + count))
        }
    }
}

/// Reads the longest pattern that begins at token `at`. It takes memory for what is open, and for the tree.
pub fn parse_pattern(alloc: Global, tokens: &Tokens, at: u32) -> Result<Part, NoMemory>
    requires short { length tokens.now.text ≤ max_source_bytes }
    requires scanned { tokens.now ≡ scanned tokens.now.text }
    requires within { at ≤ length tokens.now.tokens }
    ensures is { IfOk result (λ part. IsPatternAt (drop at (lexemes tokens.now)) at part) }
    ensures placed { IfOk result (λ part. IsPlacedPart (length tokens.now.text) part) }
{
    let text = tokens.text.as_str();
    parse(alloc, text, &tokens.tokens.as_slice()[at as usize..], at)
}
