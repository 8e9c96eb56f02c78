//! Reads the longest expression that begins at a token.

ghost use Rattle.std.specs.Prelude.{◌≡◌, ◌↔◌, ◌+◌, ◌≤◌, IfOk, IsTrue, length, map, take, drop};
ghost use Rattle.std.specs.List.{All};
ghost use Rattle.std.specs.Option.{option_map, ForSome};
ghost use Rattle.pc_terms.specs.Bytes.{max_source_bytes};
ghost use Rattle.scan_tokens.specs.Scanned.{scanned};
ghost use Rattle.source_grammar.specs.Lexemes.{lexeme_of, lexemes};
ghost use Rattle.reading_machines.specs.Machines.{noted as counted, reading_of, run};
ghost use Rattle.reading_machines.specs.Parts.{anything};
ghost use Rattle.parse_parts.specs.Built.{max_height};
ghost use Rattle.parse_parts.specs.Words.{IsCut};
ghost use Rattle.parse_exprs.specs.Items.{IsItemOf, items_in};
ghost use Rattle.parse_exprs.specs.Levels as spec;
ghost use Rattle.parse_exprs.specs.Levels.{AreLevelsOf, levels_in, reader};
ghost use Rattle.parse_exprs.specs.Parting as parting;
ghost use Rattle.positioned_trees.specs.Trees.{height};

use crate::items::{Item, step_items};
use crate::levels::{Levels, begun, is_whole, step};
use expr_steps::steps::{begun as expr_begun, built_at};
use expr_tails::items::Built;
use expr_tails::states::{Limit, State};
use parse_parts::Part;
use parse_parts::built::{MAX_HEIGHT, Tall};
use pc_terms::{NoMemory, Row};
use positioned_trees::{Tree, number};
use scan_tokens::{Token, Tokens};
use std::alloc::Global;

/// How far the reader comes: its levels where it has read all tokens, how many it has read, and how many of them are the longest
/// expression.
#[derive(Debug, Drop)]
struct Reading {
    levels: Option<Levels>,
    reached: u32,
    best: Option<u32>,
}

fn noted(passes: bool, count: u32, best: Option<u32>) -> Option<u32>
    ensures { result ≡ counted passes count best }
{
    if passes { Some(count) } else { best }
}

fn read(alloc: Global, text: &str, tokens: &[Token]) -> Result<Reading, NoMemory>
    requires cut { All (IsCut text.now) tokens.now }
    requires few { length tokens.now ≤ max_source_bytes }
    ensures levels { IfOk result (λ r. option_map (levels_in text.now) r.levels ≡ run (reader).step (map (lexeme_of text.now) tokens.now) (reader).start) }
    ensures items { IfOk result (λ r. ForSome r.levels (AreLevelsOf text.now)) }
    ensures reached { IfOk result (λ r. r.reached ≡ (reading_of reader anything (map (lexeme_of text.now) tokens.now)).reached) }
    ensures best { IfOk result (λ r. r.best ≡ (reading_of reader anything (map (lexeme_of text.now) tokens.now)).best) }
{
    let mut levels = begun(alloc);
    let mut reached = 0;
    let mut best = None;
    for token in tokens {
        best = noted(is_whole(&levels), reached, best);
        let Some(next) = step(alloc, text, levels, *token)? else {
            return Ok(Reading {
                levels: None,
                reached,
                best,
            })
        };
        levels = next;
        reached += 1;
    }
    best = noted(is_whole(&levels), reached, best);
    Ok(Reading {
        levels: Some(levels),
        reached,
        best,
    })
}

// The items that these tokens are.
fn items_of(alloc: Global, text: &str, tokens: &[Token]) -> Result<Row<Item>, NoMemory>
    requires cut { All (IsCut text.now) tokens.now }
    requires few { length tokens.now ≤ max_source_bytes }
    ensures is { IfOk result (λ items. items_in text.now items ≡ parting.items_of (map (lexeme_of text.now) tokens.now)) }
    ensures items { IfOk result (λ items. All (IsItemOf text.now) items) }
{
    match read(alloc, text, tokens)?.levels {
        Some(levels) => Ok(levels.current.items),
        None => Ok(Row::new(alloc)),
    }
}

fn tall_of(alloc: Global, state: Option<State>) -> Result<Option<Tall>, NoMemory>
    ensures { IfOk result (λ tall. tall ≡ spec.tall_of state) }
{
    match state {
        Some(state) => {
            let Built { tall, free } = built_at(alloc, state)?;
            drop(free);
            Ok(tall)
        }
        None => Ok(None),
    }
}

// The tree of these items.
fn tree_of(alloc: Global, text: &str, items: Row<Item>) -> Result<Option<Tall>, NoMemory>
    requires { All (IsItemOf text.now) items }
    ensures { IfOk result (λ tall. tall ≡ spec.tree_of (items_in text.now items)) }
{
    let begun = expr_begun(alloc, Limit::Expr);
    let state = step_items(alloc, text, begun, items)?;
    tall_of(alloc, state)
}

/// Whether the tree is no higher than this.
pub fn is_low(tree: &Tree, room: u32) -> bool
    ensures { IsTrue result ↔ (height tree.now ≤ room) }
{
    if room == 0 {
        return false;
    }
    for kid in tree.kids.as_slice() {
        if !is_low(kid, room - 1) {
            return false;
        }
    }
    true
}

// The part whose tree this is, with the trees' numbers. As many trees as have no numbers find no memory.
fn numbered_part(alloc: Global, tree: Tree, behind: u32) -> Result<Part, NoMemory>
    requires low { height tree ≤ max_height }
    ensures { IfOk result (λ part. part ≡ parting.numbered_part tree behind) }
{
    let mut tree = tree;
    match number(alloc, &mut tree, 0) {
        Some(_) => Ok(Part::Read(tree, behind)),
        None => Err(NoMemory {}),
    }
}

fn part_of(alloc: Global, tall: Option<Tall>, behind: u32) -> Result<Part, NoMemory>
    ensures { IfOk result (λ part. part ≡ parting.part_of tall behind) }
{
    let Some(tall) = tall else {
        return Ok(Part::TooHigh(behind))
    };
    if is_low(&tall.tree, MAX_HEIGHT) {
        numbered_part(alloc, tall.tree, behind)
    } else {
        Ok(Part::TooHigh(behind))
    }
}

// Reads the longest expression that these tokens begin with. The first of them is token `at`.
fn parse(alloc: Global, text: &str, tokens: &[Token], at: u32) -> Result<Part, NoMemory>
    requires cut { All (IsCut text.now) tokens.now }
    requires few { at + length tokens.now ≤ max_source_bytes }
    ensures { IfOk result (λ part. part ≡ parting.expr_part (map (lexeme_of text.now) tokens.now) at) }
{
    let Reading {
        levels,
        reached,
        best,
    } = read(alloc, text, tokens)?;
    drop(levels);
    match best {
        None => Ok(Part::NotHere(at + reached)),
        Some(count) => {
            let items = items_of(alloc, text, &tokens[..count as usize])?;
            let tall = tree_of(alloc, text, items)?;
            part_of(alloc, tall, at + count)
        }
    }
}

/// Reads the longest expression that begins at token `at`: what the machine of specs/ says of these tokens. It takes memory for what is
/// open, and for the tree.
pub fn parse_expr(alloc: Global, tokens: &Tokens, at: u32) -> Result<Part, NoMemory>
    requires short { length tokens.now.text ≤ max_source_bytes }
    requires scanned { tokens.now ≡ scanned tokens.now.text }
    requires within { at ≤ length tokens.now.tokens }
    ensures { IfOk result (λ part. part ≡ parting.expr_part (drop at (lexemes tokens.now)) at) }
{
    let text = tokens.text.as_str();
    parse(alloc, text, &tokens.tokens.as_slice()[at as usize..], at)
}
