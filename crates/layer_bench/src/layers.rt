//! The layers that can be measured. Each gives a number, so that none of its work can be left out.

ghost use Rattle.std.specs.Prelude.{◌≡◌, ◌≤◌, length, IfOk};
ghost use Rattle.pc_terms.specs.Bytes.{max_source_bytes};
ghost use Rattle.positioned_trees.specs.Located.{IsPlaced, located};
ghost use Rattle.scan_tokens.specs.Scanned.{scanned};
ghost use Rattle.source_grammar.specs.Lexemes.{lexemes};
ghost use Rattle.tree_parser.specs.Read.{unit_of};
ghost use Rattle.layer_bench.specs.Counts.{IsCount, IsEnd, IsPartBy, kid_count};

use parse_exprs::parse_expr;
use parse_parts::{Part, parse_type};
use parse_patterns::parse_pattern;
use pc_terms::{NoMemory, Row};
use positioned_trees::{SourceUnit, is_placed, locate};
use scan_tokens::{Tokens, scan};
use std::alloc::Global;
use tree_parser::parse_unit;

/// What reads a part of a source.
#[derive(Clone, Copy, Debug)]
pub enum Reader {
    Types,
    Patterns,
    Exprs,
}

#[derive(Clone, Copy, Debug)]
pub enum Layer {
    /// The scanner, with the newline rule.
    Scan,
    /// A reader of parts, at the first token.
    Parts(Reader),
    /// The whole parser.
    Units,
    /// The tree at the middle of a text that is one type.
    Locate,
}

// How many tokens a text has.
fn token_count(alloc: Global, text: &str, times: u32) -> Result<usize, NoMemory>
    requires { length text.now ≤ max_source_bytes }
    ensures { IfOk result (λ count. count ≡ length (scanned text.now).tokens) }
{
    let mut count = scan(alloc, text)?.tokens.len();
    for _ in 1..times {
        count = scan(alloc, text)?.tokens.len();
    }
    Ok(count)
}

#[tactic(auto, unfolding(scan_tokens::specs::Scanned::scanned))]
fn tokens_of(alloc: Global, text: &str) -> Result<Tokens, NoMemory>
    requires { length text.now ≤ max_source_bytes }
    ensures exact { IfOk result (λ tokens. tokens ≡ scanned text.now) }
    ensures scanned { IfOk result (λ tokens. tokens ≡ scanned tokens.text) }
    ensures short { IfOk result (λ tokens. length tokens.text ≤ max_source_bytes) }
{
    scan(alloc, text)
}

fn part_once(alloc: Global, reader: Reader, tokens: &Tokens) -> Result<Part, NoMemory>
    requires short { length tokens.now.text ≤ max_source_bytes }
    requires scanned { tokens.now ≡ scanned tokens.now.text }
    ensures { IfOk result (IsPartBy reader (lexemes tokens.now)) }
{
    match reader {
        Reader::Types => parse_type(alloc, tokens, 0),
        Reader::Patterns => parse_pattern(alloc, tokens, 0),
        Reader::Exprs => parse_expr(alloc, tokens, 0),
    }
}

fn end_once(alloc: Global, reader: Reader, tokens: &Tokens) -> Result<u32, NoMemory>
    requires short { length tokens.now.text ≤ max_source_bytes }
    requires scanned { tokens.now ≡ scanned tokens.now.text }
    ensures { IfOk result (IsEnd reader (lexemes tokens.now)) }
{
    match part_once(alloc, reader, tokens)? {
        Part::Read(_, end) | Part::NotHere(end) | Part::TooHigh(end) => Ok(end),
    }
}

// The number of the token at which the part ends, or that no part admits.
fn part_end(alloc: Global, reader: Reader, text: &str, times: u32) -> Result<usize, NoMemory>
    requires { length text.now ≤ max_source_bytes }
    ensures { IfOk result (IsEnd reader (lexemes (scanned text.now))) }
{
    let tokens = tokens_of(alloc, text)?;
    let mut end = end_once(alloc, reader, &tokens)?;
    for _ in 1..times {
        end = end_once(alloc, reader, &tokens)?;
    }
    Ok(end as usize)
}

fn kids_once(alloc: Global, text: &str) -> Result<usize, NoMemory>
    requires { length text.now ≤ max_source_bytes }
    ensures { IfOk result (λ count. count ≡ kid_count (unit_of text.now)) }
{
    let unit = parse_unit(alloc, text)?;
    Ok(unit.root.kids.len())
}

// How many trees stand right below the root of a text's unit.
fn root_kids(alloc: Global, text: &str, times: u32) -> Result<usize, NoMemory>
    requires { length text.now ≤ max_source_bytes }
    ensures { IfOk result (λ count. count ≡ kid_count (unit_of text.now)) }
{
    let mut count = kids_once(alloc, text)?;
    for _ in 1..times {
        count = kids_once(alloc, text)?;
    }
    Ok(count)
}

fn located_in(unit: &SourceUnit, offset: u32, times: u32) -> Option<u32>
    requires { IsPlaced unit.now }
    ensures { result ≡ located unit.now offset }
{
    let mut id = locate(unit, offset);
    for _ in 1..times {
        id = locate(unit, offset);
    }
    id
}

// The id of the tree, and `None` where the text is no type.
fn middle_tree(alloc: Global, text: &str, times: u32) -> Result<Option<usize>, NoMemory>
    requires { length text.now ≤ max_source_bytes }
{
    let tokens = tokens_of(alloc, text)?;
    let Part::Read(root, _) = parse_type(alloc, &tokens, 0)? else {
        return Ok(None);
    };
    let unit = SourceUnit {
        root,
        problems: Row::new(alloc),
        length: text.len() as u32,
    };
    if !is_placed(&unit) {
        return Ok(None);
    }
    Ok(located_in(&unit, unit.length / 2, times).map(|id| id as usize))
}

/// What a layer gives of a text, which it reads so many times, or `None` where it cannot be run over this text.
pub fn count_of(
    alloc: Global,
    layer: Layer,
    text: &str,
    times: u32,
) -> Result<Option<usize>, NoMemory>
    requires small { length text.now ≤ max_source_bytes }
    ensures { IfOk result (IsCount layer text.now) }
{
    match layer {
        Layer::Scan => Ok(Some(token_count(alloc, text, times)?)),
        Layer::Parts(reader) => Ok(Some(part_end(alloc, reader, text, times)?)),
        Layer::Units => Ok(Some(root_kids(alloc, text, times)?)),
        Layer::Locate => middle_tree(alloc, text, times),
    }
}
