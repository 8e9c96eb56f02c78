//! Reads a source as a unit.

ghost use Rattle.std.specs.Prelude.{◌≡◌, ◌≤◌, [], IfOk, length, map};
ghost use Rattle.std.specs.List.{All};
ghost use Rattle.pc_terms.specs.Bytes.{max_source_bytes};
ghost use Rattle.parse_parts.specs.Words.{IsCut};
ghost use Rattle.positioned_trees.specs.Located.{max_height};
ghost use Rattle.positioned_trees.specs.Trees.{height, numbered as numbered_from};
ghost use Rattle.scan_tokens.specs.Scanned.{scanned};
ghost use Rattle.source_grammar.specs.Lexemes.{lexeme_of};
ghost use Rattle.source_grammar.specs.Units.{root_of};
ghost use Rattle.tree_parser.specs.Levels as levels_spec;
ghost use Rattle.tree_parser.specs.Read as spec;
ghost use Rattle.template_steps.specs.Pieces.{IsPieceOf, parts_in};

use crate::brackets::{Brackets, brackets_of};
use crate::levels::{begun, pieces_of, step};
use crate::lists::built_list;
use crate::packages::{Packages, packages_of};
use crate::problems::{add_problems, ordered, problem_at, with_problems};
use parse_exprs::is_low;
use parse_parts::built::{Kids, MAX_HEIGHT, Tall, no_kids};
use pc_terms::{Code, NoMemory, Problem, Row, Span, TreeKind};
use positioned_trees::{SourceUnit, Tree, number};
use scan_tokens::{Token, Tokens, scan};
use std::alloc::Global;
use template_steps::pieces::Piece;
use template_steps::statements::ListKind;
use tree_lower::{appended, unlabelled};

// What was read of the tokens from this number on.
fn pieces_behind(
    alloc: Global,
    text: &str,
    tokens: &[Token],
    start: usize,
) -> Result<Row<Piece>, NoMemory>
    requires cut { All (IsCut text.now) tokens.now }
    requires few { length tokens.now ≤ max_source_bytes }
    requires within { start ≤ length tokens.now }
    ensures is { IfOk result (λ pieces. parts_in text.now pieces ≡ levels_spec.parts_behind (map (lexeme_of text.now) tokens.now) start) }
    ensures words { IfOk result (λ pieces. All (IsPieceOf text.now) pieces) }
{
    let mut levels = begun(alloc);
    for at in start..tokens.len() {
        levels = step(alloc, text, tokens, levels, tokens[at], at)?;
    }
    Ok(pieces_of(levels))
}

// The trees of a unit: its package clauses and its statements.
fn kids_of(alloc: Global, text: &str, tokens: &[Token]) -> Result<Option<Kids>, NoMemory>
    requires cut { All (IsCut text.now) tokens.now }
    requires few { length tokens.now ≤ max_source_bytes }
    ensures { IfOk result (λ kids. kids ≡ spec.kids_of (map (lexeme_of text.now) tokens.now)) }
{
    let Packages { kids, behind } = packages_of(alloc, text, tokens)?;
    let pieces = pieces_behind(alloc, text, tokens, behind)?;
    let statements = built_list(alloc, text, ListKind::Unit, pieces)?;
    appended(kids, statements.kids)
}

fn root_over(alloc: Global, text: &str, kids: Option<Kids>) -> Option<Tall>
    requires { length text.now ≤ max_source_bytes }
    ensures { result ≡ spec.root_over (length text.now) kids }
{
    let span = Span {
        start: 0,
        end: text.len() as u32,
    };
    unlabelled(alloc, TreeKind::Unit, span, kids)
}

fn numbered(alloc: Global, tree: Tree) -> Result<Tree, NoMemory>
    requires { height tree ≤ max_height }
    ensures { IfOk result (λ now. now ≡ (numbered_from tree 0).tree) }
{
    let mut tree = tree;
    match number(alloc, &mut tree, 0) {
        Some(_) => Ok(tree),
        None => Err(NoMemory {}),
    }
}

fn unit_over(
    alloc: Global,
    text: &str,
    root: Tree,
    problems: Row<Problem>,
) -> Result<SourceUnit, NoMemory>
    requires { length text.now ≤ max_source_bytes }
    ensures { IfOk result (λ unit. unit ≡ spec.unit_over text.now root problems) }
{
    Ok(SourceUnit {
        root,
        problems: ordered(alloc, problems)?,
        length: text.len() as u32,
    })
}

// The root of a unit without trees.
fn empty_root(alloc: Global, text: &str) -> Result<Tree, NoMemory>
    requires { length text.now ≤ max_source_bytes }
    ensures { IfOk result (λ root. root ≡ root_of (length text.now) []) }
{
    match root_over(alloc, text, no_kids(alloc)) {
        Some(tall) => numbered(alloc, tall.tree),
        None => Err(NoMemory {}),
    }
}

// The unit without trees, with one problem beside those of the scanner.
fn empty_with(
    alloc: Global,
    text: &str,
    problems: Row<Problem>,
    code: Code,
    span: Span,
) -> Result<SourceUnit, NoMemory>
    requires { length text.now ≤ max_source_bytes }
    ensures { IfOk result (λ unit. unit ≡ spec.empty_with text.now problems code span) }
{
    let mut all = Row::new(alloc);
    all.push(problem_at(alloc, code, span)?)?;
    let all = with_problems(all, problems)?;
    let root = empty_root(alloc, text)?;
    unit_over(alloc, text, root, all)
}

fn too_high(alloc: Global, text: &str, problems: Row<Problem>) -> Result<SourceUnit, NoMemory>
    requires { length text.now ≤ max_source_bytes }
    ensures { IfOk result (λ unit. unit ≡ spec.too_high text.now problems) }
{
    empty_with(alloc, text, problems, Code::P4, Span { start: 0, end: 0 })
}

// The unit with this root, and what is wrong in it.
fn unit_with(
    alloc: Global,
    text: &str,
    root: Tree,
    problems: Row<Problem>,
) -> Result<SourceUnit, NoMemory>
    requires { length text.now ≤ max_source_bytes }
    ensures { IfOk result (λ unit. unit ≡ spec.unit_with text.now root problems) }
{
    let mut found = Row::new(alloc);
    add_problems(alloc, &root, &mut found)?;
    let all = with_problems(found, problems)?;
    unit_over(alloc, text, root, all)
}

// The unit whose root this is, if there is one and it is not too high.
fn unit_under(
    alloc: Global,
    text: &str,
    problems: Row<Problem>,
    tall: Option<Tall>,
) -> Result<SourceUnit, NoMemory>
    requires { length text.now ≤ max_source_bytes }
    ensures { IfOk result (λ unit. unit ≡ spec.unit_under text.now problems tall) }
{
    let Some(tall) = tall else {
        return too_high(alloc, text, problems)
    };
    if is_low(&tall.tree, MAX_HEIGHT) {
        let root = numbered(alloc, tall.tree)?;
        unit_with(alloc, text, root, problems)
    } else {
        too_high(alloc, text, problems)
    }
}

// The unit of a text whose brackets match and are not too many.
fn read_unit(alloc: Global, text: &str, tokens: Tokens) -> Result<SourceUnit, NoMemory>
    requires short { length text.now ≤ max_source_bytes }
    requires scanned { tokens ≡ scanned text.now }
    ensures { IfOk result (λ unit. unit ≡ spec.read_of text.now tokens) }
{
    let kids = kids_of(alloc, text, tokens.tokens.as_slice())?;
    let tall = root_over(alloc, text, kids);
    unit_under(alloc, text, tokens.problems, tall)
}

/// The unit of a source: its trees, numbered in pre-order, and what is wrong in it, by start, end and code. It is empty
/// where a bracket does not match, where more than 400 are open at one place, or where its tree is higher than 400; of
/// these the first is its one problem beside those of its tokens.
#[tactic(auto, unfolding(crate::specs::Read::unit_of))]
pub fn parse_unit(alloc: Global, text: &str) -> Result<SourceUnit, NoMemory>
    requires { length text.now ≤ max_source_bytes }
    ensures { IfOk result (λ unit. unit ≡ spec.unit_of text.now) }
{
    let tokens = scan(alloc, text)?;
    match brackets_of(alloc, text, tokens.tokens.as_slice())? {
        Brackets::Unmatched(span) => empty_with(alloc, text, tokens.problems, Code::P3, span),
        Brackets::TooMany => too_high(alloc, text, tokens.problems),
        Brackets::Matching => read_unit(alloc, text, tokens),
    }
}
