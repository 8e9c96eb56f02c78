//! The cases of a match, a catch, or a function.

ghost use Rattle.std.specs.Prelude.{◌≡◌, ◌++◌, IfOk, map, drop};
ghost use Rattle.std.specs.List.{All};
ghost use Rattle.parse_patterns.specs.Reading.{begun as pattern_start};
ghost use Rattle.expr_steps.specs.Reading.{begun as expr_start};
ghost use Rattle.parse_exprs.specs.Cases as spec;
ghost use Rattle.parse_exprs.specs.Items.{IsItemOf, item_in, items_in, next_symbol as symbol_next, begins_case as case_next, begins_template as template_next, span_at};
ghost use Rattle.parse_exprs.specs.Lists.{end_of};

use crate::items::{
    Item, depth_behind, is_case_word, is_template_word, span_in, step_item, symbol_in,
};
use crate::lists::{BuiltList, built_list, dropped, end_of as end_behind, with_built};
use expr_frames::generators::pattern_begun;
use expr_steps::steps::{begun, guard_at, is_read};
use expr_tails::items::{Built, BuiltKids};
use expr_tails::states::{Limit, State};
use expr_tails::symbols::{Symbol, Word};
use expr_tails::tails::with_spans;
use parse_parts::built::{Kids, Tall, joined, no_kids, node};
use parse_parts::stack::Stack;
use parse_parts::words::word_in;
use parse_patterns::admitting::{admits, is_simple, is_whole};
use parse_patterns::patterns::pattern_at;
use parse_patterns::states::{Current, State as PatternState};
use parse_patterns::steps::advance;
use pc_terms::{NoMemory, Row, Span, Text, TreeKind};
use positioned_trees::Detail;
use std::alloc::Global;
use tree_lower::{appended, detailed};

/// Whether what was read is a pattern.
pub fn is_pattern(pattern: &PatternState) -> bool
    ensures { result ≡ spec.is_pattern pattern.now }
{
    pattern.frames.is_empty()
        && match &pattern.current {
            Current::InType(_, ty) => is_simple(ty),
            Current::InInfix(chain) => is_whole(&chain.tail),
        }
}

pub fn is_arrow(symbol: Symbol) -> bool
    ensures { result ≡ spec.is_arrow symbol }
{
    matches!(symbol, Symbol::Arrow)
}

fn is_if_next(symbol: Option<Symbol>) -> bool
    ensures { result ≡ spec.is_if_next symbol }
{
    matches!(symbol, Some(Symbol::Word(Word::If)))
}

fn next_symbol(text: &str, rest: &Stack<Item>) -> Option<Symbol>
    requires { All (IsItemOf text.now) rest.now }
    ensures { result ≡ symbol_next (items_in text.now rest.now) }
{
    match rest.top() {
        Some(item) => Some(symbol_in(text, item)),
        None => None,
    }
}

// ---- what stands before the statements of a case

#[tactic(auto, unfolding(source_grammar::specs::Lexemes::lexeme_of))]
fn admits_item(text: &str, pattern: &PatternState, item: &Item) -> bool
    requires { IsItemOf text.now item.now }
    ensures { result ≡ spec.admits_item pattern.now (item_in text.now item.now) }
{
    match item {
        Item::Token(token) => admits(pattern, *token, word_in(text, *token)),
        Item::Braces(_) => false,
    }
}

// Whether the pattern goes on with the next item.
fn admits_next(text: &str, pattern: &PatternState, rest: &Stack<Item>) -> bool
    requires { All (IsItemOf text.now) rest.now }
    ensures { result ≡ spec.admits_next pattern.now (items_in text.now rest.now) }
{
    match rest.top() {
        Some(item) => admits_item(text, pattern, item),
        None => false,
    }
}

// The pattern behind an item that it admits.
#[tactic(auto, unfolding(source_grammar::specs::Lexemes::lexeme_of))]
fn advance_by(
    alloc: Global,
    text: &str,
    pattern: PatternState,
    item: Item,
) -> Result<PatternState, NoMemory>
    requires { IsItemOf text.now item }
    ensures { IfOk result (λ now. now ≡ spec.advanced_by pattern (item_in text.now item)) }
{
    match item {
        Item::Token(token) => advance(alloc, pattern, token, word_in(text, token)),
        Item::Braces(braces) => {
            drop(braces);
            Ok(pattern)
        }
    }
}

fn pattern_or_none(pattern: PatternState) -> Option<PatternState>
    ensures { result ≡ spec.pattern_or_none pattern }
{
    if is_pattern(&pattern) {
        Some(pattern)
    } else {
        drop(pattern);
        None
    }
}

// The pattern that the next items begin with.
fn pattern_of(
    alloc: Global,
    text: &str,
    rest: &mut Stack<Item>,
) -> Result<Option<PatternState>, NoMemory>
    requires { All (IsItemOf text.now) rest.old }
    ensures is { IfOk result (λ found. spec.behind found (items_in text.now rest.new) ≡ spec.pattern_of pattern_start (items_in text.now rest.old)) }
    ensures items { IfOk result (λ found. All (IsItemOf text.now) rest.new) }
{
    let mut pattern = pattern_begun(alloc);
    'tokens: while admits_next(text, &pattern, rest) {
        let Some(item) = rest.pop() else {
            return Ok(pattern_or_none(pattern))
        };
        pattern = advance_by(alloc, text, pattern, item)?;
    }
    Ok(pattern_or_none(pattern))
}

fn ends_guard(text: &str, state: &State, item: &Item) -> bool
    requires { IsItemOf text.now item.now }
    ensures { result ≡ spec.ends_guard state.now (item_in text.now item.now) }
{
    is_arrow(symbol_in(text, item)) && is_read(state)
}

// Whether the arrow of the case stands next, behind a guard that is whole.
fn is_guard_over(text: &str, state: &State, rest: &Stack<Item>) -> bool
    requires { All (IsItemOf text.now) rest.now }
    ensures { result ≡ spec.is_guard_over state.now (items_in text.now rest.now) }
{
    match rest.top() {
        Some(item) => ends_guard(text, state, item),
        None => false,
    }
}

// The guard that the next items begin with, up to the arrow.
fn guard_of(alloc: Global, text: &str, rest: &mut Stack<Item>) -> Result<Option<State>, NoMemory>
    requires { All (IsItemOf text.now) rest.old }
    ensures is { IfOk result (λ found. spec.behind found (items_in text.now rest.new) ≡ spec.guard_of (expr_start Limit.CaseGuard) (items_in text.now rest.old)) }
    ensures items { IfOk result (λ found. All (IsItemOf text.now) rest.new) }
{
    let mut state = begun(alloc, Limit::CaseGuard);
    'guard: while !is_guard_over(text, &state, rest) {
        let Some(item) = rest.pop() else {
            return Ok(None)
        };
        let Some(next) = step_item(alloc, text, state, item)? else {
            return Ok(None)
        };
        state = next;
    }
    Ok(Some(state))
}

// What stands before the statements of a case.
#[derive(Debug, Drop)]
struct CaseHead {
    word: Span,
    pattern: Option<Tall>,
    guard: Option<Built>,
    arrow: Span,
}

fn arrow_behind(
    text: &str,
    rest: &mut Stack<Item>,
    word: Span,
    pattern: Option<Tall>,
    guard: Option<Built>,
) -> Option<CaseHead>
    requires { All (IsItemOf text.now) rest.old }
    ensures is { spec.behind result (items_in text.now rest.new) ≡ spec.arrow_behind word pattern guard (items_in text.now rest.old) }
    ensures items { All (IsItemOf text.now) rest.new }
{
    let Some(item) = rest.pop() else { return None };
    let is_here = is_arrow(symbol_in(text, &item));
    let arrow = span_in(text, &item);
    drop(item);
    if is_here {
        Some(CaseHead {
            word,
            pattern,
            guard,
            arrow,
        })
    } else {
        None
    }
}

fn after_pattern(
    alloc: Global,
    text: &str,
    rest: &mut Stack<Item>,
    word: Span,
    pattern: Option<Tall>,
) -> Result<Option<CaseHead>, NoMemory>
    requires { All (IsItemOf text.now) rest.old }
    ensures is { IfOk result (λ found. spec.behind found (items_in text.now rest.new) ≡ spec.after_pattern word pattern (items_in text.now rest.old)) }
    ensures items { IfOk result (λ found. All (IsItemOf text.now) rest.new) }
{
    if !is_if_next(next_symbol(text, rest)) {
        return Ok(arrow_behind(text, rest, word, pattern, None));
    }
    dropped(rest, 1);
    match guard_of(alloc, text, rest)? {
        Some(state) => {
            let guard = guard_at(alloc, state)?;
            Ok(arrow_behind(text, rest, word, pattern, Some(guard)))
        }
        None => Ok(None),
    }
}

fn case_head(
    alloc: Global,
    text: &str,
    rest: &mut Stack<Item>,
) -> Result<Option<CaseHead>, NoMemory>
    requires { All (IsItemOf text.now) rest.old }
    ensures is { IfOk result (λ found. spec.behind found (items_in text.now rest.new) ≡ spec.case_head (items_in text.now rest.old)) }
    ensures items { IfOk result (λ found. All (IsItemOf text.now) rest.new) }
{
    let Some(first) = rest.pop() else {
        return Ok(None)
    };
    let is_here = is_case_word(symbol_in(text, &first));
    let word = span_in(text, &first);
    drop(first);
    if !is_here {
        return Ok(None);
    }
    match pattern_of(alloc, text, rest)? {
        Some(pattern) => {
            let pattern = pattern_at(alloc, pattern)?;
            after_pattern(alloc, text, rest, word, pattern)
        }
        None => Ok(None),
    }
}

// ---- its statements

fn is_template_behind(text: &str, rest: &Stack<Item>) -> bool
    requires { All (IsItemOf text.now) rest.now }
    ensures { result ≡ template_next (drop 1 (items_in text.now rest.now)) }
{
    match rest.peek(1) {
        Some(item) => is_template_word(symbol_in(text, item)),
        None => false,
    }
}

fn begins_case(text: &str, rest: &Stack<Item>) -> bool
    requires { All (IsItemOf text.now) rest.now }
    ensures { result ≡ case_next (items_in text.now rest.now) }
{
    match rest.top() {
        Some(item) => is_case_word(symbol_in(text, item)) && !is_template_behind(text, rest),
        None => false,
    }
}

// Whether the next case begins here, where so many brackets are open.
fn ends_case(text: &str, depth: usize, rest: &Stack<Item>) -> bool
    requires { All (IsItemOf text.now) rest.now }
    ensures { result ≡ spec.ends_case depth (items_in text.now rest.now) }
{
    depth == 0 && begins_case(text, rest)
}

// The items up to the next case.
fn case_items(alloc: Global, text: &str, rest: &mut Stack<Item>) -> Result<Row<Item>, NoMemory>
    requires { All (IsItemOf text.now) rest.old }
    ensures is { IfOk result (λ found. items_in text.now found ≡ spec.case_items 0 (items_in text.now rest.old)) }
    ensures behind { IfOk result (λ found. items_in text.now rest.new ≡ spec.behind_case 0 (items_in text.now rest.old)) }
    ensures items { IfOk result (λ found. All (IsItemOf text.now) found) }
    ensures others { IfOk result (λ found. All (IsItemOf text.now) rest.new) }
{
    let mut items = Row::new(alloc);
    let mut depth = 0;
    let mut left = rest.len();
    'items: while !ends_case(text, depth, rest) {
        let Some(item) = rest.pop() else {
            return Ok(items)
        };
        depth = depth_behind(depth, symbol_in(text, &item));
        items.push(item)?;
        left -= 1;
    }
    Ok(items)
}

// Where the case ends.
fn last_end(text: &str, items: &Row<Item>, arrow: Span) -> u32
    ensures { result ≡ end_of arrow.end (map span_at (items_in text.now items.now)) }
{
    end_behind(arrow.end, items.as_slice())
}

fn with_guard(
    kids: Option<Kids>,
    free: Row<Span>,
    guard: Option<Built>,
) -> Result<BuiltKids, NoMemory>
    ensures { IfOk result (λ now. now ≡ record { kids = spec.with_guard kids guard; free = spec.guard_free guard ++ free }) }
{
    match guard {
        Some(guard) => Ok(BuiltKids {
            kids: joined(kids, guard.tall)?,
            free: with_spans(guard.free, free)?,
        }),
        None => Ok(BuiltKids { kids, free }),
    }
}

fn case_over(alloc: Global, head: CaseHead, end: u32, list: BuiltList) -> Result<Built, NoMemory>
    ensures { IfOk result (λ case. case ≡ spec.case_over head end list) }
{
    let span = Span {
        start: head.word.start,
        end,
    };
    let has_guard = head.guard.is_some();
    let kids = joined(no_kids(alloc), head.pattern)?;
    let BuiltKids { kids, free } = with_guard(kids, list.free, head.guard)?;
    let kids = appended(kids, list.kids)?;
    let tall = node(
        TreeKind::Case,
        Text::new(alloc, "case")?,
        head.word,
        span,
        kids,
    );
    Ok(Built {
        tall: detailed(tall, Detail::Case { has_guard }),
        free,
    })
}

fn case_of(alloc: Global, text: &str, rest: &mut Stack<Item>) -> Result<Option<Built>, NoMemory>
    requires { All (IsItemOf text.now) rest.old }
    ensures is { IfOk result (λ found. spec.behind found (items_in text.now rest.new) ≡ spec.case_of (items_in text.now rest.old)) }
    ensures items { IfOk result (λ found. All (IsItemOf text.now) rest.new) }
{
    let Some(head) = case_head(alloc, text, rest)? else {
        return Ok(None)
    };
    let items = case_items(alloc, text, rest)?;
    let end = last_end(text, &items, head.arrow);
    let list = built_list(alloc, text, items)?;
    Ok(Some(case_over(alloc, head, end, list)?))
}

// ---- all of them

/// The cases that all these items are.
pub fn cases_of(alloc: Global, text: &str, rest: Stack<Item>) -> Result<Option<BuiltKids>, NoMemory>
    requires { All (IsItemOf text.now) rest }
    ensures { IfOk result (λ cases. cases ≡ spec.cases_of (items_in text.now rest)) }
{
    let mut rest = rest;
    let mut left = rest.len();
    let mut now = BuiltKids {
        kids: no_kids(alloc),
        free: Row::new(alloc),
    };
    'cases: while !rest.is_empty() {
        if left == 0 {
            return Ok(None);
        }
        let Some(case) = case_of(alloc, text, &mut rest)? else {
            return Ok(None)
        };
        now = with_built(now, case)?;
        left -= 1;
    }
    Ok(Some(now))
}
