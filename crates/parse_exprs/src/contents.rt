//! What stands in a pair of braces.

ghost use Rattle.std.specs.Prelude.{◌≡◌, ◌<◌, ◌+◌, ◌≤◌, IfOk, length, drop};
ghost use Rattle.std.specs.List.{All};
ghost use Rattle.parse_exprs.specs.Contents as spec;
ghost use Rattle.parse_exprs.specs.Items.{IsItemOf, item_in, items_in};

use crate::cases::{cases_of, is_arrow};
use crate::items::{Item, is_case_word, span_in, step_items, symbol_in};
use crate::lists::{BuiltList, built_list, dropped};
use expr_frames::frames::{Emptied, take_tail};
use expr_frames::generators::{are_generators, generators_at, generators_begun};
use expr_steps::steps::{begun, is_lambda_head, params_at, step};
use expr_tails::items::{Built, BuiltKids, Generators, Inside};
use expr_tails::states::{Begun, Limit, State};
use import_steps::imports::{selectors_at, selectors_begun, step_selector};
use parse_parts::built::joined;
use parse_parts::stack::Stack;
use parse_parts::words::word_in;
use pc_terms::{NoMemory, Row, Span, TreeKind};
use positioned_trees::Selector;
use std::alloc::Global;
use tree_lower::unlabelled;

/// What an opening brace stands behind.
#[derive(Clone, Copy, Debug, PartialEq, Eq)]
pub enum Opening {
    For,
    Dot,
    Other,
}

// ---- the head of a lambda

/// Parameters, where their arrow ends, and how many items both have.
#[derive(Debug, Drop)]
pub struct Params {
    pub begun: Begun,
    pub arrow_end: u32,
    pub count: usize,
}

fn ends_head(text: &str, state: &State, item: &Item) -> bool
    requires { IsItemOf text.now item.now }
    ensures { result ≡ spec.ends_head state.now (item_in text.now item.now) }
{
    is_arrow(symbol_in(text, item)) && is_lambda_head(&state.context)
}

fn head_ended(
    alloc: Global,
    text: &str,
    count: usize,
    state: State,
    item: &Item,
) -> Result<Option<Params>, NoMemory>
    requires words { IsItemOf text.now item.now }
    requires few { count < usize.MAX }
    ensures { IfOk result (λ found. found ≡ spec.head_ended count state (item_in text.now item.now)) }
{
    if !ends_head(text, &state, item) {
        drop(state);
        return Ok(None);
    }
    let State { frames, context } = state;
    drop(frames);
    let Emptied { tail, context } = take_tail(context);
    drop(context);
    Ok(Some(Params {
        begun: params_at(alloc, tail)?,
        arrow_end: span_in(text, item).end,
        count: count + 1,
    }))
}

#[tactic(auto, unfolding(source_grammar::specs::Lexemes::lexeme_of))]
fn token_step(
    alloc: Global,
    text: &str,
    state: State,
    item: &Item,
) -> Result<Option<State>, NoMemory>
    requires { IsItemOf text.now item.now }
    ensures { IfOk result (λ now. now ≡ spec.token_stepped state (item_in text.now item.now)) }
{
    match item {
        Item::Token(token) => step(alloc, state, *token, word_in(text, *token)),
        Item::Braces(_) => {
            drop(state);
            Ok(None)
        }
    }
}

// The head of a lambda, of which so many items were read.
fn head_from(
    alloc: Global,
    text: &str,
    count: usize,
    state: State,
    items: &[Item],
) -> Result<Option<Params>, NoMemory>
    requires words { All (IsItemOf text.now) items.now }
    requires few { count + length items.now ≤ usize.MAX }
    ensures { IfOk result (λ found. found ≡ spec.head_from count state (items_in text.now items.now)) }
{
    let mut state = state;
    let mut count = count;
    for item in items {
        if state.frames.is_empty() {
            return head_ended(alloc, text, count, state, item);
        }
        let Some(next) = token_step(alloc, text, state, item)? else {
            return Ok(None)
        };
        state = next;
        count += 1;
    }
    drop(state);
    Ok(None)
}

/// The head of a lambda with which these items begin.
pub fn head_of(alloc: Global, text: &str, items: &[Item]) -> Result<Option<Params>, NoMemory>
    requires { All (IsItemOf text.now) items.now }
    ensures { IfOk result (λ found. found ≡ spec.head_of (items_in text.now items.now)) }
{
    match items {
        [first, rest @ ..] => match token_step(alloc, text, begun(alloc, Limit::Expr), first)? {
            Some(state) => head_from(alloc, text, 1, state, rest),
            None => Ok(None),
        },
        [] => Ok(None),
    }
}

// ---- blocks

fn unstacked(alloc: Global, rest: Stack<Item>) -> Result<Row<Item>, NoMemory>
    ensures { IfOk result (λ items. items ≡ rest) }
{
    let mut rest = rest;
    let mut items = Row::new(alloc);
    while let Some(item) = rest.pop() {
        items.push(item)?;
    }
    Ok(items)
}

fn without(alloc: Global, items: Row<Item>, count: usize) -> Result<Row<Item>, NoMemory>
    ensures { IfOk result (λ behind. behind ≡ drop count items) }
{
    let mut rest = Stack::from_row(items);
    dropped(&mut rest, count);
    unstacked(alloc, rest)
}

fn place_of(span: Option<Span>, end: u32) -> Span
    ensures { result ≡ spec.place_of span end }
{
    match span {
        Some(span) => span,
        None => Span { start: end, end },
    }
}

/// The block of such statements.
pub fn block_over(alloc: Global, span: Span, list: BuiltList) -> Built
    ensures { result ≡ spec.block_over span list }
{
    Built {
        tall: unlabelled(alloc, TreeKind::Block, span, list.kids),
        free: list.free,
    }
}

/// The function with these parameters over a block of such statements.
pub fn lambda_over(
    alloc: Global,
    span: Span,
    params: Params,
    list: BuiltList,
) -> Result<Built, NoMemory>
    ensures { IfOk result (λ block. block ≡ spec.lambda_over span params list) }
{
    let place = place_of(list.span, params.arrow_end);
    let body = unlabelled(alloc, TreeKind::Block, place, list.kids);
    let kids = joined(params.begun.kids, body)?;
    Ok(Built {
        tall: unlabelled(alloc, TreeKind::Function, span, kids),
        free: list.free,
    })
}

/// The block that stands between braces with this span.
pub fn block_of(alloc: Global, text: &str, span: Span, items: Row<Item>) -> Result<Built, NoMemory>
    requires { All (IsItemOf text.now) items }
    ensures { IfOk result (λ block. block ≡ spec.block_of span (items_in text.now items)) }
{
    match head_of(alloc, text, items.as_slice())? {
        Some(params) => {
            let items = without(alloc, items, params.count)?;
            let list = built_list(alloc, text, items)?;
            lambda_over(alloc, span, params, list)
        }
        None => {
            let list = built_list(alloc, text, items)?;
            Ok(block_over(alloc, span, list))
        }
    }
}

// ---- generators

fn generators_or_nothing(found: Option<Generators>) -> Inside
    ensures { result ≡ spec.generators_or_nothing found }
{
    match found {
        Some(generators) => Inside::Generators(generators),
        None => Inside::Nothing,
    }
}

fn generators_inside(alloc: Global, state: Option<State>) -> Result<Inside, NoMemory>
    ensures { IfOk result (λ inside. inside ≡ spec.generators_inside state) }
{
    let Some(state) = state else {
        return Ok(Inside::Nothing)
    };
    if are_generators(&state) {
        Ok(generators_or_nothing(generators_at(alloc, state)?))
    } else {
        drop(state);
        Ok(Inside::Nothing)
    }
}

fn generators_of(alloc: Global, text: &str, items: Row<Item>) -> Result<Inside, NoMemory>
    requires { All (IsItemOf text.now) items }
    ensures { IfOk result (λ inside. inside ≡ spec.generators_of (items_in text.now items)) }
{
    let begun = generators_begun(alloc)?;
    let state = step_items(alloc, text, begun, items)?;
    generators_inside(alloc, state)
}

// ---- what stands in braces

/// The selectors of an import, where these items are that, and stand behind a dot.
#[tactic(auto, unfolding(source_grammar::specs::Lexemes::lexeme_of))]
pub fn selectors_of(
    alloc: Global,
    text: &str,
    opening: Opening,
    items: &[Item],
) -> Result<Option<Row<Selector>>, NoMemory>
    requires { All (IsItemOf text.now) items.now }
    ensures { IfOk result (λ found. found ≡ spec.selectors_of opening (items_in text.now items.now)) }
{
    if !matches!(opening, Opening::Dot) {
        return Ok(None);
    }
    let mut selectors = selectors_begun(alloc);
    for item in items {
        let Item::Token(token) = item else {
            drop(selectors);
            return Ok(None);
        };
        let Some(next) = step_selector(alloc, selectors, *token, word_in(text, *token))? else {
            return Ok(None)
        };
        selectors = next;
    }
    selectors_at(selectors)
}

fn cases_or_nothing(cases: Option<BuiltKids>) -> Inside
    ensures { result ≡ spec.cases_or_nothing cases }
{
    match cases {
        Some(cases) => Inside::Cases(cases),
        None => Inside::Nothing,
    }
}

fn begins_with_case(text: &str, items: &[Item]) -> bool
    requires { All (IsItemOf text.now) items.now }
    ensures { result ≡ spec.begins_with_case (items_in text.now items.now) }
{
    match items {
        [first, ..] => is_case_word(symbol_in(text, first)),
        [] => false,
    }
}

/// What these items are between braces with this span.
pub fn inside_of(
    alloc: Global,
    text: &str,
    opening: Opening,
    span: Span,
    items: Row<Item>,
) -> Result<Inside, NoMemory>
    requires { All (IsItemOf text.now) items }
    ensures { IfOk result (λ inside. inside ≡ spec.inside_of opening span (items_in text.now items)) }
{
    if matches!(opening, Opening::For) {
        return generators_of(alloc, text, items);
    }
    if begins_with_case(text, items.as_slice()) {
        return Ok(cases_or_nothing(cases_of(alloc, text, Stack::from_row(items))?));
    }
    Ok(Inside::Block(block_of(alloc, text, span, items)?))
}
