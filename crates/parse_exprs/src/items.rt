//! Items: tokens, and pairs of braces with what was read in them.

ghost use Rattle.std.specs.Prelude.{◌≡◌, ◌+◌, ◌<◌, ◌≤◌, IfOk};
ghost use Rattle.std.specs.List.{All};
ghost use Rattle.expr_steps.specs.Reading.{stepped};
ghost use Rattle.parse_exprs.specs.Items as spec;
ghost use Rattle.parse_exprs.specs.Items.{IsItemOf, item_in, items_in};
ghost use Rattle.reading_machines.specs.Machines.{run};

use expr_steps::braces::step_braces;
use expr_steps::steps::step;
use expr_tails::items::{Braces, Built, BuiltKids, Generators, Inside};
use expr_tails::states::State;
use expr_tails::symbols::{Symbol, Word, read_symbol};
use parse_parts::stack::Stack;
use parse_parts::words::word_in;
use pc_terms::{NoMemory, Row, Span};
use positioned_trees::Selector;
use scan_tokens::{Newline, Token};
use sqlite_items::Boxed;
use std::alloc::Global;
use std::mem;

/// A token, or a pair of braces, in a box, since most items are tokens.
#[derive(Debug, Drop)]
pub enum Item {
    Token(Token),
    Braces(Boxed<Braces>),
}

pub fn span_of(item: &Item) -> Span
    ensures { result ≡ spec.span_of item.now }
{
    match item {
        Item::Token(token) => token.span,
        Item::Braces(braces) => braces.get().span,
    }
}

/// The same, as the grammar sees the item.
#[tactic(auto, unfolding(source_grammar::specs::Lexemes::lexeme_of))]
pub fn span_in(text: &str, item: &Item) -> Span
    ensures { result ≡ spec.span_at (item_in text.now item.now) }
{
    match item {
        Item::Token(token) => token.span,
        Item::Braces(braces) => braces.get().span,
    }
}

fn newline_before(item: &Item) -> Newline
    ensures { result ≡ spec.newline_of item.now }
{
    match item {
        Item::Token(token) => token.before,
        Item::Braces(braces) => braces.get().before,
    }
}

/// What an item is to the grammar; a pair of braces is as its opening one.
#[tactic(auto, unfolding(source_grammar::specs::Lexemes::lexeme_of))]
pub fn symbol_in(text: &str, item: &Item) -> Symbol
    requires { IsItemOf text.now item.now }
    ensures { result ≡ spec.symbol_at (item_in text.now item.now) }
{
    match item {
        Item::Token(token) => read_symbol(token.kind, word_in(text, *token).as_bytes()),
        Item::Braces(_) => Symbol::OpenCurly,
    }
}

pub fn is_semicolon(symbol: Symbol) -> bool
    ensures { result ≡ spec.is_semicolon symbol }
{
    matches!(symbol, Symbol::Semicolon)
}

pub fn is_case_word(symbol: Symbol) -> bool
    ensures { result ≡ spec.is_case_word symbol }
{
    matches!(symbol, Symbol::Word(Word::Case))
}

/// `class` or `object`.
pub fn is_template_word(symbol: Symbol) -> bool
    ensures { result ≡ spec.is_template_word symbol }
{
    matches!(
        symbol,
        Symbol::Word(Word::Class) | Symbol::Word(Word::Object)
    )
}

/// Whether statements are separated here: by a newline that counts before the item, or by a `;` that it is.
#[tactic(auto, unfolding(source_grammar::specs::Lexemes::lexeme_of))]
pub fn separates(text: &str, item: &Item) -> bool
    requires { IsItemOf text.now item.now }
    ensures { result ≡ spec.separates (item_in text.now item.now) }
{
    !matches!(newline_before(item), Newline::No) || is_semicolon(symbol_in(text, item))
}

/// The same spans once more.
pub fn spans_again(alloc: Global, spans: &Row<Span>) -> Result<Row<Span>, NoMemory>
    ensures { IfOk result (λ again. again ≡ spans.now) }
{
    let mut copy = Row::new(alloc);
    for span in spans.as_slice() {
        copy.push(*span)?;
    }
    Ok(copy)
}

// The contents without their trees.
fn inside_shape(alloc: Global, inside: &Inside) -> Result<Inside, NoMemory>
    ensures { IfOk result (λ shape. shape ≡ spec.inside_shape inside.now) }
{
    match inside {
        Inside::Block(built) => Ok(Inside::Block(Built {
            tall: None,
            free: spans_again(alloc, &built.free)?,
        })),
        Inside::Cases(cases) => Ok(Inside::Cases(BuiltKids {
            kids: None,
            free: spans_again(alloc, &cases.free)?,
        })),
        Inside::Generators(generators) => Ok(Inside::Generators(Generators {
            generators: Row::new(alloc),
            free: spans_again(alloc, &generators.free)?,
        })),
        Inside::Nothing => Ok(Inside::Nothing),
    }
}

/// A pair of braces without the trees in it, to find out how far a statement goes.
pub fn braces_shape(alloc: Global, braces: &Braces) -> Result<Braces, NoMemory>
    ensures { IfOk result (λ shape. shape ≡ spec.braces_shape braces.now) }
{
    let selectors: Option<Row<Selector>> = match &braces.selectors {
        Some(_) => Some(Row::new(alloc)),
        None => None,
    };
    Ok(Braces {
        span: braces.span,
        before: braces.before,
        inside: inside_shape(alloc, &braces.inside)?,
        selectors,
    })
}

/// The pair of braces that stands here, where its shape is left.
pub fn braces_taken(alloc: Global, braces: &mut Boxed<Braces>) -> Result<Braces, NoMemory>
    ensures is { IfOk result (λ taken. taken ≡ braces.old) }
    ensures left { IfOk result (λ taken. braces.new ≡ spec.braces_shape braces.old) }
{
    let shape = Boxed::new(alloc, braces_shape(alloc, braces.get())?)?;
    Ok(mem::replace(braces, shape).into_inner())
}

/// How many brackets are open behind an item, of those that are no braces.
pub fn depth_behind(depth: usize, symbol: Symbol) -> usize
    requires { depth < usize.MAX }
    ensures is { result ≡ spec.depth_behind depth symbol }
    ensures within { result ≤ depth + 1 }
{
    match symbol {
        Symbol::OpenRound | Symbol::OpenSquare => depth + 1,
        Symbol::CloseRound | Symbol::CloseSquare => depth.saturating_sub(1),
        _ => depth,
    }
}

/// The state of a reader of expressions behind an item, if it can stand next.
#[tactic(auto, unfolding(source_grammar::specs::Lexemes::lexeme_of))]
pub fn step_item(
    alloc: Global,
    text: &str,
    state: State,
    item: Item,
) -> Result<Option<State>, NoMemory>
    requires { IsItemOf text.now item }
    ensures { IfOk result (λ now. now ≡ stepped state (item_in text.now item)) }
{
    match item {
        Item::Token(token) => step(alloc, state, token, word_in(text, token)),
        Item::Braces(braces) => step_braces(alloc, state, braces.into_inner()),
    }
}

/// The state of a reader of expressions behind all these items, if each of them can stand next.
pub fn step_items(
    alloc: Global,
    text: &str,
    state: State,
    items: Row<Item>,
) -> Result<Option<State>, NoMemory>
    requires { All (IsItemOf text.now) items }
    ensures { IfOk result (λ now. now ≡ run stepped (items_in text.now items) state) }
{
    let mut rest = Stack::from_row(items);
    let mut state = state;
    'items: while let Some(item) = rest.pop() {
        let Some(next) = step_item(alloc, text, state, item)? else {
            return Ok(None)
        };
        state = next;
    }
    Ok(Some(state))
}
