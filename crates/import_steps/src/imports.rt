//! Imports (SLS 4.7).

ghost use Rattle.std.specs.Prelude.{◌≡◌, [], ◌∷◌, ◌++◌, IfOk};
ghost use Rattle.parse_patterns.specs.Names.{lexeme_with};
ghost use Rattle.import_steps.specs.Imports as spec;

use expr_steps::operands::name_at;
use expr_tails::items::{Braces, Built};
use expr_tails::symbols::{Symbol, read_symbol};
use parse_parts::built::no_kids;
use pc_terms::{NoMemory, Row, Span, TreeKind};
use positioned_trees::{Detail, ImportClause, Name, Selector};
use scan_tokens::Token;
use std::alloc::Global;
use tree_lower::{detailed, unlabelled};

/// What was read of a clause.
#[derive(Debug, Drop)]
pub enum Tail {
    /// After `import`, or after a comma.
    Begin,
    /// A path.
    AtPath(Row<Name>),
    AtDot(Row<Name>),
    AtClause(ImportClause),
}

#[derive(Debug, Drop)]
pub struct Import {
    pub start: u32,
    pub clauses: Row<ImportClause>,
    pub tail: Tail,
}

/// After the word `import`.
pub fn begun(alloc: Global, start: u32) -> Import
    ensures { result ≡ spec.begun start }
{
    Import {
        start,
        clauses: Row::new(alloc),
        tail: Tail::Begin,
    }
}

/// Whether what was read is an import.
pub fn is_import(import: &Import) -> bool
    ensures { result ≡ spec.is_import import.now }
{
    match &import.tail {
        Tail::AtPath(names) => names.len() > 1,
        Tail::AtClause(_) => true,
        _ => false,
    }
}

fn names_span(names: &Row<Name>, end: u32) -> Span
    ensures { result ≡ spec.names_span names.now end }
{
    match names.as_slice() {
        [first, ..] => Span {
            start: first.span.start,
            end,
        },
        [] => Span { start: end, end },
    }
}

fn clause_of(qualifier: Row<Name>, selectors: Row<Selector>, end: u32) -> ImportClause
    ensures { result ≡ spec.clause_of qualifier selectors end }
{
    ImportClause {
        span: names_span(&qualifier, end),
        qualifier,
        selectors,
    }
}

fn one_selector(alloc: Global, selector: Selector) -> Result<Row<Selector>, NoMemory>
    ensures { IfOk result (λ now. now ≡ selector ∷ []) }
{
    let mut selectors = Row::new(alloc);
    selectors.push(selector)?;
    Ok(selectors)
}

// The clause that names the last of these, after those before it.
#[tactic(auto, using(crate::proofs::Naming::named_alone, std::proofs::lemmas::Grind::common_steps))]
fn named_clause(
    alloc: Global,
    clauses: Row<ImportClause>,
    names: Row<Name>,
) -> Result<Row<ImportClause>, NoMemory>
    ensures { IfOk result (λ now. now ≡ clauses ++ spec.named_clause [] names) }
{
    let mut clauses = clauses;
    let mut names = names;
    match names.pop() {
        Some(last) => {
            let end = last.span.end;
            let selectors = one_selector(alloc, Selector::Named(last))?;
            clauses.push(clause_of(names, selectors, end))?;
            Ok(clauses)
        }
        None => Ok(clauses),
    }
}

// The clauses with the one that ends here.
fn with_ended(
    alloc: Global,
    clauses: Row<ImportClause>,
    tail: Tail,
) -> Result<Row<ImportClause>, NoMemory>
    ensures { IfOk result (λ now. now ≡ clauses ++ spec.ended tail) }
{
    match tail {
        Tail::AtPath(names) => named_clause(alloc, clauses, names),
        Tail::AtClause(clause) => {
            let mut clauses = clauses;
            clauses.push(clause)?;
            Ok(clauses)
        }
        _ => Ok(clauses),
    }
}

fn parted(alloc: Global, import: Import) -> Result<Option<Import>, NoMemory>
    ensures { IfOk result (λ now. now ≡ spec.parted import) }
{
    if !is_import(&import) {
        return Ok(None);
    }
    Ok(Some(Import {
        start: import.start,
        clauses: with_ended(alloc, import.clauses, import.tail)?,
        tail: Tail::Begin,
    }))
}

fn with_name(names: Row<Name>, name: Name) -> Result<Tail, NoMemory>
    ensures { IfOk result (λ now. now ≡ spec.with_name names name) }
{
    let mut names = names;
    names.push(name)?;
    Ok(Tail::AtPath(names))
}

fn wild_clause(alloc: Global, names: Row<Name>, span: Span) -> Result<Tail, NoMemory>
    ensures { IfOk result (λ now. now ≡ spec.wild_clause names span) }
{
    let selectors = one_selector(alloc, Selector::Wildcard(span))?;
    Ok(Tail::AtClause(clause_of(names, selectors, span.end)))
}

fn behind_dot(
    alloc: Global,
    names: Row<Name>,
    symbol: Symbol,
    token: Token,
    word: &str,
) -> Result<Option<Tail>, NoMemory>
    ensures { IfOk result (λ now. now ≡ spec.behind_dot names symbol (lexeme_with token word.now)) }
{
    match symbol {
        Symbol::Id => {
            let name = name_at(alloc, token, word)?;
            Ok(Some(with_name(names, name)?))
        }
        Symbol::Underscore => Ok(Some(wild_clause(alloc, names, token.span)?)),
        _ => Ok(None),
    }
}

fn begun_path(
    alloc: Global,
    symbol: Symbol,
    token: Token,
    word: &str,
) -> Result<Option<Tail>, NoMemory>
    ensures { IfOk result (λ now. now ≡ spec.begun_path symbol (lexeme_with token word.now)) }
{
    match symbol {
        Symbol::Id => {
            let name = name_at(alloc, token, word)?;
            Ok(Some(with_name(Row::new(alloc), name)?))
        }
        _ => Ok(None),
    }
}

fn behind_path(names: Row<Name>, symbol: Symbol) -> Option<Tail>
    ensures { result ≡ spec.behind_path names symbol }
{
    match symbol {
        Symbol::Dot => Some(Tail::AtDot(names)),
        _ => None,
    }
}

fn name_step(
    alloc: Global,
    tail: Tail,
    symbol: Symbol,
    token: Token,
    word: &str,
) -> Result<Option<Tail>, NoMemory>
    ensures { IfOk result (λ now. now ≡ spec.name_step tail symbol (lexeme_with token word.now)) }
{
    match tail {
        Tail::Begin => begun_path(alloc, symbol, token, word),
        Tail::AtPath(names) => Ok(behind_path(names, symbol)),
        Tail::AtDot(names) => behind_dot(alloc, names, symbol, token, word),
        Tail::AtClause(_clause) => Ok(None),
    }
}

fn at(start: u32, clauses: Row<ImportClause>, tail: Option<Tail>) -> Option<Import>
    ensures { result ≡ spec.at start clauses tail }
{
    match tail {
        Some(tail) => Some(Import {
            start,
            clauses,
            tail,
        }),
        None => None,
    }
}

fn path_step(
    alloc: Global,
    import: Import,
    symbol: Symbol,
    token: Token,
    word: &str,
) -> Result<Option<Import>, NoMemory>
    ensures { IfOk result (λ now. now ≡ spec.path_step import symbol (lexeme_with token word.now)) }
{
    let Import {
        start,
        clauses,
        tail,
    } = import;
    let tail = name_step(alloc, tail, symbol, token, word)?;
    Ok(at(start, clauses, tail))
}

/// The import with one token more, if it can stand next.
pub fn step(
    alloc: Global,
    import: Import,
    token: Token,
    word: &str,
) -> Result<Option<Import>, NoMemory>
    ensures { IfOk result (λ now. now ≡ spec.step import (lexeme_with token word.now)) }
{
    match read_symbol(token.kind, word.as_bytes()) {
        Symbol::Comma => parted(alloc, import),
        symbol => path_step(alloc, import, symbol, token, word),
    }
}

fn selected(tail: Tail, selectors: Option<Row<Selector>>, end: u32) -> Option<Tail>
    ensures { result ≡ spec.selected tail selectors end }
{
    match tail {
        Tail::AtDot(names) => match selectors {
            Some(selectors) => Some(Tail::AtClause(clause_of(names, selectors, end))),
            None => None,
        },
        _ => None,
    }
}

/// The import with the selectors in braces, if they can stand next.
pub fn step_braces(import: Import, braces: Braces) -> Option<Import>
    ensures { result ≡ spec.step_braces import braces }
{
    let Import {
        start,
        clauses,
        tail,
    } = import;
    at(
        start,
        clauses,
        selected(tail, braces.selectors, braces.span.end),
    )
}

fn end_of(clauses: &Row<ImportClause>, start: u32) -> u32
    ensures { result ≡ spec.last_end start clauses.now }
{
    match clauses.as_slice().last() {
        Some(last) => last.span.end,
        None => start,
    }
}

/// The tree of an import.
pub fn import_at(alloc: Global, import: Import) -> Result<Built, NoMemory>
    ensures { IfOk result (λ now. now ≡ spec.import_at import) }
{
    let start = import.start;
    let clauses = with_ended(alloc, import.clauses, import.tail)?;
    let span = Span {
        start,
        end: end_of(&clauses, start),
    };
    let tall = unlabelled(alloc, TreeKind::Import, span, no_kids(alloc));
    Ok(Built {
        tall: detailed(tall, Detail::Import(clauses)),
        free: Row::new(alloc),
    })
}

// ---- selectors

/// What was read of the selectors.
#[derive(Debug, Drop)]
pub enum Last {
    /// Nothing, or after a comma.
    Begin,
    AtName(Name),
    AtArrow(Name),
    /// A selector that is whole.
    Whole(Selector),
    /// `_`, which is the last.
    Wild(Span),
}

#[derive(Debug, Drop)]
pub struct Selectors {
    pub before: Row<Selector>,
    pub last: Last,
}

/// Directly after the opening brace.
pub fn selectors_begun(alloc: Global) -> Selectors
    ensures { result ≡ spec.selectors_begun }
{
    Selectors {
        before: Row::new(alloc),
        last: Last::Begin,
    }
}

fn last_selector(last: Last) -> Option<Selector>
    ensures { result ≡ spec.last_selector last }
{
    match last {
        Last::AtName(name) => Some(Selector::Named(name)),
        Last::Whole(selector) => Some(selector),
        Last::Wild(span) => Some(Selector::Wildcard(span)),
        Last::Begin => None,
        Last::AtArrow(_name) => None,
    }
}

/// The selectors, where what was read is whole.
pub fn selectors_at(selectors: Selectors) -> Result<Option<Row<Selector>>, NoMemory>
    ensures { IfOk result (λ now. now ≡ spec.selectors_at selectors) }
{
    let Selectors { before, last } = selectors;
    match last_selector(last) {
        Some(selector) => {
            let mut before = before;
            before.push(selector)?;
            Ok(Some(before))
        }
        None => Ok(None),
    }
}

fn next_begun(before: Option<Row<Selector>>) -> Option<Selectors>
    ensures { result ≡ spec.next_begun before }
{
    match before {
        Some(before) => Some(Selectors {
            before,
            last: Last::Begin,
        }),
        None => None,
    }
}

fn is_wild(last: &Last) -> bool
    ensures { result ≡ spec.is_wild last.now }
{
    matches!(last, Last::Wild(_))
}

// `_` is the last.
fn next_selector(selectors: Selectors) -> Result<Option<Selectors>, NoMemory>
    ensures { IfOk result (λ now. now ≡ spec.next_selector selectors) }
{
    if is_wild(&selectors.last) {
        return Ok(None);
    }
    Ok(next_begun(selectors_at(selectors)?))
}

fn first_of(
    alloc: Global,
    symbol: Symbol,
    token: Token,
    word: &str,
) -> Result<Option<Last>, NoMemory>
    ensures { IfOk result (λ now. now ≡ spec.first_of symbol (lexeme_with token word.now)) }
{
    match symbol {
        Symbol::Id => Ok(Some(Last::AtName(name_at(alloc, token, word)?))),
        Symbol::Underscore => Ok(Some(Last::Wild(token.span))),
        _ => Ok(None),
    }
}

fn behind_name(name: Name, symbol: Symbol) -> Option<Last>
    ensures { result ≡ spec.behind_name name symbol }
{
    match symbol {
        Symbol::Arrow => Some(Last::AtArrow(name)),
        _ => None,
    }
}

fn behind_arrow(
    alloc: Global,
    name: Name,
    symbol: Symbol,
    token: Token,
    word: &str,
) -> Result<Option<Last>, NoMemory>
    ensures { IfOk result (λ now. now ≡ spec.behind_arrow name symbol (lexeme_with token word.now)) }
{
    match symbol {
        Symbol::Id => {
            let new = name_at(alloc, token, word)?;
            Ok(Some(Last::Whole(Selector::Renamed(name, new))))
        }
        Symbol::Underscore => Ok(Some(Last::Whole(Selector::Hidden(name)))),
        _ => Ok(None),
    }
}

fn selector_step(
    alloc: Global,
    last: Last,
    symbol: Symbol,
    token: Token,
    word: &str,
) -> Result<Option<Last>, NoMemory>
    ensures { IfOk result (λ now. now ≡ spec.selector_step last symbol (lexeme_with token word.now)) }
{
    match last {
        Last::Begin => first_of(alloc, symbol, token, word),
        Last::AtName(name) => Ok(behind_name(name, symbol)),
        Last::AtArrow(name) => behind_arrow(alloc, name, symbol, token, word),
        Last::Whole(_selector) => Ok(None),
        Last::Wild(_span) => Ok(None),
    }
}

fn with_last(before: Row<Selector>, last: Option<Last>) -> Option<Selectors>
    ensures { result ≡ spec.with_now before last }
{
    match last {
        Some(last) => Some(Selectors { before, last }),
        None => None,
    }
}

fn step_within(
    alloc: Global,
    selectors: Selectors,
    symbol: Symbol,
    token: Token,
    word: &str,
) -> Result<Option<Selectors>, NoMemory>
    ensures { IfOk result (λ now. now ≡ spec.step_within selectors symbol (lexeme_with token word.now)) }
{
    let Selectors { before, last } = selectors;
    let last = selector_step(alloc, last, symbol, token, word)?;
    Ok(with_last(before, last))
}

/// The selectors with one token more, if it can stand next.
pub fn step_selector(
    alloc: Global,
    selectors: Selectors,
    token: Token,
    word: &str,
) -> Result<Option<Selectors>, NoMemory>
    ensures { IfOk result (λ now. now ≡ spec.step_selector selectors (lexeme_with token word.now)) }
{
    match read_symbol(token.kind, word.as_bytes()) {
        Symbol::Comma => next_selector(selectors),
        symbol => step_within(alloc, selectors, symbol, token, word),
    }
}
