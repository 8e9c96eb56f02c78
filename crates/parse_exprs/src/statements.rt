//! One statement of a block.

ghost use Rattle.std.specs.Prelude.{◌≡◌, IfOk};
ghost use Rattle.expr_steps.specs.Reading.{Pair};
ghost use Rattle.parse_patterns.specs.Names.{lexeme_with};
ghost use Rattle.parse_exprs.specs.Items.{IsItemOf, item_in, shape_of};
ghost use Rattle.parse_exprs.specs.Statements as spec;

use crate::items::{Item, braces_shape};
use def_steps::definitions::{
    begins_definition, begun as definition_begun, definition_at, is_definition, step as step_def,
    step_braces as step_def_braces,
};
use def_steps::states::State as DefinitionState;
use expr_steps::braces::step_braces;
use expr_steps::steps::{begun as expr_begun, built_at, is_read, step as step_expr};
use expr_tails::items::{Braces, Built};
use expr_tails::states::{Limit, State};
use expr_tails::symbols::{Symbol, Word, read_symbol};
use import_steps::imports::{
    Import, begun as import_begun, import_at, is_import, step as step_import,
    step_braces as step_selectors,
};
use parse_parts::words::word_in;
use pc_terms::{NoMemory, Row};
use scan_tokens::Token;
use std::alloc::Global;

/// What was read of a statement.
#[derive(Debug, Drop)]
pub enum Statement {
    Begin,
    Import(Import),
    Definition(DefinitionState),
    Expr(State),
}

/// Whether what was read is a statement.
pub fn is_whole(statement: &Statement) -> bool
    ensures { result ≡ spec.is_whole statement.now }
{
    match statement {
        Statement::Begin => false,
        Statement::Import(import) => is_import(import),
        Statement::Definition(state) => is_definition(state),
        Statement::Expr(state) => is_read(state),
    }
}

#[inline(always)]
fn expr_by(state: Option<State>) -> Option<Statement>
    ensures { result ≡ spec.by Statement.Expr state }
{
    match state {
        Some(state) => Some(Statement::Expr(state)),
        None => None,
    }
}

#[inline(always)]
fn definition_by(state: Option<DefinitionState>) -> Option<Statement>
    ensures { result ≡ spec.by Statement.Definition state }
{
    match state {
        Some(state) => Some(Statement::Definition(state)),
        None => None,
    }
}

#[inline(always)]
fn import_by(import: Option<Import>) -> Option<Statement>
    ensures { result ≡ spec.by Statement.Import import }
{
    match import {
        Some(import) => Some(Statement::Import(import)),
        None => None,
    }
}

fn is_import_word(symbol: Symbol) -> bool
    ensures { result ≡ spec.is_import_word symbol }
{
    matches!(symbol, Symbol::Word(Word::Import))
}

// The first token says of which kind a statement is.
#[inline(always)]
fn first_token(alloc: Global, token: Token, word: &str) -> Result<Option<Statement>, NoMemory>
    ensures { IfOk result (λ now. now ≡ spec.step_token Statement.Begin (lexeme_with token word.now)) }
{
    let symbol = read_symbol(token.kind, word.as_bytes());
    if is_import_word(symbol) {
        Ok(Some(Statement::Import(import_begun(alloc, token.span.start))))
    } else if begins_definition(symbol) {
        Ok(definition_by(step_def(alloc, definition_begun(), token, word)?))
    } else {
        let state = expr_begun(alloc, Limit::Expr);
        Ok(expr_by(step_expr(alloc, state, token, word)?))
    }
}

#[inline(always)]
fn step_token(
    alloc: Global,
    statement: Statement,
    token: Token,
    word: &str,
) -> Result<Option<Statement>, NoMemory>
    ensures { IfOk result (λ now. now ≡ spec.step_token statement (lexeme_with token word.now)) }
{
    match statement {
        Statement::Begin => first_token(alloc, token, word),
        Statement::Import(import) => Ok(import_by(step_import(alloc, import, token, word)?)),
        Statement::Definition(state) => Ok(definition_by(step_def(alloc, state, token, word)?)),
        Statement::Expr(state) => Ok(expr_by(step_expr(alloc, state, token, word)?)),
    }
}

#[inline(always)]
fn step_pair(
    alloc: Global,
    statement: Statement,
    braces: Braces,
) -> Result<Option<Statement>, NoMemory>
    ensures { IfOk result (λ now. now ≡ spec.stepped statement (Pair braces)) }
{
    match statement {
        Statement::Begin => {
            let state = expr_begun(alloc, Limit::Expr);
            Ok(expr_by(step_braces(alloc, state, braces)?))
        }
        Statement::Import(import) => Ok(import_by(step_selectors(import, braces))),
        Statement::Definition(state) => Ok(definition_by(step_def_braces(alloc, state, braces)?)),
        Statement::Expr(state) => Ok(expr_by(step_braces(alloc, state, braces)?)),
    }
}

/// The statement with one item more, if it can stand next.
#[tactic(auto, unfolding(source_grammar::specs::Lexemes::lexeme_of))]
pub fn step(
    alloc: Global,
    text: &str,
    statement: Statement,
    item: Item,
) -> Result<Option<Statement>, NoMemory>
    requires { IsItemOf text.now item }
    ensures { IfOk result (λ now. now ≡ spec.stepped statement (item_in text.now item)) }
{
    match item {
        Item::Token(token) => step_token(alloc, statement, token, word_in(text, token)),
        Item::Braces(braces) => step_pair(alloc, statement, braces.into_inner()),
    }
}

/// The same, to find out how far a statement goes: the trees of the braces stay where they are.
#[tactic(auto, unfolding(source_grammar::specs::Lexemes::lexeme_of))]
#[inline(always)]
pub fn step_shape(
    alloc: Global,
    text: &str,
    statement: Statement,
    item: &Item,
) -> Result<Option<Statement>, NoMemory>
    requires { IsItemOf text.now item.now }
    ensures { IfOk result (λ now. now ≡ spec.stepped statement (shape_of (item_in text.now item.now))) }
{
    match item {
        Item::Token(token) => step_token(alloc, statement, *token, word_in(text, *token)),
        Item::Braces(braces) => step_pair(alloc, statement, braces_shape(alloc, braces.get())?),
    }
}

/// The tree of what was read, with the placeholders that nothing in it binds.
pub fn built(alloc: Global, statement: Statement) -> Result<Built, NoMemory>
    ensures { IfOk result (λ built. built ≡ spec.built statement) }
{
    match statement {
        Statement::Begin => Ok(Built {
            tall: None,
            free: Row::new(alloc),
        }),
        Statement::Import(import) => import_at(alloc, import),
        Statement::Definition(state) => definition_at(alloc, state),
        Statement::Expr(state) => built_at(alloc, state),
    }
}
