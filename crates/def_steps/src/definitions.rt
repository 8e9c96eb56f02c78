//! What a reader of definitions makes of one item more.

ghost use Rattle.std.specs.Prelude.{◌≡◌, IfOk};
ghost use Rattle.parse_patterns.specs.Names.{lexeme_with};
ghost use Rattle.expr_steps.specs.Braces.{step_braces as expr_braces};
ghost use Rattle.expr_steps.specs.Steps.{step as expr_step};
ghost use Rattle.def_steps.specs.Definitions as spec;

use crate::methods::{at_def, at_method, in_result, method_at, procedure};
pub use crate::modifiers::begins_definition;
use crate::modifiers::{
    at_access, at_access_name, at_access_open, at_annotation, at_mods, at_path, in_arguments, next,
    nothing_found,
};
use crate::params::in_params;
use crate::states::{Found, Gap, Method, State, Tail, Value};
use crate::type_params::in_type_params;
use crate::values::{
    alias_at, at_type, at_type_name, at_value, at_value_name, boxed, in_alias, in_value_type,
    value_at,
};
use expr_frames::beside;
use expr_steps::braces::step_braces as step_expr_braces;
use expr_steps::steps::{is_read, step as step_expr};
use expr_tails::ending::expr_at;
use expr_tails::items::{Braces, Built};
use expr_tails::states::{Context, State as ExprState};
use expr_tails::symbols::{Symbol, read_symbol};
use expr_tails::types::is_type;
use pc_terms::{NoMemory, Row};
use scan_tokens::Token;
use sqlite_items::Boxed;
use std::alloc::Global;

/// The machine before the first item of a definition.
pub fn begun() -> State
    ensures { result ≡ spec.begun }
{
    State {
        found: nothing_found(),
        tail: Tail::AtMods(Gap::Any),
    }
}

/// Whether what was read is a definition.
pub fn is_definition(state: &State) -> bool
    ensures { result ≡ spec.is_definition state.now }
{
    match &state.tail {
        Tail::InValue(_, right) | Tail::InMethod(_, right) => is_read(right.get()),
        Tail::InAlias(_, _, ty) => is_type(ty),
        Tail::AtProcedure(_) => true,
        _ => false,
    }
}

/// Nothing, where nothing whole was read.
pub fn nothing_built(alloc: Global) -> Built
    ensures { result ≡ spec.nothing_built }
{
    Built {
        tall: None,
        free: Row::new(alloc),
    }
}

fn context_of(right: Boxed<ExprState>) -> Context
    ensures { result ≡ right.context }
{
    let ExprState { frames, context } = right.into_inner();
    drop(frames);
    context
}

/// The definition that was read.
pub fn definition_at(alloc: Global, state: State) -> Result<Built, NoMemory>
    ensures { IfOk result (λ now. now ≡ spec.definition_at state) }
{
    let State { found, tail } = state;
    match tail {
        Tail::InValue(value, right) => {
            let right = beside!(value; expr_at(alloc, context_of(right)));
            value_at(found, value, right)
        }
        Tail::InMethod(method, right) => {
            let right = beside!(method; expr_at(alloc, context_of(right)));
            method_at(found, method, right)
        }
        Tail::InAlias(start, name, ty) => alias_at(alloc, found, start, name, ty),
        Tail::AtProcedure(built) => Ok(built),
        tail => {
            drop(tail);
            Ok(nothing_built(alloc))
        }
    }
}

#[inline(always)]
fn in_value(
    alloc: Global,
    found: Found,
    value: Value,
    right: Option<ExprState>,
) -> Result<Option<State>, NoMemory>
    ensures { IfOk result (λ now. now ≡ spec.in_value found value right) }
{
    match right {
        Some(right) => {
            let right = beside!(value; boxed(alloc, right));
            Ok(next(found, Tail::InValue(value, right)))
        }
        None => {
            drop(value);
            Ok(None)
        }
    }
}

#[inline(always)]
fn in_method(
    alloc: Global,
    found: Found,
    method: Method,
    right: Option<ExprState>,
) -> Result<Option<State>, NoMemory>
    ensures { IfOk result (λ now. now ≡ spec.in_method found method right) }
{
    match right {
        Some(right) => {
            let right = beside!(method; boxed(alloc, right));
            Ok(next(found, Tail::InMethod(method, right)))
        }
        None => {
            drop(method);
            Ok(None)
        }
    }
}

// The right side goes on.
#[inline(always)]
fn value_step(
    alloc: Global,
    found: Found,
    value: Value,
    right: Boxed<ExprState>,
    token: Token,
    word: &str,
) -> Result<Option<State>, NoMemory>
    ensures { IfOk result (λ now. now ≡ spec.in_value found value (expr_step right (lexeme_with token word.now))) }
{
    let right = beside!(value; step_expr(alloc, right.into_inner(), token, word));
    in_value(alloc, found, value, right)
}

#[inline(always)]
fn method_step(
    alloc: Global,
    found: Found,
    method: Method,
    right: Boxed<ExprState>,
    token: Token,
    word: &str,
) -> Result<Option<State>, NoMemory>
    ensures { IfOk result (λ now. now ≡ spec.in_method found method (expr_step right (lexeme_with token word.now))) }
{
    let right = beside!(method; step_expr(alloc, right.into_inner(), token, word));
    in_method(alloc, found, method, right)
}

#[inline(always)]
fn step_at(
    alloc: Global,
    found: Found,
    tail: Tail,
    symbol: Symbol,
    token: Token,
    word: &str,
) -> Result<Option<State>, NoMemory>
    ensures { IfOk result (λ now. now ≡ spec.stepped_at tail found symbol (lexeme_with token word.now)) }
{
    match tail {
        Tail::AtMods(gap) => Ok(at_mods(found, gap, symbol, token)),
        Tail::AtAt => Ok(at_path(found, symbol)),
        Tail::AtAnnotationDot => Ok(at_path(found, symbol)),
        Tail::AtAnnotation => at_annotation(alloc, found, symbol, token),
        Tail::InArguments(brackets) => in_arguments(found, brackets, symbol),
        Tail::AtAccess(access) => Ok(at_access(found, access, symbol, token)),
        Tail::AtAccessOpen(access) => Ok(at_access_open(found, access, symbol)),
        Tail::AtAccessName(access) => Ok(at_access_name(found, access, symbol)),
        Tail::AtValue(is_var, start) => at_value(alloc, found, is_var, start, symbol, token, word),
        Tail::AtValueName(value) => at_value_name(alloc, found, value, symbol),
        Tail::InValueType(value, ty) => in_value_type(alloc, found, value, ty, symbol, token, word),
        Tail::InValue(value, right) => value_step(alloc, found, value, right, token, word),
        Tail::AtDef(start) => at_def(alloc, found, start, symbol, token, word),
        Tail::AtMethod(method) => at_method(alloc, found, method, symbol, token.before),
        Tail::InTypeParams(method, at) => in_type_params(
            alloc, found, method, at, symbol, token, word,
        ),
        Tail::InParams(method, count, at) => in_params(
            alloc, found, method, count, at, symbol, token, word,
        ),
        Tail::InResult(method, ty) => in_result(alloc, found, method, ty, symbol, token, word),
        Tail::InMethod(method, right) => method_step(alloc, found, method, right, token, word),
        Tail::AtType(start) => at_type(alloc, found, start, symbol, token, word),
        Tail::AtTypeName(start, name) => Ok(at_type_name(alloc, found, start, name, symbol)),
        Tail::InAlias(start, name, ty) => in_alias(alloc, found, start, name, ty, token, word),
        Tail::AtProcedure(built) => {
            drop(built);
            Ok(None)
        }
    }
}

/// The state after a token, if it can stand next.
#[inline(always)]
#[tactic(auto, unfolding(crate::specs::Definitions::step))]
pub fn step(
    alloc: Global,
    state: State,
    token: Token,
    word: &str,
) -> Result<Option<State>, NoMemory>
    ensures { IfOk result (λ now. now ≡ spec.step state (lexeme_with token word.now)) }
{
    let symbol = read_symbol(token.kind, word.as_bytes());
    let State { found, tail } = state;
    step_at(alloc, found, tail, symbol, token, word)
}

fn value_braces(
    alloc: Global,
    found: Found,
    value: Value,
    right: Boxed<ExprState>,
    braces: Braces,
) -> Result<Option<State>, NoMemory>
    ensures { IfOk result (λ now. now ≡ spec.in_value found value (expr_braces right braces)) }
{
    let right = beside!(value; step_expr_braces(alloc, right.into_inner(), braces));
    in_value(alloc, found, value, right)
}

fn method_braces(
    alloc: Global,
    found: Found,
    method: Method,
    right: Boxed<ExprState>,
    braces: Braces,
) -> Result<Option<State>, NoMemory>
    ensures { IfOk result (λ now. now ≡ spec.in_method found method (expr_braces right braces)) }
{
    let right = beside!(method; step_expr_braces(alloc, right.into_inner(), braces));
    in_method(alloc, found, method, right)
}

/// The state after a pair of braces, if it can stand next.
pub fn step_braces(alloc: Global, state: State, braces: Braces) -> Result<Option<State>, NoMemory>
    ensures { IfOk result (λ now. now ≡ spec.step_braces state braces) }
{
    let State { found, tail } = state;
    match tail {
        Tail::InValue(value, right) => value_braces(alloc, found, value, right, braces),
        Tail::InMethod(method, right) => method_braces(alloc, found, method, right, braces),
        Tail::AtMethod(method) => procedure(found, method, braces),
        Tail::InArguments(brackets) => {
            drop(braces);
            Ok(next(found, Tail::InArguments(brackets)))
        }
        tail => {
            drop(tail);
            drop(braces);
            Ok(None)
        }
    }
}
