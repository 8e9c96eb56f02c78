//! Which tokens can stand next at a level, so that the whole can still become an expression.

ghost use Rattle.std.specs.Prelude.{◌≡◌, ◌∷◌, IfOk};
ghost use Rattle.parse_patterns.specs.Names.{lexeme_with};
ghost use Rattle.parse_exprs.specs.Checks as spec;

use crate::cases::{is_arrow, is_pattern};
use crate::items::{is_case_word, is_template_word};
use expr_frames::generators::{are_generators, generators_begun, pattern_begun};
use expr_steps::braces::{Asks, Opened, behind, open_braces};
use expr_steps::steps::{begun, is_read, step};
use expr_tails::items::Braces;
use expr_tails::states::{Limit, State};
use expr_tails::symbols::{Symbol, Word, read_symbol};
use parse_parts::stack::Stack;
use parse_patterns::admitting::admits;
use parse_patterns::states::State as PatternState;
use parse_patterns::steps::advance;
use pc_terms::NoMemory;
use scan_tokens::{Newline, Token};
use std::alloc::Global;

/// An open bracket that is no brace.
#[derive(Clone, Copy, Debug, PartialEq, Eq)]
pub enum Round {
    Round,
    Square,
}

/// What decides which tokens can stand next at a level.
#[derive(Debug, Drop)]
pub enum Check {
    /// The expression itself.
    Expr(State),
    /// Between `for {` and its `}`.
    Generators(State),
    /// Directly behind `{`, where a block may stand or not.
    Begin(bool),
    /// Behind `case`.
    Pattern(PatternState),
    /// Behind the `if` of a case.
    Guard(State),
    /// In a block, or, where this is true, in the statements of a case: any tokens whose brackets match.
    Any(bool, Stack<Round>),
    /// Behind a `case` in the statements of a case: the next one, where no `class` or `object` follows.
    AtCase,
}

/// In a list of statements, whose outside may not be strict.
pub fn any(alloc: Global) -> Check
    ensures { result ≡ spec.any }
{
    Check::Any(false, Stack::new(alloc))
}

fn same_round(a: Round, b: Round) -> bool
    ensures { result ≡ spec.same_round a b }
{
    match a {
        Round::Round => matches!(b, Round::Round),
        Round::Square => matches!(b, Round::Square),
    }
}

fn closed(brackets: Stack<Round>, is: Round) -> Option<Stack<Round>>
    ensures { result ≡ spec.closed brackets is }
{
    let mut brackets = brackets;
    match brackets.pop() {
        Some(open) => {
            if same_round(open, is) {
                Some(brackets)
            } else {
                None
            }
        }
        None => None,
    }
}

fn pushed(brackets: Stack<Round>, is: Round) -> Result<Option<Stack<Round>>, NoMemory>
    ensures { IfOk result (λ now. now ≡ Some (is ∷ brackets)) }
{
    let mut brackets = brackets;
    brackets.push(is)?;
    Ok(Some(brackets))
}

fn bracketed(brackets: Stack<Round>, symbol: Symbol) -> Result<Option<Stack<Round>>, NoMemory>
    ensures { IfOk result (λ now. now ≡ spec.bracketed brackets symbol) }
{
    match symbol {
        Symbol::OpenRound => pushed(brackets, Round::Round),
        Symbol::OpenSquare => pushed(brackets, Round::Square),
        Symbol::CloseRound => Ok(closed(brackets, Round::Round)),
        Symbol::CloseSquare => Ok(closed(brackets, Round::Square)),
        _ => Ok(Some(brackets)),
    }
}

fn any_with(in_cases: bool, brackets: Option<Stack<Round>>) -> Option<Check>
    ensures { result ≡ spec.any_with in_cases brackets }
{
    match brackets {
        Some(brackets) => Some(Check::Any(in_cases, brackets)),
        None => None,
    }
}

fn in_any(in_cases: bool, brackets: Stack<Round>, symbol: Symbol) -> Result<Option<Check>, NoMemory>
    ensures { IfOk result (λ now. now ≡ spec.in_any in_cases brackets symbol) }
{
    if in_cases && (brackets.is_empty() && is_case_word(symbol)) {
        return Ok(Some(Check::AtCase));
    }
    Ok(any_with(in_cases, bracketed(brackets, symbol)?))
}

fn behind_arrow(alloc: Global) -> Option<Check>
    ensures { result ≡ spec.behind_arrow }
{
    Some(Check::Any(true, Stack::new(alloc)))
}

fn behind_pattern(alloc: Global, symbol: Symbol) -> Option<Check>
    ensures { result ≡ spec.behind_pattern symbol }
{
    match symbol {
        Symbol::Arrow => behind_arrow(alloc),
        Symbol::Word(Word::If) => Some(Check::Guard(begun(alloc, Limit::CaseGuard))),
        _ => None,
    }
}

fn in_pattern(
    alloc: Global,
    pattern: PatternState,
    symbol: Symbol,
    token: Token,
    word: &str,
) -> Result<Option<Check>, NoMemory>
    ensures { IfOk result (λ now. now ≡ spec.in_pattern pattern symbol (lexeme_with token word.now)) }
{
    if admits(&pattern, token, word) {
        return Ok(Some(Check::Pattern(advance(alloc, pattern, token, word)?)));
    }
    if is_pattern(&pattern) {
        Ok(behind_pattern(alloc, symbol))
    } else {
        Ok(None)
    }
}

fn in_guard(
    alloc: Global,
    state: State,
    symbol: Symbol,
    token: Token,
    word: &str,
) -> Result<Option<Check>, NoMemory>
    ensures { IfOk result (λ now. now ≡ spec.in_guard state symbol (lexeme_with token word.now)) }
{
    if is_arrow(symbol) && is_read(&state) {
        return Ok(behind_arrow(alloc));
    }
    match step(alloc, state, token, word)? {
        Some(state) => Ok(Some(Check::Guard(state))),
        None => Ok(None),
    }
}

fn in_begin(alloc: Global, may_be_block: bool, symbol: Symbol) -> Result<Option<Check>, NoMemory>
    ensures { IfOk result (λ now. now ≡ spec.in_begin may_be_block symbol) }
{
    if is_case_word(symbol) {
        Ok(Some(Check::Pattern(pattern_begun(alloc))))
    } else if may_be_block {
        in_any(false, Stack::new(alloc), symbol)
    } else {
        Ok(None)
    }
}

fn in_case(
    alloc: Global,
    symbol: Symbol,
    token: Token,
    word: &str,
) -> Result<Option<Check>, NoMemory>
    ensures { IfOk result (λ now. now ≡ spec.in_case symbol (lexeme_with token word.now)) }
{
    if is_template_word(symbol) {
        in_any(true, Stack::new(alloc), symbol)
    } else {
        in_pattern(alloc, pattern_begun(alloc), symbol, token, word)
    }
}

// A `)` does not close what `{` opened.
fn in_generators(state: Option<State>) -> Option<Check>
    ensures { result ≡ spec.in_generators state }
{
    match state {
        Some(state) => {
            if state.frames.is_empty() {
                None
            } else {
                Some(Check::Generators(state))
            }
        }
        None => None,
    }
}

/// The check behind a token that is no brace, if it can stand next.
pub fn check_token(
    alloc: Global,
    check: Check,
    token: Token,
    word: &str,
) -> Result<Option<Check>, NoMemory>
    ensures { IfOk result (λ now. now ≡ spec.check_token check (lexeme_with token word.now)) }
{
    let symbol = read_symbol(token.kind, word.as_bytes());
    match check {
        Check::Expr(state) => match step(alloc, state, token, word)? {
            Some(state) => Ok(Some(Check::Expr(state))),
            None => Ok(None),
        },
        Check::Generators(state) => Ok(in_generators(step(alloc, state, token, word)?)),
        Check::Begin(may_be_block) => in_begin(alloc, may_be_block, symbol),
        Check::Pattern(pattern) => in_pattern(alloc, pattern, symbol, token, word),
        Check::Guard(state) => in_guard(alloc, state, symbol, token, word),
        Check::Any(in_cases, brackets) => in_any(in_cases, brackets, symbol),
        Check::AtCase => in_case(alloc, symbol, token, word),
    }
}

/// A level's check behind a `{`, and that of the level which it opens.
#[derive(Debug, Drop)]
pub struct Checks {
    pub outer: Check,
    pub inner: Check,
}

// A reader's state behind a `{`, and the check of the level which it opens.
#[derive(Debug, Drop)]
struct Entered {
    state: State,
    inner: Check,
}

fn inner_of(alloc: Global, asks: Asks) -> Result<Check, NoMemory>
    ensures { IfOk result (λ inner. inner ≡ spec.inner_of asks) }
{
    match asks {
        Asks::Generators => Ok(Check::Generators(generators_begun(alloc)?)),
        Asks::Cases => Ok(Check::Begin(false)),
        Asks::Any => Ok(Check::Begin(true)),
    }
}

fn enter(alloc: Global, state: State, before: Newline) -> Result<Option<Entered>, NoMemory>
    ensures { IfOk result (λ now. now ≡ spec.entered state before) }
{
    match open_braces(alloc, state, before)? {
        None => Ok(None),
        Some(Opened { state, asks }) => {
            let inner = inner_of(alloc, asks)?;
            Ok(Some(Entered { state, inner }))
        }
    }
}

fn begin_opening(alloc: Global, may_be_block: bool) -> Option<Checks>
    ensures { result ≡ spec.begin_opening may_be_block }
{
    if may_be_block {
        Some(Checks {
            outer: any(alloc),
            inner: any(alloc),
        })
    } else {
        None
    }
}

/// The checks behind a `{`, if it can stand next.
pub fn check_opening(
    alloc: Global,
    check: Check,
    before: Newline,
) -> Result<Option<Checks>, NoMemory>
    ensures { IfOk result (λ now. now ≡ spec.check_opening check before) }
{
    match check {
        Check::Expr(state) => match enter(alloc, state, before)? {
            None => Ok(None),
            Some(Entered { state, inner }) => {
                let outer = Check::Expr(state);
                Ok(Some(Checks { outer, inner }))
            }
        },
        Check::Generators(state) => match enter(alloc, state, before)? {
            None => Ok(None),
            Some(Entered { state, inner }) => {
                let outer = Check::Generators(state);
                Ok(Some(Checks { outer, inner }))
            }
        },
        Check::Guard(state) => match enter(alloc, state, before)? {
            None => Ok(None),
            Some(Entered { state, inner }) => {
                let outer = Check::Guard(state);
                Ok(Some(Checks { outer, inner }))
            }
        },
        Check::Any(in_cases, brackets) => Ok(Some(Checks {
            outer: Check::Any(in_cases, brackets),
            inner: any(alloc),
        })),
        Check::Begin(may_be_block) => Ok(begin_opening(alloc, may_be_block)),
        Check::Pattern(pattern) => {
            drop(pattern);
            Ok(None)
        }
        Check::AtCase => Ok(None),
    }
}

/// Whether `}` can stand next.
pub fn may_close(check: &Check) -> bool
    ensures { result ≡ spec.may_close check.now }
{
    match check {
        Check::Generators(state) => are_generators(state),
        Check::Begin(may_be_block) => *may_be_block,
        Check::Any(_, brackets) => brackets.is_empty(),
        _ => false,
    }
}

/// The check behind a pair of braces that it has admitted.
pub fn check_braces(alloc: Global, check: Check, braces: Braces) -> Result<Check, NoMemory>
    ensures { IfOk result (λ now. now ≡ spec.check_braces check braces) }
{
    match check {
        Check::Expr(state) => Ok(Check::Expr(behind(alloc, state, braces)?)),
        Check::Generators(state) => Ok(Check::Generators(behind(alloc, state, braces)?)),
        Check::Guard(state) => Ok(Check::Guard(behind(alloc, state, braces)?)),
        check => Ok(check),
    }
}
