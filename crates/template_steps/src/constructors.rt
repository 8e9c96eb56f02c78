//! The names and the constructors of templates.

ghost use Rattle.std.specs.Prelude.{◌≡◌, IfOk};
ghost use Rattle.parse_patterns.specs.Names.{lexeme_with};
ghost use Rattle.template_steps.specs.Templates as spec;

use crate::class_params::{ParamList, ParamTail, Params, boxed, no_params, step_params};
use crate::heads::{Form, Head, head_of, is_word, with_params};
use crate::templates::Tail;
use def_steps::definitions::{begun as mods_begun, step as step_def};
use def_steps::modifiers::{is_in_modifiers, may_end};
use def_steps::states::{State as DefState, Tail as DefTail};
use expr_frames::beside;
use expr_frames::frames::{is_near, is_no};
use expr_tails::symbols::{Symbol, read_symbol};
use expr_tails::types::type_begun;
use pc_terms::NoMemory;
use scan_tokens::{Newline, Token};
use std::alloc::Global;

pub fn is_named(state: &DefState) -> bool
    ensures { result ≡ spec.is_named state.now }
{
    matches!(state.tail, DefTail::AtMethod(_))
}

pub fn named_head(name: DefState) -> Option<Head>
    ensures { result ≡ spec.named_head name }
{
    let DefState { found: _, tail } = name;
    match tail {
        DefTail::AtMethod(method) => Some(head_of(method)),
        tail => {
            drop(tail);
            None
        }
    }
}

pub fn either_head(head: Head, params: Option<ParamList>) -> Result<Option<Head>, NoMemory>
    ensures { IfOk result (λ now. now ≡ spec.either_head head params) }
{
    match params {
        Some(list) => Ok(Some(with_params(head, list)?)),
        None => {
            drop(head);
            Ok(None)
        }
    }
}

fn is_class(form: Form) -> bool
    ensures { result ≡ spec.is_class form }
{
    matches!(form, Form::Class)
}

fn is_object(form: Form) -> bool
    ensures { result ≡ spec.is_object form }
{
    matches!(form, Form::Object)
}

// Type parameters, or the name.
fn name_on(
    alloc: Global,
    name: DefState,
    token: Token,
    word: &str,
) -> Result<Option<Tail>, NoMemory>
    ensures { IfOk result (λ now. now ≡ spec.name_on name (lexeme_with token word.now)) }
{
    match step_def(alloc, name, token, word)? {
        Some(name) => Ok(Some(Tail::AtName(name))),
        None => Ok(None),
    }
}

fn params_opened(alloc: Global, head: Head, before: Newline) -> Option<Tail>
    ensures { result ≡ spec.params_opened head before }
{
    if is_near(before) {
        Some(Tail::InParams(head, no_params(alloc), ParamTail::Begin(true)))
    } else {
        drop(head);
        None
    }
}

fn in_mods_tail(alloc: Global, head: Head, mods: DefState) -> Result<Option<Tail>, NoMemory>
    ensures { IfOk result (λ now. now ≡ spec.in_mods_tail head mods) }
{
    if is_in_modifiers(&mods.tail) {
        let mods = beside!(head; boxed(alloc, mods));
        Ok(Some(Tail::InMods(head, mods)))
    } else {
        drop(head);
        drop(mods);
        Ok(None)
    }
}

fn mods_on(alloc: Global, head: Head, mods: Option<DefState>) -> Result<Option<Tail>, NoMemory>
    ensures { IfOk result (λ now. now ≡ spec.mods_on head mods) }
{
    match mods {
        Some(mods) => in_mods_tail(alloc, head, mods),
        None => {
            drop(head);
            Ok(None)
        }
    }
}

// The modifiers of a constructor stand in the line of what is before them.
fn mods_opened(
    alloc: Global,
    head: Head,
    token: Token,
    word: &str,
) -> Result<Option<Tail>, NoMemory>
    ensures { IfOk result (λ now. now ≡ spec.mods_opened head (lexeme_with token word.now)) }
{
    if is_no(token.before) {
        let mods = beside!(head; step_def(alloc, mods_begun(), token, word));
        mods_on(alloc, head, mods)
    } else {
        drop(head);
        Ok(None)
    }
}

pub fn extended(alloc: Global, head: Head, token: Token, word: &str) -> Option<Tail>
    ensures { result ≡ spec.extended head (lexeme_with token word.now) }
{
    if is_word(token, word, b"extends".as_slice()) {
        Some(Tail::InParent(head, type_begun(alloc)))
    } else {
        drop(head);
        None
    }
}

fn behind_class_name(
    alloc: Global,
    head: Head,
    symbol: Symbol,
    token: Token,
    word: &str,
) -> Result<Option<Tail>, NoMemory>
    ensures { IfOk result (λ now. now ≡ spec.behind_class_name head symbol (lexeme_with token word.now)) }
{
    match symbol {
        Symbol::OpenRound => Ok(params_opened(alloc, head, token.before)),
        Symbol::At => mods_opened(alloc, head, token, word),
        Symbol::Word(_) => mods_opened(alloc, head, token, word),
        _ => Ok(extended(alloc, head, token, word)),
    }
}

// Behind the name or the type parameters.
fn behind_name(
    alloc: Global,
    form: Form,
    head: Head,
    symbol: Symbol,
    token: Token,
    word: &str,
) -> Result<Option<Tail>, NoMemory>
    ensures { IfOk result (λ now. now ≡ spec.behind_name form head symbol (lexeme_with token word.now)) }
{
    if is_class(form) {
        behind_class_name(alloc, head, symbol, token, word)
    } else {
        Ok(extended(alloc, head, token, word))
    }
}

fn behind_named(
    alloc: Global,
    form: Form,
    head: Option<Head>,
    symbol: Symbol,
    token: Token,
    word: &str,
) -> Result<Option<Tail>, NoMemory>
    ensures { IfOk result (λ now. now ≡ spec.behind_named form head symbol (lexeme_with token word.now)) }
{
    match head {
        Some(head) => behind_name(alloc, form, head, symbol, token, word),
        None => Ok(None),
    }
}

fn at_named(
    alloc: Global,
    form: Form,
    name: DefState,
    symbol: Symbol,
    token: Token,
    word: &str,
) -> Result<Option<Tail>, NoMemory>
    ensures { IfOk result (λ now. now ≡ spec.at_named form name symbol (lexeme_with token word.now)) }
{
    match symbol {
        Symbol::OpenSquare => {
            if is_object(form) {
                drop(name);
                Ok(None)
            } else {
                name_on(alloc, name, token, word)
            }
        }
        _ => behind_named(alloc, form, named_head(name), symbol, token, word),
    }
}

pub fn at_name(
    alloc: Global,
    form: Form,
    name: DefState,
    token: Token,
    word: &str,
) -> Result<Option<Tail>, NoMemory>
    ensures { IfOk result (λ now. now ≡ spec.at_name form name (lexeme_with token word.now)) }
{
    if is_named(&name) {
        let symbol = read_symbol(token.kind, word.as_bytes());
        at_named(alloc, form, name, symbol, token, word)
    } else {
        name_on(alloc, name, token, word)
    }
}

// ---- the constructor

fn either_on(alloc: Global, head: Head, mods: Option<DefState>) -> Result<Option<Tail>, NoMemory>
    ensures { IfOk result (λ now. now ≡ spec.either_on head mods) }
{
    match mods {
        Some(mods) => {
            let mods = beside!(head; boxed(alloc, mods));
            let params = Params::Open(no_params(alloc), ParamTail::Begin(true));
            Ok(Some(Tail::InEither(head, mods, Some(params))))
        }
        None => {
            drop(head);
            Ok(None)
        }
    }
}

// The arguments of the annotation that was read last, or the parameters.
fn either_opened(
    alloc: Global,
    head: Head,
    mods: DefState,
    token: Token,
    word: &str,
) -> Result<Option<Tail>, NoMemory>
    ensures { IfOk result (λ now. now ≡ spec.either_opened head mods (lexeme_with token word.now)) }
{
    let mods = beside!(head; step_def(alloc, mods, token, word));
    either_on(alloc, head, mods)
}

fn is_at_annotation(tail: &DefTail) -> bool
    ensures { result ≡ spec.is_at_annotation tail.now }
{
    matches!(tail, DefTail::AtAnnotation)
}

// Behind the modifiers, where their last one is whole.
fn round_opened(
    alloc: Global,
    head: Head,
    mods: DefState,
    token: Token,
    word: &str,
) -> Result<Option<Tail>, NoMemory>
    ensures { IfOk result (λ now. now ≡ spec.round_opened head mods (lexeme_with token word.now)) }
{
    if is_at_annotation(&mods.tail) && is_no(token.before) {
        either_opened(alloc, head, mods, token, word)
    } else {
        drop(mods);
        Ok(params_opened(alloc, head, token.before))
    }
}

fn is_open_round(symbol: Symbol) -> bool
    ensures { result ≡ spec.is_open_round symbol }
{
    matches!(symbol, Symbol::OpenRound)
}

pub fn in_mods(
    alloc: Global,
    head: Head,
    mods: DefState,
    token: Token,
    word: &str,
) -> Result<Option<Tail>, NoMemory>
    ensures { IfOk result (λ now. now ≡ spec.in_mods head mods (lexeme_with token word.now)) }
{
    if is_open_round(read_symbol(token.kind, word.as_bytes())) && may_end(&mods.tail) {
        round_opened(alloc, head, mods, token, word)
    } else {
        let mods = beside!(head; step_def(alloc, mods, token, word));
        mods_on(alloc, head, mods)
    }
}

fn params_on(
    alloc: Global,
    params: Option<Params>,
    token: Token,
    word: &str,
) -> Result<Option<Params>, NoMemory>
    ensures { IfOk result (λ now. now ≡ spec.params_on params (lexeme_with token word.now)) }
{
    match params {
        Some(Params::Open(list, tail)) => step_params(alloc, list, tail, token, word),
        Some(Params::Closed(list)) => {
            drop(list);
            Ok(None)
        }
        None => Ok(None),
    }
}

fn closed_list(params: Option<Params>) -> Option<ParamList>
    ensures { result ≡ spec.closed_list params }
{
    match params {
        Some(Params::Closed(list)) => Some(list),
        Some(Params::Open(list, tail)) => {
            drop(list);
            drop(tail);
            None
        }
        None => None,
    }
}

/// Whether the arguments of an annotation are being read.
pub fn is_in_arguments(tail: &DefTail) -> bool
    ensures { result ≡ spec.is_in_arguments tail.now }
{
    matches!(tail, DefTail::InArguments(_))
}

fn either_within(
    alloc: Global,
    head: Head,
    params: Option<Params>,
    mods: DefState,
) -> Result<Option<Tail>, NoMemory>
    ensures { IfOk result (λ now. now ≡ spec.either_within head params mods) }
{
    let is_open = is_in_arguments(&mods.tail);
    let mods = match boxed(alloc, mods) {
        Ok(mods) => mods,
        Err(none) => {
            drop(head);
            drop(params);
            return Err(none);
        }
    };
    if is_open {
        Ok(Some(Tail::InEither(head, mods, params)))
    } else {
        Ok(Some(Tail::AtEither(head, mods, closed_list(params))))
    }
}

fn either_at(
    alloc: Global,
    head: Head,
    params: Option<Params>,
    mods: Option<DefState>,
) -> Result<Option<Tail>, NoMemory>
    ensures { IfOk result (λ now. now ≡ spec.either_at head params mods) }
{
    match mods {
        Some(mods) => either_within(alloc, head, params, mods),
        None => {
            drop(head);
            drop(params);
            Ok(None)
        }
    }
}

// The brackets match, so both end at one token.
pub fn in_either(
    alloc: Global,
    head: Head,
    mods: DefState,
    params: Option<Params>,
    token: Token,
    word: &str,
) -> Result<Option<Tail>, NoMemory>
    ensures { IfOk result (λ now. now ≡ spec.in_either head mods params (lexeme_with token word.now)) }
{
    let mods = match step_def(alloc, mods, token, word) {
        Ok(mods) => mods,
        Err(none) => {
            drop(head);
            drop(params);
            return Err(none);
        }
    };
    let params = match params_on(alloc, params, token, word) {
        Ok(params) => params,
        Err(none) => {
            drop(head);
            drop(mods);
            return Err(none);
        }
    };
    either_at(alloc, head, params, mods)
}

fn goes_on_with_mods(symbol: Symbol) -> bool
    ensures { result ≡ spec.goes_on_with_mods symbol }
{
    matches!(symbol, Symbol::OpenRound | Symbol::At | Symbol::Word(_))
}

fn behind_either(
    alloc: Global,
    head: Head,
    params: Option<ParamList>,
    token: Token,
    word: &str,
) -> Result<Option<Tail>, NoMemory>
    ensures { IfOk result (λ now. now ≡ spec.behind_either head params (lexeme_with token word.now)) }
{
    match params {
        Some(list) => {
            let head = with_params(head, list)?;
            Ok(extended(alloc, head, token, word))
        }
        None => {
            drop(head);
            Ok(None)
        }
    }
}

pub fn at_either(
    alloc: Global,
    head: Head,
    mods: DefState,
    params: Option<ParamList>,
    token: Token,
    word: &str,
) -> Result<Option<Tail>, NoMemory>
    ensures { IfOk result (λ now. now ≡ spec.at_either head mods params (lexeme_with token word.now)) }
{
    if goes_on_with_mods(read_symbol(token.kind, word.as_bytes())) {
        drop(params);
        in_mods(alloc, head, mods, token, word)
    } else {
        drop(mods);
        behind_either(alloc, head, params, token, word)
    }
}

pub fn params_at(head: Head, params: Option<Params>) -> Result<Option<Tail>, NoMemory>
    ensures { IfOk result (λ now. now ≡ spec.params_at head params) }
{
    match params {
        Some(Params::Open(list, tail)) => Ok(Some(Tail::InParams(head, list, tail))),
        Some(Params::Closed(list)) => Ok(Some(Tail::AtParents(with_params(head, list)?))),
        None => {
            drop(head);
            Ok(None)
        }
    }
}

pub fn in_params(
    alloc: Global,
    head: Head,
    list: ParamList,
    tail: ParamTail,
    token: Token,
    word: &str,
) -> Result<Option<Tail>, NoMemory>
    ensures { IfOk result (λ now. now ≡ spec.in_params head list tail (lexeme_with token word.now)) }
{
    let params = beside!(head; step_params(alloc, list, tail, token, word));
    params_at(head, params)
}
