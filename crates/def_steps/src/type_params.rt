//! The type parameters of a method.

ghost use Rattle.std.specs.Prelude.{◌≡◌, IfOk};
ghost use Rattle.parse_patterns.specs.Names.{lexeme_with};
ghost use Rattle.def_steps.specs.Params as spec;

use crate::modifiers::next;
use crate::params::{is_plain, one_more, with_kid};
use crate::states::{Found, Method, State, Tail, TypeParam, TypeParamTail};
use crate::values::goes_on;
use expr_frames::beside;
use expr_steps::operands::{name_at, type_on};
use expr_tails::symbols::Symbol;
use expr_tails::types::{is_type, type_begun, type_of};
use parse_parts::built::{Tall, joined, no_kids, node};
use parse_parts::states::State as TypeState;
use parse_parts::steps::tail_end;
use pc_terms::{NoMemory, Span, TreeKind};
use positioned_trees::{Detail, Name, TypeParamParts, Variance};
use scan_tokens::Token;
use std::alloc::Global;
use tree_lower::detailed;

fn is_plus(token: Token, word: &str) -> bool
    ensures { result ≡ spec.is_plus (lexeme_with token word.now) }
{
    is_plain(token) && word.as_bytes() == b"+".as_slice()
}

fn is_minus(token: Token, word: &str) -> bool
    ensures { result ≡ spec.is_minus (lexeme_with token word.now) }
{
    is_plain(token) && word.as_bytes() == b"-".as_slice()
}

fn variance_of(token: Token, word: &str) -> Option<Variance>
    ensures { result ≡ spec.variance_of (lexeme_with token word.now) }
{
    if is_plus(token, word) {
        Some(Variance::Covariant)
    } else if is_minus(token, word) {
        Some(Variance::Contravariant)
    } else {
        None
    }
}

fn param_named(alloc: Global, start: u32, variance: Variance, name: Name) -> TypeParam
    ensures { result ≡ spec.param_named start variance name }
{
    let end = name.span.end;
    TypeParam {
        start,
        end,
        variance,
        name,
        kids: no_kids(alloc),
        has_lower: false,
        has_upper: false,
    }
}

fn param_tree(param: TypeParam) -> Option<Tall>
    ensures { result ≡ spec.type_param_tree param }
{
    let span = Span {
        start: param.start,
        end: param.end,
    };
    let detail = Detail::TypeParam(TypeParamParts {
        variance: param.variance,
        has_lower: param.has_lower,
        has_upper: param.has_upper,
    });
    let name = param.name;
    detailed(
        node(TreeKind::TypeParam, name.text, name.span, span, param.kids),
        detail,
    )
}

fn in_list(found: Found, method: Method, tail: TypeParamTail) -> Option<State>
    ensures { result ≡ spec.in_list found method tail }
{
    next(found, Tail::InTypeParams(method, tail))
}

fn with_param(method: Method, param: TypeParam) -> Result<Method, NoMemory>
    ensures { IfOk result (λ now. now ≡ spec.with_type_param method param) }
{
    let Method {
        named,
        type_params,
        param_lists,
        is_fresh,
    } = method;
    Ok(Method {
        named: with_kid(named, param_tree(param))?,
        type_params: one_more(type_params),
        param_lists,
        is_fresh,
    })
}

fn bounded(param: TypeParam, has_lower: bool, has_upper: bool) -> TypeParam
    ensures { result ≡ spec.bounded param has_lower has_upper }
{
    TypeParam {
        start: param.start,
        end: param.end,
        variance: param.variance,
        name: param.name,
        kids: param.kids,
        has_lower,
        has_upper,
    }
}

fn in_bound_of(alloc: Global, found: Found, method: Method, param: TypeParam) -> Option<State>
    ensures { result ≡ spec.in_bound_of found method param }
{
    in_list(
        found,
        method,
        TypeParamTail::InBound(param, type_begun(alloc)),
    )
}

fn after_lower(alloc: Global, found: Found, method: Method, param: TypeParam) -> Option<State>
    ensures { result ≡ spec.after_lower found method param }
{
    if param.has_lower || param.has_upper {
        drop(method);
        drop(param);
        None
    } else {
        in_bound_of(alloc, found, method, bounded(param, true, false))
    }
}

fn after_upper(alloc: Global, found: Found, method: Method, param: TypeParam) -> Option<State>
    ensures { result ≡ spec.after_upper found method param }
{
    if param.has_upper {
        drop(method);
        drop(param);
        None
    } else {
        let has_lower = param.has_lower;
        in_bound_of(alloc, found, method, bounded(param, has_lower, true))
    }
}

// After a type parameter that is whole.
fn after_param(
    alloc: Global,
    found: Found,
    method: Method,
    param: TypeParam,
    symbol: Symbol,
) -> Result<Option<State>, NoMemory>
    ensures { IfOk result (λ now. now ≡ spec.after_param found method param symbol) }
{
    match symbol {
        Symbol::LowerBound => Ok(after_lower(alloc, found, method, param)),
        Symbol::UpperBound => Ok(after_upper(alloc, found, method, param)),
        Symbol::Comma => {
            let method = with_param(method, param)?;
            Ok(in_list(found, method, TypeParamTail::Begin))
        }
        Symbol::CloseSquare => {
            let method = with_param(method, param)?;
            Ok(next(found, Tail::AtMethod(method)))
        }
        _ => {
            drop(method);
            drop(param);
            Ok(None)
        }
    }
}

fn with_bound(alloc: Global, param: TypeParam, ty: TypeState) -> Result<TypeParam, NoMemory>
    ensures { IfOk result (λ now. now ≡ spec.with_bound param ty) }
{
    let end = tail_end(&ty.tail);
    Ok(TypeParam {
        start: param.start,
        end,
        variance: param.variance,
        name: param.name,
        kids: joined(param.kids, type_of(alloc, ty)?)?,
        has_lower: param.has_lower,
        has_upper: param.has_upper,
    })
}

// The type of the bound goes on.
fn bound_on(
    alloc: Global,
    found: Found,
    method: Method,
    param: TypeParam,
    ty: TypeState,
    token: Token,
    word: &str,
) -> Result<Option<State>, NoMemory>
    ensures { IfOk result (λ now. now ≡ spec.bound_on found method param ty (lexeme_with token word.now)) }
{
    match type_on(alloc, ty, token, word) {
        Ok(ty) => Ok(in_list(found, method, TypeParamTail::InBound(param, ty))),
        Err(none) => {
            drop(method);
            drop(param);
            Err(none)
        }
    }
}

fn in_bound(
    alloc: Global,
    found: Found,
    method: Method,
    param: TypeParam,
    ty: TypeState,
    symbol: Symbol,
    token: Token,
    word: &str,
) -> Result<Option<State>, NoMemory>
    ensures { IfOk result (λ now. now ≡ spec.in_bound found method param ty symbol (lexeme_with token word.now)) }
{
    if goes_on(&ty, token, word) {
        bound_on(alloc, found, method, param, ty, token, word)
    } else if is_type(&ty) {
        let param = beside!(method; with_bound(alloc, param, ty));
        after_param(alloc, found, method, param, symbol)
    } else {
        drop(method);
        drop(param);
        drop(ty);
        Ok(None)
    }
}

fn begun_by(
    alloc: Global,
    found: Found,
    method: Method,
    variance: Option<Variance>,
    name: Name,
) -> Option<State>
    ensures { result ≡ spec.begun_by found method variance name }
{
    match variance {
        Some(variance) => in_list(found, method, TypeParamTail::AtSign(name, variance)),
        None => {
            let param = param_named(alloc, name.span.start, Variance::Invariant, name);
            in_list(found, method, TypeParamTail::AtName(param))
        }
    }
}

fn at_begin(
    alloc: Global,
    found: Found,
    method: Method,
    symbol: Symbol,
    token: Token,
    word: &str,
) -> Result<Option<State>, NoMemory>
    ensures { IfOk result (λ now. now ≡ spec.at_type_param found method symbol (lexeme_with token word.now)) }
{
    match symbol {
        Symbol::Id => {
            let name = beside!(method; name_at(alloc, token, word));
            Ok(begun_by(alloc, found, method, variance_of(token, word), name))
        }
        _ => {
            drop(method);
            Ok(None)
        }
    }
}

// A sign is the variance of the name after it, or a name itself.
fn after_sign(
    alloc: Global,
    found: Found,
    method: Method,
    sign: Name,
    variance: Variance,
    symbol: Symbol,
    token: Token,
    word: &str,
) -> Result<Option<State>, NoMemory>
    ensures { IfOk result
        (λ now. now ≡ spec.after_sign found method sign variance symbol (lexeme_with token word.now)) }
{
    let start = sign.span.start;
    match symbol {
        Symbol::Id => {
            let name = beside!(method; name_at(alloc, token, word));
            let param = param_named(alloc, start, variance, name);
            Ok(in_list(found, method, TypeParamTail::AtName(param)))
        }
        _ => {
            let param = param_named(alloc, start, Variance::Invariant, sign);
            after_param(alloc, found, method, param, symbol)
        }
    }
}

/// The state after one token more of the type parameters of a method.
pub fn in_type_params(
    alloc: Global,
    found: Found,
    method: Method,
    tail: TypeParamTail,
    symbol: Symbol,
    token: Token,
    word: &str,
) -> Result<Option<State>, NoMemory>
    ensures { IfOk result (λ now. now ≡ spec.in_type_params found method tail symbol (lexeme_with token word.now)) }
{
    match tail {
        TypeParamTail::Begin => at_begin(alloc, found, method, symbol, token, word),
        TypeParamTail::AtSign(sign, variance) => after_sign(
            alloc, found, method, sign, variance, symbol, token, word,
        ),
        TypeParamTail::AtName(param) => after_param(alloc, found, method, param, symbol),
        TypeParamTail::InBound(param, ty) => in_bound(
            alloc, found, method, param, ty, symbol, token, word,
        ),
    }
}
