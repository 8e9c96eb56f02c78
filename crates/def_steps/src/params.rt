//! The parameters of a method.

ghost use Rattle.std.specs.Prelude.{◌≡◌, IfOk};
ghost use Rattle.parse_patterns.specs.Names.{lexeme_with};
ghost use Rattle.def_steps.specs.Params as spec;

use crate::modifiers::next;
use crate::states::{Found, Method, Named, ParamTail, State, Tail};
use crate::values::goes_on;
use expr_frames::beside;
use expr_steps::operands::{name_at, type_on};
use expr_tails::symbols::Symbol;
use expr_tails::types::{is_type, type_begun, type_of};
use parse_parts::built::{Tall, joined, node};
use parse_parts::states::State as TypeState;
use parse_parts::steps::{alone, tail_end};
use pc_terms::{NoMemory, Span, TreeKind};
use positioned_trees::{Detail, Name, ParamKeyword, ParamParts};
use scan_tokens::{Token, TokenKind};
use std::alloc::Global;
use tree_lower::{detailed, no_modifiers};

/// One more of what stands in a list. No source has as many as do not fit.
pub fn one_more(count: u32) -> u32
    ensures { result ≡ spec.one_more count }
{
    count.saturating_add(1)
}

fn param_detail(repeated: bool) -> Detail
    ensures { result ≡ spec.param_detail repeated }
{
    Detail::Param(ParamParts {
        modifiers: no_modifiers(),
        keyword: ParamKeyword::Missing,
        binds: true,
        repeated,
    })
}

fn param_tree(
    alloc: Global,
    name: Name,
    ty: Option<Tall>,
    end: u32,
    repeated: bool,
) -> Result<Option<Tall>, NoMemory>
    ensures { IfOk result (λ now. now ≡ spec.param_tree name ty end repeated) }
{
    let span = Span {
        start: name.span.start,
        end,
    };
    let kids = alone(alloc, ty)?;
    let tall = node(TreeKind::Param, name.text, name.span, span, kids);
    Ok(detailed(tall, param_detail(repeated)))
}

/// A definition with one kid more.
pub fn with_kid(named: Named, tall: Option<Tall>) -> Result<Named, NoMemory>
    ensures { IfOk result (λ now. now ≡ spec.with_kid named tall) }
{
    Ok(Named {
        start: named.start,
        name: named.name,
        kids: joined(named.kids, tall)?,
        has_type: named.has_type,
    })
}

fn with_param(method: Method, tall: Option<Tall>) -> Result<Method, NoMemory>
    ensures { IfOk result (λ now. now ≡ spec.with_param method tall) }
{
    Ok(Method {
        named: with_kid(method.named, tall)?,
        type_params: method.type_params,
        param_lists: method.param_lists,
        is_fresh: method.is_fresh,
    })
}

fn in_list(found: Found, method: Method, count: u32, tail: ParamTail) -> Option<State>
    ensures { result ≡ spec.in_params_at found method count tail }
{
    next(found, Tail::InParams(method, count, tail))
}

fn list_closed(found: Found, method: Method, count: u32) -> Result<Option<State>, NoMemory>
    ensures { IfOk result (λ now. now ≡ spec.list_closed found method count) }
{
    let Method {
        named,
        type_params,
        param_lists,
        is_fresh,
    } = method;
    let mut param_lists = param_lists;
    beside!(named; param_lists.push(count));
    let method = Method {
        named,
        type_params,
        param_lists,
        is_fresh,
    };
    Ok(next(found, Tail::AtMethod(method)))
}

/// Whether a token without backquotes is written like this.
pub fn is_plain(token: Token) -> bool
    ensures { result ≡ spec.is_plain token.kind }
{
    !matches!(token.kind, TokenKind::BackId)
}

fn is_star(token: Token, word: &str) -> bool
    ensures { result ≡ spec.is_star (lexeme_with token word.now) }
{
    is_plain(token) && word.as_bytes() == b"*".as_slice()
}

// The parameter that ends with its type, as a tree.
fn typed_param(alloc: Global, name: Name, ty: TypeState) -> Result<Option<Tall>, NoMemory>
    ensures { IfOk result (λ now. now ≡ spec.typed_param name ty) }
{
    let end = tail_end(&ty.tail);
    let tall = type_of(alloc, ty)?;
    param_tree(alloc, name, tall, end, false)
}

fn starred(
    alloc: Global,
    found: Found,
    method: Method,
    count: u32,
    name: Name,
    ty: TypeState,
    token: Token,
    word: &str,
) -> Result<Option<State>, NoMemory>
    ensures { IfOk result (λ now. now ≡ spec.starred found method count name ty (lexeme_with token word.now)) }
{
    if is_star(token, word) {
        let tall = beside!(method; type_of(alloc, ty));
        Ok(in_list(
            found,
            method,
            count,
            ParamTail::AtStar(name, tall, token.span.end),
        ))
    } else {
        drop(method);
        drop(ty);
        Ok(None)
    }
}

fn after_type(
    alloc: Global,
    found: Found,
    method: Method,
    count: u32,
    name: Name,
    ty: TypeState,
    symbol: Symbol,
    token: Token,
    word: &str,
) -> Result<Option<State>, NoMemory>
    ensures { IfOk result
        (λ now. now ≡ spec.after_type found method count name ty symbol (lexeme_with token word.now)) }
{
    match symbol {
        Symbol::Id => starred(alloc, found, method, count, name, ty, token, word),
        Symbol::Comma => {
            let param = beside!(method; typed_param(alloc, name, ty));
            let method = with_param(method, param)?;
            Ok(in_list(found, method, one_more(count), ParamTail::Begin(false)))
        }
        Symbol::CloseRound => {
            let param = beside!(method; typed_param(alloc, name, ty));
            let method = with_param(method, param)?;
            list_closed(found, method, one_more(count))
        }
        _ => {
            drop(method);
            drop(ty);
            Ok(None)
        }
    }
}

fn in_type(
    alloc: Global,
    found: Found,
    method: Method,
    count: u32,
    name: Name,
    ty: TypeState,
    symbol: Symbol,
    token: Token,
    word: &str,
) -> Result<Option<State>, NoMemory>
    ensures { IfOk result
        (λ now. now ≡ spec.in_param_type found method count name ty symbol (lexeme_with token word.now)) }
{
    if goes_on(&ty, token, word) {
        let ty = beside!(method; type_on(alloc, ty, token, word));
        Ok(in_list(found, method, count, ParamTail::InType(name, ty)))
    } else if is_type(&ty) {
        after_type(alloc, found, method, count, name, ty, symbol, token, word)
    } else {
        drop(method);
        drop(ty);
        Ok(None)
    }
}

fn at_param(
    alloc: Global,
    found: Found,
    method: Method,
    count: u32,
    may_end: bool,
    symbol: Symbol,
    token: Token,
    word: &str,
) -> Result<Option<State>, NoMemory>
    ensures { IfOk result (λ now. now ≡ spec.at_param found method count may_end symbol (lexeme_with token word.now)) }
{
    match symbol {
        Symbol::Id => {
            let name = beside!(method; name_at(alloc, token, word));
            Ok(in_list(found, method, count, ParamTail::AtName(name)))
        }
        Symbol::CloseRound => {
            if may_end {
                list_closed(found, method, count)
            } else {
                drop(method);
                Ok(None)
            }
        }
        _ => {
            drop(method);
            Ok(None)
        }
    }
}

fn after_name(
    alloc: Global,
    found: Found,
    method: Method,
    count: u32,
    name: Name,
    symbol: Symbol,
) -> Option<State>
    ensures { result ≡ spec.after_name found method count name symbol }
{
    match symbol {
        Symbol::Colon => in_list(
            found,
            method,
            count,
            ParamTail::InType(name, type_begun(alloc)),
        ),
        _ => {
            drop(method);
            None
        }
    }
}

fn after_star(
    found: Found,
    method: Method,
    count: u32,
    param: Option<Tall>,
    symbol: Symbol,
) -> Result<Option<State>, NoMemory>
    ensures { IfOk result (λ now. now ≡ spec.after_star found method count param symbol) }
{
    match symbol {
        Symbol::CloseRound => list_closed(found, with_param(method, param)?, one_more(count)),
        _ => {
            drop(method);
            drop(param);
            Ok(None)
        }
    }
}

/// The state after one token more of a list of parameters.
pub fn in_params(
    alloc: Global,
    found: Found,
    method: Method,
    count: u32,
    tail: ParamTail,
    symbol: Symbol,
    token: Token,
    word: &str,
) -> Result<Option<State>, NoMemory>
    ensures { IfOk result (λ now. now ≡ spec.in_params found method count tail symbol (lexeme_with token word.now)) }
{
    match tail {
        ParamTail::Begin(may_end) => at_param(
            alloc, found, method, count, may_end, symbol, token, word,
        ),
        ParamTail::AtName(name) => Ok(after_name(alloc, found, method, count, name, symbol)),
        ParamTail::InType(name, ty) => in_type(
            alloc, found, method, count, name, ty, symbol, token, word,
        ),
        ParamTail::AtStar(name, tall, end) => {
            let param = beside!(method; param_tree(alloc, name, tall, end, true));
            after_star(found, method, count, param, symbol)
        }
    }
}
