//! Methods.

ghost use Rattle.std.specs.Prelude.{◌≡◌, IfOk};
ghost use Rattle.parse_patterns.specs.Names.{lexeme_with};
ghost use Rattle.def_steps.specs.Heads as spec;

use crate::modifiers::next;
use crate::params::with_kid;
use crate::states::{Found, Method, Named, ParamTail, State, Tail, TypeParamTail};
use crate::values::{goes_on, is_equals, named_at, right_begun, with_type};
use expr_frames::beside;
use expr_frames::frames::is_near;
use expr_steps::operands::{name_at, type_on};
use expr_tails::items::{Braces, Built, Inside};
use expr_tails::symbols::Symbol;
use expr_tails::tails::Ready;
use expr_tails::types::{is_type, type_begun};
use parse_parts::built::{Tall, node};
use parse_parts::states::State as TypeState;
use pc_terms::{NoMemory, Row, Span, TreeKind};
use positioned_trees::{Detail, MethodParts, Name, RightSide};
use scan_tokens::{Newline, Token};
use std::alloc::Global;
use tree_lower::detailed;

fn method_named(alloc: Global, start: u32, name: Name) -> Method
    ensures { result ≡ spec.method_named start name }
{
    Method {
        named: named_at(alloc, start, name),
        type_params: 0,
        param_lists: Row::new(alloc),
        is_fresh: true,
    }
}

/// After `def`.
pub fn at_def(
    alloc: Global,
    found: Found,
    start: u32,
    symbol: Symbol,
    token: Token,
    word: &str,
) -> Result<Option<State>, NoMemory>
    ensures { IfOk result (λ now. now ≡ spec.at_def found start symbol (lexeme_with token word.now)) }
{
    match symbol {
        Symbol::Id => {
            let name = name_at(alloc, token, word)?;
            let method = method_named(alloc, start, name);
            Ok(next(found, Tail::AtMethod(method)))
        }
        _ => Ok(None),
    }
}

fn no_longer_fresh(method: Method) -> Method
    ensures { result ≡ spec.no_longer_fresh method }
{
    Method {
        named: method.named,
        type_params: method.type_params,
        param_lists: method.param_lists,
        is_fresh: false,
    }
}

/// After the name, the type parameters or a list of parameters.
pub fn at_method(
    alloc: Global,
    found: Found,
    method: Method,
    symbol: Symbol,
    before: Newline,
) -> Result<Option<State>, NoMemory>
    ensures { IfOk result (λ now. now ≡ spec.at_method found method symbol before) }
{
    match symbol {
        Symbol::OpenSquare => {
            if !method.is_fresh {
                drop(method);
                return Ok(None);
            }
            let method = no_longer_fresh(method);
            Ok(next(found, Tail::InTypeParams(method, TypeParamTail::Begin)))
        }
        Symbol::OpenRound => {
            if !is_near(before) {
                drop(method);
                return Ok(None);
            }
            let method = no_longer_fresh(method);
            Ok(next(found, Tail::InParams(method, 0, ParamTail::Begin(true))))
        }
        Symbol::Colon => Ok(next(found, Tail::InResult(method, type_begun(alloc)))),
        Symbol::Equals => {
            let right = beside!(method; right_begun(alloc));
            Ok(next(found, Tail::InMethod(method, right)))
        }
        _ => {
            drop(method);
            Ok(None)
        }
    }
}

fn typed_method(
    alloc: Global,
    found: Found,
    method: Method,
    ty: TypeState,
) -> Result<Option<State>, NoMemory>
    ensures { IfOk result (λ now. now ≡ spec.typed_method found method ty) }
{
    let method = Method {
        named: with_type(alloc, method.named, ty)?,
        type_params: method.type_params,
        param_lists: method.param_lists,
        is_fresh: false,
    };
    let right = beside!(method; right_begun(alloc));
    Ok(next(found, Tail::InMethod(method, right)))
}

/// In the type of a method's result.
pub fn in_result(
    alloc: Global,
    found: Found,
    method: Method,
    ty: TypeState,
    symbol: Symbol,
    token: Token,
    word: &str,
) -> Result<Option<State>, NoMemory>
    ensures { IfOk result (λ now. now ≡ spec.in_result found method ty symbol (lexeme_with token word.now)) }
{
    if goes_on(&ty, token, word) {
        let ty = beside!(method; type_on(alloc, ty, token, word));
        Ok(next(found, Tail::InResult(method, ty)))
    } else if is_type(&ty) && is_equals(symbol) {
        typed_method(alloc, found, method, ty)
    } else {
        drop(method);
        drop(ty);
        Ok(None)
    }
}

/// The tree of a method whose kids are all there.
pub fn method_node(found: Found, method: Method, end: u32, right_side: RightSide) -> Option<Tall>
    ensures { result ≡ spec.method_node found method end right_side }
{
    let Method {
        named,
        type_params,
        param_lists,
        is_fresh: _,
    } = method;
    let Named {
        start,
        name,
        kids,
        has_type,
    } = named;
    let span = Span { start, end };
    let tall = node(TreeKind::DefDef, name.text, name.span, span, kids);
    let detail = Detail::Method(MethodParts {
        modifiers: found.modifiers,
        type_params,
        param_lists,
        has_type,
        right_side,
    });
    detailed(tall, detail)
}

fn method_tree(
    found: Found,
    method: Method,
    end: u32,
    right: Option<Tall>,
    right_side: RightSide,
) -> Result<Option<Tall>, NoMemory>
    ensures { IfOk result (λ now. now ≡ spec.method_tree found method end right right_side) }
{
    let Method {
        named,
        type_params,
        param_lists,
        is_fresh,
    } = method;
    let method = Method {
        named: with_kid(named, right)?,
        type_params,
        param_lists,
        is_fresh,
    };
    Ok(method_node(found, method, end, right_side))
}

/// The tree of a method with its right side, which ends here.
pub fn method_at(found: Found, method: Method, right: Ready) -> Result<Built, NoMemory>
    ensures { IfOk result (λ now. now ≡ spec.method_at found method right) }
{
    let Ready { operand, free } = right;
    let end = operand.span.end;
    Ok(Built {
        tall: method_tree(found, method, end, operand.tall, RightSide::Value)?,
        free,
    })
}

fn procedure_of(
    found: Found,
    method: Method,
    end: u32,
    inside: Inside,
) -> Result<Option<State>, NoMemory>
    ensures { IfOk result (λ now. now ≡ spec.procedure_of found method end inside) }
{
    match inside {
        Inside::Block(block) => {
            let Built { tall, free } = block;
            let tall = method_tree(found, method, end, tall, RightSide::Procedure)?;
            Ok(next(found, Tail::AtProcedure(Built { tall, free })))
        }
        inside => {
            drop(inside);
            drop(method);
            Ok(None)
        }
    }
}

/// A method with a block after its head.
pub fn procedure(found: Found, method: Method, braces: Braces) -> Result<Option<State>, NoMemory>
    ensures { IfOk result (λ now. now ≡ spec.procedure found method braces) }
{
    if is_near(braces.before) {
        procedure_of(found, method, braces.span.end, braces.inside)
    } else {
        drop(method);
        drop(braces);
        Ok(None)
    }
}
