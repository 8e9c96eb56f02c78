//! Values and aliases.

ghost use Rattle.std.specs.Prelude.{◌≡◌, IfOk};
ghost use Rattle.parse_patterns.specs.Names.{lexeme_with};
ghost use Rattle.expr_steps.specs.Reading.{begun as expr_begun};
ghost use Rattle.def_steps.specs.Heads as spec;

use crate::modifiers::next;
use crate::states::{Found, Named, State, Tail, Value};
use expr_frames::beside;
use expr_frames::frames::is_no;
use expr_steps::operands::{name_at, type_on};
use expr_steps::steps::begun;
use expr_tails::items::Built;
use expr_tails::states::{Limit, State as ExprState};
use expr_tails::symbols::Symbol;
use expr_tails::tails::Ready;
use expr_tails::types::{is_type, type_begun, type_of};
use parse_parts::built::{joined, no_kids, node};
use parse_parts::read_symbol as read_type_symbol;
use parse_parts::states::State as TypeState;
use parse_parts::steps::{admits, alone, tail_end};
use pc_terms::{NoMemory, Row, Span, TreeKind};
use positioned_trees::{Detail, Name, ValueParts};
use scan_tokens::Token;
use sqlite_items::Boxed;
use std::alloc::Global;
use tree_lower::detailed;

/// Whether a type goes on with the token.
pub fn goes_on(ty: &TypeState, token: Token, word: &str) -> bool
    ensures { result ≡ spec.goes_on ty.now (lexeme_with token word.now) }
{
    admits(ty, read_type_symbol(token.kind, word.as_bytes()))
}

/// Whether the token is `=`.
pub fn is_equals(symbol: Symbol) -> bool
    ensures { result ≡ spec.is_equals symbol }
{
    matches!(symbol, Symbol::Equals)
}

/// A definition of which the name alone was read.
pub fn named_at(alloc: Global, start: u32, name: Name) -> Named
    ensures { result ≡ spec.named_at start name }
{
    Named {
        start,
        name,
        kids: no_kids(alloc),
        has_type: false,
    }
}

/// After `val` or `var`.
pub fn at_value(
    alloc: Global,
    found: Found,
    is_var: bool,
    start: u32,
    symbol: Symbol,
    token: Token,
    word: &str,
) -> Result<Option<State>, NoMemory>
    ensures { IfOk result (λ now. now ≡ spec.at_value found is_var start symbol (lexeme_with token word.now)) }
{
    match symbol {
        Symbol::Id => {
            let named = named_at(alloc, start, name_at(alloc, token, word)?);
            Ok(next(found, Tail::AtValueName(Value { is_var, named })))
        }
        _ => Ok(None),
    }
}

/// After the name of a value.
pub fn at_value_name(
    alloc: Global,
    found: Found,
    value: Value,
    symbol: Symbol,
) -> Result<Option<State>, NoMemory>
    ensures { IfOk result (λ now. now ≡ spec.at_value_name found value symbol) }
{
    match symbol {
        Symbol::Colon => Ok(next(found, Tail::InValueType(value, type_begun(alloc)))),
        Symbol::Equals => {
            let right = beside!(value; right_begun(alloc));
            Ok(next(found, Tail::InValue(value, right)))
        }
        _ => {
            drop(value);
            Ok(None)
        }
    }
}

/// A right side, put where its size does not count.
pub fn boxed(alloc: Global, right: ExprState) -> Result<Boxed<ExprState>, NoMemory>
    ensures { IfOk result (λ now. now ≡ right) }
{
    Ok(Boxed::new(alloc, right)?)
}

/// The right side before its first item.
pub fn right_begun(alloc: Global) -> Result<Boxed<ExprState>, NoMemory>
    ensures { IfOk result (λ now. now ≡ expr_begun Limit.Expr) }
{
    boxed(alloc, begun(alloc, Limit::Expr))
}

/// A definition with the type that it is written with.
pub fn with_type(alloc: Global, named: Named, ty: TypeState) -> Result<Named, NoMemory>
    ensures { IfOk result (λ now. now ≡ spec.with_type named ty) }
{
    Ok(Named {
        start: named.start,
        name: named.name,
        kids: joined(named.kids, type_of(alloc, ty)?)?,
        has_type: true,
    })
}

fn typed_value(
    alloc: Global,
    found: Found,
    value: Value,
    ty: TypeState,
) -> Result<Option<State>, NoMemory>
    ensures { IfOk result (λ now. now ≡ spec.typed_value found value ty) }
{
    let Value { is_var, named } = value;
    let named = with_type(alloc, named, ty)?;
    let value = Value { is_var, named };
    let right = beside!(value; right_begun(alloc));
    Ok(next(found, Tail::InValue(value, right)))
}

/// In the type of a value.
pub fn in_value_type(
    alloc: Global,
    found: Found,
    value: Value,
    ty: TypeState,
    symbol: Symbol,
    token: Token,
    word: &str,
) -> Result<Option<State>, NoMemory>
    ensures { IfOk result (λ now. now ≡ spec.in_value_type found value ty symbol (lexeme_with token word.now)) }
{
    if goes_on(&ty, token, word) {
        let ty = beside!(value; type_on(alloc, ty, token, word));
        Ok(next(found, Tail::InValueType(value, ty)))
    } else if is_type(&ty) && is_equals(symbol) {
        typed_value(alloc, found, value, ty)
    } else {
        drop(value);
        drop(ty);
        Ok(None)
    }
}

/// The kind of a value, which is lazy only where it is no `var`.
pub fn kind_of(found: Found, is_var: bool) -> TreeKind
    ensures { result ≡ spec.kind_of found is_var }
{
    if is_var {
        TreeKind::VarDef
    } else if found.is_lazy {
        TreeKind::LazyDef
    } else {
        TreeKind::ValDef
    }
}

/// The tree of a value with its right side, which ends here.
pub fn value_at(found: Found, value: Value, right: Ready) -> Result<Built, NoMemory>
    ensures { IfOk result (λ now. now ≡ spec.value_at found value right) }
{
    let Value { is_var, named } = value;
    let Ready { operand, free } = right;
    let span = Span {
        start: named.start,
        end: operand.span.end,
    };
    let detail = Detail::Value(ValueParts {
        modifiers: found.modifiers,
        has_type: named.has_type,
        has_right_side: true,
    });
    let kids = joined(named.kids, operand.tall)?;
    let name = named.name;
    let tall = node(kind_of(found, is_var), name.text, name.span, span, kids);
    Ok(Built {
        tall: detailed(tall, detail),
        free,
    })
}

/// After `type`, whose name stands in its line.
pub fn at_type(
    alloc: Global,
    found: Found,
    start: u32,
    symbol: Symbol,
    token: Token,
    word: &str,
) -> Result<Option<State>, NoMemory>
    ensures { IfOk result (λ now. now ≡ spec.at_type found start symbol (lexeme_with token word.now)) }
{
    match symbol {
        Symbol::Id => {
            if !is_no(token.before) {
                return Ok(None);
            }
            let name = name_at(alloc, token, word)?;
            Ok(next(found, Tail::AtTypeName(start, name)))
        }
        _ => Ok(None),
    }
}

/// After the name of an alias.
pub fn at_type_name(
    alloc: Global,
    found: Found,
    start: u32,
    name: Name,
    symbol: Symbol,
) -> Option<State>
    ensures { result ≡ spec.at_type_name found start name symbol }
{
    match symbol {
        Symbol::Equals => next(found, Tail::InAlias(start, name, type_begun(alloc))),
        _ => None,
    }
}

/// In the type that an alias stands for.
pub fn in_alias(
    alloc: Global,
    found: Found,
    start: u32,
    name: Name,
    ty: TypeState,
    token: Token,
    word: &str,
) -> Result<Option<State>, NoMemory>
    ensures { IfOk result (λ now. now ≡ spec.in_alias found start name ty (lexeme_with token word.now)) }
{
    if goes_on(&ty, token, word) {
        let ty = type_on(alloc, ty, token, word)?;
        Ok(next(found, Tail::InAlias(start, name, ty)))
    } else {
        drop(ty);
        Ok(None)
    }
}

/// The tree of an alias.
pub fn alias_at(
    alloc: Global,
    found: Found,
    start: u32,
    name: Name,
    ty: TypeState,
) -> Result<Built, NoMemory>
    ensures { IfOk result (λ now. now ≡ spec.alias_at found start name ty) }
{
    let span = Span {
        start,
        end: tail_end(&ty.tail),
    };
    let kids = alone(alloc, type_of(alloc, ty)?)?;
    let tall = node(TreeKind::AliasDef, name.text, name.span, span, kids);
    Ok(Built {
        tall: detailed(tall, Detail::Alias(found.modifiers)),
        free: Row::new(alloc),
    })
}
