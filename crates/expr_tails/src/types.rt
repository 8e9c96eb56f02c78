//! The machine of types inside that of expressions.

ghost use Rattle.std.specs.Prelude.{◌≡◌, IfOk};
ghost use Rattle.expr_tails.specs.Types as spec;
ghost use Rattle.parse_parts.specs.Reading.{begun};

use crate::states::{Limit, Tail};
use parse_parts::Symbol as TypeSymbol;
use parse_parts::built::Tall;
use parse_parts::stack::Stack;
use parse_parts::states::{State as TypeState, Tail as TypeTail};
use parse_parts::steps::{admits, is_whole, type_at};
use parse_patterns::admitting::type_goes_on;
use pc_terms::NoMemory;
use std::alloc::Global;

pub fn type_begun(alloc: Global) -> TypeState
    ensures { result ≡ begun }
{
    TypeState {
        frames: Stack::new(alloc),
        heads: Stack::new(alloc),
        tail: TypeTail::Begin,
    }
}

/// Whether what was read is a type.
pub fn is_type(ty: &TypeState) -> bool
    ensures { result ≡ spec.is_type ty.now }
{
    ty.frames.is_empty() && is_whole(&ty.tail)
}

/// Whether what was read is a type and the `.` after it, which no name follows yet.
pub fn is_type_and_dot(ty: &TypeState) -> bool
    ensures { result ≡ spec.is_type_and_dot ty.now }
{
    ty.frames.is_empty() && matches!(ty.tail, TypeTail::AtDot(_))
}

/// Whether a token is one more of the type after `new`. In the guard of a case no arrow is.
pub fn new_goes_on(limit: Limit, ty: &TypeState, symbol: TypeSymbol) -> bool
    ensures { result ≡ spec.new_goes_on limit ty.now symbol }
{
    match limit {
        Limit::CaseGuard => type_goes_on(ty, symbol),
        _ => admits(ty, symbol),
    }
}

/// The type that ends here.
pub fn type_of(alloc: Global, ty: TypeState) -> Result<Option<Tall>, NoMemory>
    ensures { IfOk result (λ now. now ≡ spec.type_of ty) }
{
    type_at(alloc, ty.heads, ty.tail)
}

/// The type before its last `.`.
pub fn before_dot(ty: TypeState) -> TypeState
    ensures { result ≡ spec.before_dot ty }
{
    let TypeState {
        frames,
        heads,
        tail,
    } = ty;
    let tail = match tail {
        TypeTail::AtDot(path) => TypeTail::AtPath(path),
        tail => tail,
    };
    TypeState {
        frames,
        heads,
        tail,
    }
}

/// Whether the tail is at the machine of types, and this admits the token.
pub fn type_takes(limit: Limit, tail: &Tail, symbol: TypeSymbol) -> bool
    ensures { result ≡ spec.type_takes limit tail.now symbol }
{
    match tail {
        Tail::InNew(_, _, ty) => new_goes_on(limit, ty, symbol),
        Tail::InTypes(_, ty) | Tail::InTyped(_, ty) => admits(ty, symbol),
        _ => false,
    }
}
