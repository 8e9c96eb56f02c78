//! Declarations: definitions without a right side (SLS 4).

ghost use Rattle.std.specs.Prelude.{◌≡◌, IfOk};
ghost use Rattle.def_steps.specs.Declarations as spec;

use crate::definitions::nothing_built;
use crate::methods::method_node;
use crate::states::{Found, Method, State, Tail, Value};
use crate::values::{kind_of, with_type};
use expr_tails::items::Built;
use expr_tails::types::is_type;
use parse_parts::built::node;
use parse_parts::states::State as TypeState;
use pc_terms::{NoMemory, Row, Span};
use positioned_trees::{Detail, RightSide, ValueParts};
use std::alloc::Global;
use tree_lower::detailed;

/// Whether what was read is a declaration.
pub fn is_declaration(state: &State) -> bool
    ensures { result ≡ spec.is_declaration state.now }
{
    match &state.tail {
        Tail::InValueType(_, ty) | Tail::InResult(_, ty) => is_type(ty),
        Tail::AtMethod(_) => true,
        _ => false,
    }
}

fn value_declared(
    alloc: Global,
    found: Found,
    value: Value,
    ty: TypeState,
    end: u32,
) -> Result<Built, NoMemory>
    ensures { IfOk result (λ now. now ≡ spec.value_declared found value ty end) }
{
    let Value { is_var, named } = value;
    let named = with_type(alloc, named, ty)?;
    let span = Span {
        start: named.start,
        end,
    };
    let detail = Detail::Value(ValueParts {
        modifiers: found.modifiers,
        has_type: true,
        has_right_side: false,
    });
    let name = named.name;
    let tall = node(
        kind_of(found, is_var),
        name.text,
        name.span,
        span,
        named.kids,
    );
    Ok(Built {
        tall: detailed(tall, detail),
        free: Row::new(alloc),
    })
}

fn method_declared(alloc: Global, found: Found, method: Method, end: u32) -> Built
    ensures { result ≡ spec.method_declared found method end }
{
    Built {
        tall: method_node(found, method, end, RightSide::Missing),
        free: Row::new(alloc),
    }
}

fn with_result(alloc: Global, method: Method, ty: TypeState) -> Result<Method, NoMemory>
    ensures { IfOk result (λ now. now ≡ spec.with_result method ty) }
{
    Ok(Method {
        named: with_type(alloc, method.named, ty)?,
        type_params: method.type_params,
        param_lists: method.param_lists,
        is_fresh: method.is_fresh,
    })
}

/// The declaration that was read, whose last token ends here.
pub fn declaration_at(alloc: Global, state: State, end: u32) -> Result<Built, NoMemory>
    ensures { IfOk result (λ now. now ≡ spec.declaration_at state end) }
{
    let State { found, tail } = state;
    match tail {
        Tail::InValueType(value, ty) => value_declared(alloc, found, value, ty, end),
        Tail::AtMethod(method) => Ok(method_declared(alloc, found, method, end)),
        Tail::InResult(method, ty) => {
            let method = with_result(alloc, method, ty)?;
            Ok(method_declared(alloc, found, method, end))
        }
        tail => {
            drop(tail);
            Ok(nothing_built(alloc))
        }
    }
}
