ghost use Rattle.std.specs.Prelude.{◌≡◌, [], ◌∷◌, IfOk};
ghost use Rattle.compiler_loop.specs.ThinAnswer as spec;

use super::locating::{ThinTree, Which};
use super::reading::{ThinObject, ThinUnit, ThinVal, ValType};
use ask_history::TreeInfo;
use pc_terms::{NoMemory, Row, Span, SymKind, SymPath, SymStep, Text, TreeKind, Ty};
use std::alloc::Global;

fn step(alloc: Global, kind: SymKind, name: &str) -> Result<SymStep, NoMemory>
    ensures { IfOk result (λ step. step ≡ spec.step kind name.now) }
{
    Ok(SymStep {
        kind,
        name: Text::new(alloc, name)?,
        ordinal: 0,
    })
}

fn path_of_one(alloc: Global, only: SymStep) -> Result<SymPath, NoMemory>
    ensures { IfOk result (λ path. path ≡ record { steps = only ∷ [] }) }
{
    let mut steps = Row::new(alloc);
    steps.push(only)?;
    Ok(SymPath { steps })
}

fn path_of_two(alloc: Global, owner: SymStep, own: SymStep) -> Result<SymPath, NoMemory>
    ensures { IfOk result (λ path. path ≡ record { steps = owner ∷ own ∷ [] }) }
{
    let mut steps = Row::new(alloc);
    steps.push(owner)?;
    steps.push(own)?;
    Ok(SymPath { steps })
}

fn scala_class(alloc: Global, name: &str) -> Result<Ty, NoMemory>
    ensures { IfOk result (λ ty. ty ≡ spec.scala_class name.now) }
{
    let owner = step(alloc, SymKind::Package, "scala")?;
    let own = step(alloc, SymKind::Class, name)?;
    Ok(Ty::Class(path_of_two(alloc, owner, own)?, Row::new(alloc)))
}

fn type_of_val(alloc: Global, of: ValType) -> Result<Ty, NoMemory>
    ensures { IfOk result (λ ty. ty ≡ spec.type_of_val of) }
{
    match of {
        ValType::Int => scala_class(alloc, "Int"),
        ValType::String => scala_class(alloc, "String"),
    }
}

fn object_symbol(alloc: Global, name: &Text) -> Result<SymPath, NoMemory>
    ensures { IfOk result (λ path. path ≡ spec.object_symbol name.now) }
{
    path_of_one(alloc, step(alloc, SymKind::Object, name.as_str())?)
}

fn val_symbol(alloc: Global, object: &Text, name: &Text) -> Result<SymPath, NoMemory>
    ensures { IfOk result (λ path. path ≡ spec.val_symbol object.now name.now) }
{
    let owner = step(alloc, SymKind::Object, object.as_str())?;
    let own = step(alloc, SymKind::Val, name.as_str())?;
    path_of_two(alloc, owner, own)
}

fn bare_info(kind: TreeKind, span: Span) -> TreeInfo
    ensures { result ≡ spec.bare_info kind span }
{
    TreeInfo {
        kind,
        span,
        ty: None,
        sym: None,
    }
}

fn val_info(alloc: Global, object: &Text, span: Span, val: &ThinVal) -> Result<TreeInfo, NoMemory>
    ensures { IfOk result (λ info. info ≡ spec.val_info object.now span (Some val.now)) }
{
    let ty = type_of_val(alloc, val.of)?;
    let sym = val_symbol(alloc, object, &val.name)?;
    Ok(TreeInfo {
        kind: TreeKind::ValDef,
        span,
        ty: Some(ty),
        sym: Some(sym),
    })
}

fn right_info(alloc: Global, object: &Text, span: Span, val: &ThinVal) -> Result<TreeInfo, NoMemory>
    ensures { IfOk result (λ info. info ≡ spec.right_info object.now span (Some val.now)) }
{
    let ty = type_of_val(alloc, val.of)?;
    match &val.refers {
        Some(name) => Ok(TreeInfo {
            kind: TreeKind::Ident,
            span,
            ty: Some(ty),
            sym: Some(val_symbol(alloc, object, name)?),
        }),
        None => Ok(TreeInfo {
            kind: TreeKind::Literal,
            span,
            ty: Some(ty),
            sym: None,
        }),
    }
}

fn object_info(alloc: Global, name: &Text, span: Span) -> Result<TreeInfo, NoMemory>
    ensures { IfOk result (λ info. info ≡ spec.tree_info TreeKind.ObjectDef span None (Some (spec.object_symbol name.now))) }
{
    Ok(TreeInfo {
        kind: TreeKind::ObjectDef,
        span,
        ty: None,
        sym: Some(object_symbol(alloc, name)?),
    })
}

fn info_in_object(
    alloc: Global,
    object: &ThinObject,
    span: Span,
    which: Which,
) -> Result<TreeInfo, NoMemory>
    ensures { IfOk result (λ info. info ≡ spec.info_in_object object.now span which) }
{
    match which {
        Which::Unit => Ok(bare_info(TreeKind::Unit, span)),
        Which::Object => object_info(alloc, &object.name, span),
        Which::Val(n) => match object.vals.get(n) {
            Some(val) => val_info(alloc, &object.name, span, val),
            None => Ok(bare_info(TreeKind::ValDef, span)),
        },
        Which::Right(n) => match object.vals.get(n) {
            Some(val) => right_info(alloc, &object.name, span, val),
            None => Ok(bare_info(TreeKind::Literal, span)),
        },
    }
}

/// This tree of a unit, with its type and symbol.
pub fn info_at(alloc: Global, unit: &ThinUnit, tree: ThinTree) -> Result<TreeInfo, NoMemory>
    ensures { IfOk result (λ info. info ≡ spec.info_at unit.now tree) }
{
    match unit {
        ThinUnit::Object(object) => info_in_object(alloc, object, tree.span, tree.which),
        ThinUnit::Empty | ThinUnit::Other => Ok(bare_info(TreeKind::Unit, tree.span)),
    }
}
