//! What a tree defines, by its kind and the kind of tree that it stands in, and in which space that is named.

ghost use Rattle.std.specs.Prelude.{◌≡◌};
ghost use Rattle.symbol_table.specs.Symbols as spec;

use crate::name_spaces::NameSpace;
use pc_terms::{SymKind, TreeKind};
use positioned_trees::{Detail, ParamKeyword, Tree};

pub fn is_def(kind: SymKind) -> bool
    ensures { result ≡ spec.is_def kind }
{
    matches!(kind, SymKind::Def)
}

/// Whether a tree with this symbol defines nothing that others can see.
pub fn is_local(kind: SymKind) -> bool
    ensures { result ≡ spec.is_local kind }
{
    matches!(kind, SymKind::Local)
}

/// The name space of a symbol.
pub fn space_of(kind: SymKind) -> NameSpace
    ensures { result ≡ spec.space_of kind }
{
    match kind {
        SymKind::Package => NameSpace::Packages,
        SymKind::Class | SymKind::Trait | SymKind::Alias | SymKind::TypeParam => NameSpace::Types,
        SymKind::Object | SymKind::Val | SymKind::Var | SymKind::Lazy => NameSpace::Terms,
        SymKind::Def | SymKind::Param | SymKind::Local => NameSpace::Terms,
    }
}

fn is_template(kind: TreeKind) -> bool
    ensures { result ≡ spec.is_template kind }
{
    matches!(
        kind,
        TreeKind::ClassDef | TreeKind::TraitDef | TreeKind::ObjectDef
    )
}

fn is_class_or_trait(kind: TreeKind) -> bool
    ensures { result ≡ spec.is_class_or_trait kind }
{
    matches!(kind, TreeKind::ClassDef | TreeKind::TraitDef)
}

/// Whether a tree is a template that stands directly in a class or trait, where none may.
pub fn is_misplaced(outer: TreeKind, kind: TreeKind) -> bool
    ensures { result ≡ spec.stands_wrongly outer kind }
{
    is_class_or_trait(outer) && is_template(kind)
}

fn template_symbol(kind: TreeKind) -> SymKind
    ensures { result ≡ spec.template_symbol kind }
{
    match kind {
        TreeKind::ClassDef => SymKind::Class,
        TreeKind::TraitDef => SymKind::Trait,
        TreeKind::ObjectDef => SymKind::Object,
        _ => SymKind::Local,
    }
}

fn member_symbol(kind: TreeKind) -> SymKind
    ensures { result ≡ spec.member_symbol kind }
{
    match kind {
        TreeKind::ValDef => SymKind::Val,
        TreeKind::VarDef => SymKind::Var,
        TreeKind::LazyDef => SymKind::Lazy,
        TreeKind::DefDef => SymKind::Def,
        TreeKind::AliasDef => SymKind::Alias,
        _ => SymKind::Local,
    }
}

fn object_symbol(kind: TreeKind) -> SymKind
    ensures { result ≡ spec.object_symbol kind }
{
    match kind {
        TreeKind::ClassDef => SymKind::Class,
        TreeKind::TraitDef => SymKind::Trait,
        TreeKind::ObjectDef => SymKind::Object,
        own => member_symbol(own),
    }
}

fn trait_symbol(kind: TreeKind) -> SymKind
    ensures { result ≡ spec.trait_symbol kind }
{
    match kind {
        TreeKind::TypeParam => SymKind::TypeParam,
        own => member_symbol(own),
    }
}

fn class_param_symbol(detail: &Detail) -> SymKind
    ensures { result ≡ spec.class_param_symbol detail.now }
{
    match detail {
        Detail::Param(parts) => match parts.keyword {
            ParamKeyword::Var => SymKind::Var,
            ParamKeyword::Val | ParamKeyword::Missing => SymKind::Val,
        },
        _ => SymKind::Val,
    }
}

fn class_symbol(kind: TreeKind, detail: &Detail) -> SymKind
    ensures { result ≡ spec.class_symbol kind detail.now }
{
    match kind {
        TreeKind::Param => class_param_symbol(detail),
        TreeKind::TypeParam => SymKind::TypeParam,
        own => member_symbol(own),
    }
}

fn method_symbol(kind: TreeKind) -> SymKind
    ensures { result ≡ spec.method_symbol kind }
{
    match kind {
        TreeKind::Param => SymKind::Param,
        TreeKind::TypeParam => SymKind::TypeParam,
        _ => SymKind::Local,
    }
}

/// What a tree defines that stands directly in a tree of this kind; `Local` where it defines nothing that others can see.
pub fn symbol_in(outer: TreeKind, tree: &Tree) -> SymKind
    ensures { result ≡ spec.symbol_in outer tree.now }
{
    match outer {
        TreeKind::Unit => template_symbol(tree.kind),
        TreeKind::ObjectDef => object_symbol(tree.kind),
        TreeKind::ClassDef => class_symbol(tree.kind, &tree.detail),
        TreeKind::TraitDef => trait_symbol(tree.kind),
        TreeKind::DefDef => method_symbol(tree.kind),
        _ => SymKind::Local,
    }
}
