//! Names of members, and the name space in which each is named.

ghost use Rattle.std.specs.Prelude.{◌≡◌};
ghost use Rattle.type_members.specs.Spaces as spec;

use crate::Space;
use pc_terms::{SymKind, SymPath};

/// The name space of a kind of symbols.
pub fn space_of(kind: SymKind) -> Space
    ensures { result ≡ spec.space_of kind }
{
    match kind {
        SymKind::Class | SymKind::Trait | SymKind::Alias | SymKind::TypeParam => Space::Types,
        _ => Space::Terms,
    }
}

pub(crate) fn is_same_space(a: Space, b: Space) -> bool
    ensures { result ≡ spec.is_same_space a b }
{
    match (a, b) {
        (Space::Terms, Space::Terms) | (Space::Types, Space::Types) => true,
        (Space::Terms, Space::Types) | (Space::Types, Space::Terms) => false,
    }
}

/// The kind of a symbol.
pub fn kind_of(path: &SymPath) -> SymKind
    ensures { result ≡ spec.kind_of path.now }
{
    match path.steps.as_slice().last() {
        Some(own) => own.kind,
        None => SymKind::Local,
    }
}

/// The name of a symbol.
pub fn name_of(path: &SymPath) -> &str
    ensures { result.now ≡ spec.name_of path.now }
{
    match path.steps.as_slice().last() {
        Some(own) => own.name.as_str(),
        None => "",
    }
}

/// Whether a symbol has this name, in this space.
pub fn is_named(path: &SymPath, name: &str, space: Space) -> bool
    ensures { result ≡ spec.is_named name.now space path.now }
{
    name_of(path) == name && is_same_space(space_of(kind_of(path)), space)
}

pub fn is_package(path: &SymPath) -> bool
    ensures { result ≡ spec.is_package path.now }
{
    matches!(kind_of(path), SymKind::Package)
}
