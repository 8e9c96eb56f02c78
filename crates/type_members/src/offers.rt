//! What classes define for those that are derived from them.

ghost use Rattle.std.specs.Prelude.{◌≡◌, map, IfOk};
ghost use Rattle.type_members.specs.Members as spec;

use crate::spaces::kind_of;
use base_types::Owned;
use pc_terms::{NoMemory, Row, SymKind, SymPath};
use std::alloc::Global;
use type_substitution::copy_path;

/// Whether a definition is private.
fn is_private<W: Owned>(table: &W, path: &SymPath) -> bool
    ensures { result ≡ spec.is_private (spec.declared (W.owned_by table.now) (W.flags_of table.now)) path.now }
{
    match table.flags(path) {
        Some(flags) => flags.private_,
        None => false,
    }
}

/// Whether a definition is abstract.
pub fn is_abstract<W: Owned>(table: &W, path: &SymPath) -> bool
    ensures { result ≡ spec.is_abstract (spec.declared (W.owned_by table.now) (W.flags_of table.now)) path.now }
{
    match table.flags(path) {
        Some(flags) => flags.abstract_,
        None => false,
    }
}

fn is_type_param(kind: SymKind) -> bool
    ensures { result ≡ spec.is_param_kind kind }
{
    matches!(kind, SymKind::TypeParam)
}

/// Whether what a class owns is one of its members, which its type parameters are not.
pub fn is_member(path: &SymPath) -> bool
    ensures { result ≡ spec.is_member path.now }
{
    !is_type_param(kind_of(path))
}

/// Whether it is one that others inherit: private ones are not (SLS 5.2).
pub fn is_inherited<W: Owned>(table: &W, path: &SymPath) -> bool
    ensures { result ≡ spec.is_inherited (spec.declared (W.owned_by table.now) (W.flags_of table.now)) path.now }
{
    is_member(path) && !is_private(table, path)
}

/// A class, and members that it offers to a type.
#[derive(Debug, Drop)]
pub struct Offer {
    pub class: SymPath,
    pub paths: Row<SymPath>,
}

/// All members that a class defines.
pub fn own_offer<W: Owned>(alloc: Global, table: &W, class: &SymPath) -> Result<Offer, NoMemory>
    ensures { IfOk result (λ offer. offer ≡ spec.all_of (spec.declared (W.owned_by table.now) (W.flags_of table.now)) class.now) }
{
    let mut paths = Row::new(alloc);
    for path in table.owned(class) {
        if is_member(path) {
            paths.push(copy_path(alloc, path)?)?;
        }
    }
    Ok(Offer {
        class: copy_path(alloc, class)?,
        paths,
    })
}

/// Those that others inherit.
pub fn inherited_offer<W: Owned>(
    alloc: Global,
    table: &W,
    class: &SymPath,
) -> Result<Offer, NoMemory>
    ensures { IfOk result (λ offer. offer ≡ spec.inherited_from (spec.declared (W.owned_by table.now) (W.flags_of table.now)) class.now) }
{
    let mut paths = Row::new(alloc);
    for path in table.owned(class) {
        if is_inherited(table, path) {
            paths.push(copy_path(alloc, path)?)?;
        }
    }
    Ok(Offer {
        class: copy_path(alloc, class)?,
        paths,
    })
}

/// What each of these classes offers to those that are derived from it.
pub fn inherited_offers<W: Owned>(
    alloc: Global,
    table: &W,
    classes: &[SymPath],
) -> Result<Row<Offer>, NoMemory>
    ensures { IfOk result (λ offers. offers ≡ map (spec.inherited_from (spec.declared (W.owned_by table.now) (W.flags_of table.now))) classes.now) }
{
    let mut offers = Row::new(alloc);
    for class in classes {
        offers.push(inherited_offer(alloc, table, class)?)?;
    }
    Ok(offers)
}
