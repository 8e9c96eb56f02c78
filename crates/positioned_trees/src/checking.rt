//! Whether the trees of a unit stand where they can be found.

ghost use Rattle.std.specs.Prelude.{◌≡◌, ◌↔◌, ◌≤◌, IsTrue};
ghost use Rattle.positioned_trees.specs.Located as spec;
ghost use Rattle.positioned_trees.specs.declared.trees.Tree.TheViews.{out-Tree};

use crate::locating::MAX_HEIGHT;
use crate::{SourceUnit, Tree};
use pc_terms::Span;

fn is_within(outer: Span, inner: Span) -> bool
    ensures { IsTrue result ↔ spec.IsWithin outer inner }
{
    outer.start <= inner.start && inner.end <= outer.end
}

// Whether the tree is no higher than this, and it and all below it enclose their kids.
fn stands(tree: &Tree, room: u32) -> bool
    ensures { IsTrue result ↔ spec.Stands room tree.now }
{
    if room == 0 {
        return false;
    }
    for kid in tree.kids.as_slice() {
        if !is_within(tree.span, kid.span) {
            return false;
        }
        if !stands(kid, room - 1) {
            return false;
        }
    }
    true
}

/// Whether the root is the whole text's, every tree encloses its kids, and none is higher than the limit.
pub fn is_placed(unit: &SourceUnit) -> bool
    ensures { IsTrue result ↔ spec.IsPlaced unit.now }
{
    let root = &unit.root;
    let is_whole = root.opaque && root.span.start == 0 && root.span.end == unit.length;
    is_whole && stands(root, MAX_HEIGHT)
}
