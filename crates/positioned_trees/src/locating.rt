//! Which tree stands at an offset.

ghost use Rattle.std.specs.Prelude.{◌≡◌, ◌+◌, ◌≤◌, ◌↔◌, IfSome, IsSome};
ghost use Rattle.std.specs.List.{All, fold};
ghost use Rattle.positioned_trees.specs.Trees.{all_trees, placed_from, height};
ghost use Rattle.positioned_trees.specs.Located as spec;

use crate::{SourceUnit, Tree};
use pc_terms::Span;

/// No tree of a unit is higher. What walks down a tree calls itself within itself no more often.
pub const MAX_HEIGHT: u32 = 400;

// A tree whose span holds the offset.
#[derive(Clone, Copy, Debug, PartialEq, Eq)]
pub(crate) struct Found {
    id: u32,
    span: Span,
    depth: u32,
}

fn holds_offset(span: Span, offset: u32) -> bool
    ensures { result ≡ spec.holds_offset span offset }
{
    span.start <= offset && offset <= span.end
}

fn better_of(old: Found, new: Found) -> Found
    ensures { result ≡ spec.better_of old new }
{
    let later = old.span.start < new.span.start;
    let shorter = new.span.end < old.span.end;
    let deeper = new.span.end == old.span.end && old.depth < new.depth;
    if later || old.span.start == new.span.start && (shorter || deeper) {
        new
    } else {
        old
    }
}

// The better of what was found before and the tree, which holds the offset.
fn better_with(before: Found, tree: &Tree, depth: u32) -> Found
    ensures { result ≡ spec.better_with before tree.now depth }
{
    if tree.opaque {
        better_of(
            before,
            Found {
                id: tree.id,
                span: tree.span,
                depth,
            },
        )
    } else {
        before
    }
}

// The best of what was found before, the tree, and the trees below it.
fn best_in(tree: &Tree, depth: u32, offset: u32, before: Found) -> Found
    requires low { depth + height tree.now ≤ spec.max_height }
    requires encloses { All spec.EnclosesKids (all_trees tree.now) }
    ensures { result ≡ fold spec.better_of before (spec.candidates offset (placed_from depth tree.now)) }
{
    if !holds_offset(tree.span, offset) {
        return before;
    }
    let mut best = better_with(before, tree, depth);
    for kid in tree.kids.as_slice() {
        best = best_in(kid, depth + 1, offset, best);
    }
    best
}

/// The id of the tree at an offset: of the opaque trees with `start <= offset <= end` the one with the latest
/// start, then the shortest, then the deepest. `None` exactly where the offset is above the unit's length.
pub fn locate(unit: &SourceUnit, offset: u32) -> Option<u32>
    requires { spec.IsPlaced unit.now }
    ensures value { result ≡ spec.located unit.now offset }
    ensures choice { IfSome result (spec.IsChosen unit.now offset) }
    ensures within { IsSome result ↔ (offset ≤ unit.now.length) }
{
    if offset > unit.length {
        return None;
    }
    let root = &unit.root;
    let whole = Found {
        id: root.id,
        span: root.span,
        depth: 0,
    };
    Some(best_in(root, 0, offset, whole).id)
}
