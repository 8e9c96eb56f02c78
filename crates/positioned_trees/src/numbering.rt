//! The numbers of trees.

ghost use Rattle.std.specs.Prelude.{◌≡◌, ◌≤◌, ◌+◌, ℕ, length};
ghost use Rattle.std.specs.List.{All};
ghost use Rattle.std.specs.Option.{IfSome};
ghost use Rattle.positioned_trees.specs.Located.{KeepsKidsApart, Stands, max_height};
ghost use Rattle.positioned_trees.specs.Trees.{AreInPreOrder, all_trees, fitting, height, numbered};

use crate::Tree;
use pc_terms::Row;
use std::alloc::Global;
use std::mem;

/// Gives a tree this number, and all trees below it the next ones, in pre-order. Returns the number that
/// follows the last one, or `None` where that does not fit 32 bits; the tree is of no use then. It takes no
/// memory.
pub fn number(alloc: Global, tree: &mut Tree, start: u32) -> Option<u32>
    requires low { height tree.old ≤ max_height }
    ensures next { result ≡ fitting (numbered tree.old start).next }
    ensures tree { IfSome result (λ _. tree.new ≡ (numbered tree.old start).tree) }
    ensures ids { IfSome result (λ _. AreInPreOrder start tree.new) }
    ensures count { IfSome result (λ next. next ≡ start + length (all_trees tree.new)) }
    ensures places { IfSome result (λ _. (room : ℕ) → Stands room tree.old → Stands room tree.new) }
    ensures apart { IfSome result (λ _. All KeepsKidsApart (all_trees tree.old) → All KeepsKidsApart (all_trees tree.new)) }
{
    tree.id = start;
    let mut next = start.checked_add(1)?;
    let mut kids = mem::replace(&mut tree.kids, Row::new(alloc)).into_vec();
    for kid in kids.iter_mut() {
        next = number(alloc, kid, next)?;
    }
    tree.kids = Row::from_vec(kids);
    Some(next)
}
