//! What holds of all trees.

ghost use Rattle.std.specs.Prelude.{◌≤◌, ℕ, length};
ghost use Rattle.positioned_trees.specs.Located.{Encloses, KeepsKidsApart, holding, opaque_spans};
ghost use Rattle.positioned_trees.specs.declared.trees.Tree.{Tree};

/// Where every tree encloses its kids, each encloses all trees below it.
pub fn law_enclosed()
    ensures { (tree : Tree) → Encloses tree }
{}

/// Where the opaque kids of a tree do not overlap, at most two of those that are not empty hold an offset.
pub fn law_few_kids()
    ensures { (tree : Tree) (offset : ℕ) → KeepsKidsApart tree → length (holding offset (opaque_spans tree)) ≤ 2 }
{}
