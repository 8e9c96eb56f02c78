ghost use Rattle.std.specs.Prelude.{◌≡◌, ◌≤◌, ◌<◌, ◌^◌, length};
ghost use Rattle.compiler_loop.specs.ThinAnswer as spec;

use super::reading::{ThinUnit, ThinVal};
use pc_terms::Span;

/// A tree of a unit: the unit, its object, a val by its number, or the right side of one.
#[derive(Clone, Copy, Debug, PartialEq, Eq)]
pub enum Which {
    Unit,
    Object,
    Val(usize),
    Right(usize),
}

/// Where a tree stands, and how many trees are around it.
#[derive(Clone, Copy, Debug, PartialEq, Eq)]
pub struct ThinTree {
    pub which: Which,
    pub depth: u32,
    pub span: Span,
}

fn encloses(offset: u32, tree: ThinTree) -> bool
    ensures { result ≡ spec.encloses offset tree }
{
    tree.span.start <= offset && offset <= tree.span.end
}

fn is_better(tree: ThinTree, best: ThinTree) -> bool
    ensures { result ≡ spec.is_better tree best }
{
    if tree.span.start != best.span.start {
        return tree.span.start > best.span.start;
    }
    if tree.span.end != best.span.end {
        return tree.span.end < best.span.end;
    }
    tree.depth > best.depth
}

fn better(offset: u32, best: ThinTree, tree: ThinTree) -> ThinTree
    ensures { result ≡ spec.better offset best tree }
{
    if encloses(offset, tree) && is_better(tree, best) {
        tree
    } else {
        best
    }
}

fn best_of_vals(offset: u32, best: ThinTree, vals: &[ThinVal]) -> ThinTree
    ensures { result ≡ spec.best_of offset best (spec.val_trees 0 vals.now) }
{
    let mut best = best;
    for (n, val) in vals.iter().enumerate() {
        let whole = Span {
            start: val.start,
            end: val.right.end,
        };
        best = better(
            offset,
            best,
            ThinTree {
                which: Which::Val(n),
                depth: 2,
                span: whole,
            },
        );
        best = better(
            offset,
            best,
            ThinTree {
                which: Which::Right(n),
                depth: 3,
                span: val.right,
            },
        );
    }
    best
}

/// The tree at an offset, of a unit with this many bytes.
pub fn located(len: u32, offset: u32, unit: &ThinUnit) -> ThinTree
    ensures { result ≡ spec.located len offset unit.now }
{
    let whole = Span { start: 0, end: len };
    let best = ThinTree {
        which: Which::Unit,
        depth: 0,
        span: whole,
    };
    match unit {
        ThinUnit::Object(object) => {
            let object_tree = ThinTree {
                which: Which::Object,
                depth: 1,
                span: whole,
            };
            let best = better(offset, best, object_tree);
            best_of_vals(offset, best, object.vals.as_slice())
        }
        ThinUnit::Empty | ThinUnit::Other => best,
    }
}
