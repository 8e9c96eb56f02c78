//! Trees as far as they are kept: not where they are higher than the limit.

ghost use Rattle.std.specs.Prelude.{◌≡◌, IfOk};
ghost use Rattle.pc_terms.specs.declared.problems.Span.{Span};
ghost use Rattle.parse_parts.specs.Built as spec;

use pc_terms::{NoMemory, Row, Span, Text, TreeKind};
use positioned_trees::{Detail, Tree};
use std::alloc::Global;

/// The greatest height of a tree that is kept.
pub const MAX_HEIGHT: u32 = 400;

/// A tree and its height.
#[derive(Debug, Drop)]
pub struct Tall {
    pub tree: Tree,
    pub height: u32,
}

/// Trees that stand beside each other, and the height of the highest.
#[derive(Debug, Drop)]
pub struct Kids {
    pub trees: Row<Tree>,
    pub height: u32,
}

pub fn no_kids(alloc: Global) -> Option<Kids>
    ensures { result ≡ spec.no_kids }
{
    Some(Kids {
        trees: Row::new(alloc),
        height: 0,
    })
}

/// The trees with one more after them.
pub fn joined(kids: Option<Kids>, tall: Option<Tall>) -> Result<Option<Kids>, NoMemory>
    ensures { IfOk result (λ joined. joined ≡ spec.joined kids tall) }
{
    match (kids, tall) {
        (Some(kids), Some(tall)) => {
            let mut trees = kids.trees;
            trees.push(tall.tree)?;
            Ok(Some(Kids {
                trees,
                height: if kids.height < tall.height {
                    tall.height
                } else {
                    kids.height
                },
            }))
        }
        _ => Ok(None),
    }
}

/// The tree over some kids, if it is not too high.
pub fn node(
    kind: TreeKind,
    label: Text,
    label_span: Span,
    span: Span,
    kids: Option<Kids>,
) -> Option<Tall>
    ensures { result ≡ spec.node kind label label_span span kids }
{
    match kids {
        Some(kids) if kids.height < MAX_HEIGHT => Some(Tall {
            height: kids.height + 1,
            tree: Tree {
                id: 0,
                span,
                opaque: true,
                kind,
                label,
                label_span,
                kids: kids.trees,
                detail: Detail::Plain,
            },
        }),
        _ => None,
    }
}

/// The last of some trees.
pub fn only(kids: Option<Kids>) -> Option<Tall>
    ensures { result ≡ spec.only kids }
{
    let Some(kids) = kids else { return None };
    let mut trees = kids.trees;
    let tree = trees.pop()?;
    Some(Tall {
        tree,
        height: kids.height,
    })
}
