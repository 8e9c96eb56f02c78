//! Later copies of a pattern.

ghost use Rattle.std.specs.Prelude.{◌≡◌, IfOk};
ghost use Rattle.source_grammar.specs.Comprehensions as grammar;

use pc_terms::{NoMemory, Row};
use positioned_trees::{Detail, Tree};
use std::alloc::Global;

/// A copy of a pattern in which nothing is opaque.
pub fn hidden(alloc: Global, tree: &Tree) -> Result<Tree, NoMemory>
    ensures { IfOk result (λ copy. copy ≡ grammar.hidden tree.now) }
{
    let mut kids = Row::new(alloc);
    for kid in tree.kids.as_slice() {
        kids.push(hidden(alloc, kid)?)?;
    }
    Ok(Tree {
        id: tree.id,
        span: tree.span,
        opaque: false,
        kind: tree.kind,
        label: tree.label.clone()?,
        label_span: tree.label_span,
        kids,
        detail: Detail::Plain,
    })
}
