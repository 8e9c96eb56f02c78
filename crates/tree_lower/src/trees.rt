//! Trees as far as they are kept.

ghost use Rattle.std.specs.Prelude.{◌≡◌, IfOk};
ghost use Rattle.source_grammar.specs.Spans as spans;
ghost use Rattle.tree_lower.specs.Lowering as spec;

use parse_parts::built::{Kids, Tall, joined, no_kids, node};
use parse_parts::steps::{alone, no_label};
use pc_terms::{NoMemory, Span, Text, TreeKind};
use positioned_trees::Detail;
use std::alloc::Global;

/// The tree of a kind that has no label.
pub fn unlabelled(alloc: Global, kind: TreeKind, span: Span, kids: Option<Kids>) -> Option<Tall>
    ensures { result ≡ spec.unlabelled kind span kids }
{
    node(kind, no_label(alloc), span, span, kids)
}

/// A tree without kids, whose label is all of it.
pub fn leaf(alloc: Global, kind: TreeKind, label: Text, span: Span) -> Option<Tall>
    ensures { result ≡ spec.leaf kind label span }
{
    node(kind, label, span, span, no_kids(alloc))
}

/// Two trees beside each other.
pub fn pair(alloc: Global, a: Option<Tall>, b: Option<Tall>) -> Result<Option<Kids>, NoMemory>
    ensures { IfOk result (λ kids. kids ≡ spec.pair a b) }
{
    joined(alone(alloc, a)?, b)
}

/// A tree that a rewriting adds: no place in the text is its own.
pub fn added(tall: Option<Tall>) -> Option<Tall>
    ensures { result ≡ spec.added tall }
{
    let mut tall = tall?;
    tall.tree.opaque = false;
    Some(tall)
}

/// The tree with this detail.
pub fn detailed(tall: Option<Tall>, detail: Detail) -> Option<Tall>
    ensures { result ≡ spec.detailed detail tall }
{
    let mut tall = tall?;
    tall.tree.detail = detail;
    Some(tall)
}

fn higher(a: u32, b: u32) -> u32
    ensures { result ≡ spec.higher a b }
{
    if a < b { b } else { a }
}

/// The trees, and those after them.
pub fn appended(kids: Option<Kids>, behind: Option<Kids>) -> Result<Option<Kids>, NoMemory>
    ensures { IfOk result (λ all. all ≡ spec.appended kids behind) }
{
    match (kids, behind) {
        (Some(kids), Some(behind)) => {
            let height = higher(kids.height, behind.height);
            let mut trees = kids.trees;
            for tree in behind.trees.into_vec() {
                trees.push(tree)?;
            }
            Ok(Some(Kids { trees, height }))
        }
        _ => Ok(None),
    }
}

/// The smallest span that encloses both.
pub fn enclosing(a: Span, b: Span) -> Span
    ensures { result ≡ spans.enclosing a b }
{
    Span {
        start: a.start.min(b.start),
        end: a.end.max(b.end),
    }
}

/// The span of the tree, where there is one.
pub fn span_in(tall: &Option<Tall>) -> Span
    ensures { result ≡ spec.span_in tall.now }
{
    match tall {
        Some(tall) => tall.tree.span,
        None => Span { start: 0, end: 0 },
    }
}
