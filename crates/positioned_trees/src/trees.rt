use crate::Detail;
use pc_terms::{Problem, Row, Span, Text, TreeKind};

/// A tree of the grammar, where it stands in the source.
#[cycle(tree)]
#[derive(Debug, Drop)]
pub struct Tree {
    /// The number of trees of its unit before it, in pre-order.
    pub id: u32,
    pub span: Span,
    /// Whether an offset can mean this tree: not so where a rewriting has added the tree, or has copied it from
    /// a pattern.
    pub opaque: bool,
    pub kind: TreeKind,
    /// The name that it defines or uses, or the text of a literal; empty where the kind has none.
    pub label: Text,
    pub label_span: Span,
    pub kids: Row<Tree>,
    /// What kind, label and kids do not say.
    pub detail: Detail,
}

/// A source as trees.
#[derive(Debug, Drop)]
pub struct SourceUnit {
    pub root: Tree,
    /// What is wrong with its tokens and its grammar.
    pub problems: Row<Problem>,
    /// The number of bytes of the source.
    pub length: u32,
}
