use base_types::Flags;
use pc_terms::{Span, SymPath};

/// A definition, and where it stands. What no source writes has the tree and the label of the class that brings it: the
/// companion of a case class where none is written, and the method `apply` that a case class adds to its companion. A
/// package has the clause by which it is opened first, and its name there.
#[derive(Debug, Drop)]
pub struct Decl {
    pub path: SymPath,
    /// The position of its source in load order.
    pub file: u32,
    /// The id of its tree in that source.
    pub node: u32,
    pub label_span: Span,
    pub flags: Flags,
}
