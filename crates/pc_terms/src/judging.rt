use crate::{Problem, Row, Span, SymPath, Text, TreeKind, Ty};

/// What typing has found of one tree. Type and symbol are missing where the tree is not typed.
#[derive(Debug, Drop)]
pub struct Attr {
    pub typed: bool,
    pub ty: Option<Ty>,
    pub sym: Option<SymPath>,
}

/// What typing has found of a unit: an attribute for each tree, in the order of their ids, and problems.
#[derive(Debug, Drop)]
pub struct UnitTypes {
    pub attrs: Row<Attr>,
    pub problems: Row<Problem>,
}

/// What a name, a call or an assignment was found to mean.
#[derive(Debug, Drop)]
pub struct Bound {
    pub sym: Option<SymPath>,
    pub ty: Ty,
}

/// Where an expression stands: as the function of a call, as an argument, or elsewhere.
#[derive(Clone, Copy, Debug, PartialEq, Eq)]
pub enum Spot {
    Plain,
    Argument,
    Function,
}

/// A node that is to be judged.
#[derive(Debug, Drop)]
pub struct Head {
    pub kind: TreeKind,
    pub span: Span,
    pub label: Text,
    pub label_span: Span,
    pub bound: Option<Bound>,
    pub spot: Spot,
}

/// A kid of such a node, which has been typed.
#[derive(Debug, Drop)]
pub struct Kid {
    pub kind: TreeKind,
    pub ty: Ty,
    pub sym: Option<SymPath>,
    pub span: Span,
}

/// What a rule of typing says of a node.
#[derive(Debug, Drop)]
pub struct Judged {
    pub ty: Ty,
    pub problems: Row<Problem>,
}
