use crate::{Row, Text};

/// What a symbol is. A parameter of a lambda, a pattern variable and a definition of a block are `Local`.
#[derive(Clone, Copy, Debug, PartialEq, Eq, Hash)]
pub enum SymKind {
    Package,
    Class,
    Trait,
    Object,
    Val,
    Var,
    Lazy,
    Def,
    Alias,
    TypeParam,
    Param,
    Local,
}

/// One owner of a path, or the symbol at its end.
#[derive(Debug, Drop, PartialEq, Eq, Hash)]
pub struct SymStep {
    pub kind: SymKind,
    pub name: Text,
    /// Of a `Def`, the number of earlier definitions of its name in the same owner; of a `Local`, the
    /// byte at which its tree starts; otherwise 0.
    pub ordinal: u32,
}

/// A symbol: its owners from the outermost, and then itself.
#[derive(Debug, Drop, PartialEq, Eq, Hash)]
pub struct SymPath {
    pub steps: Row<SymStep>,
}
