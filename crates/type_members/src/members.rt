//! Members, and where they are named.

use pc_terms::{SymPath, Ty};

/// What is named apart (SLS 2). Packages are named with the terms.
#[derive(Clone, Copy, Debug, PartialEq, Eq)]
pub enum Space {
    Terms,
    Types,
}

/// A member of a type, as it is seen from that type.
#[derive(Debug, Drop)]
pub struct Member {
    pub path: SymPath,
    pub ty: Ty,
    /// The class, trait, object or package that defines it.
    pub owner: SymPath,
}
