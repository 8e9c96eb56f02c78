use crate::{Row, SymPath, Text};
use sqlite_items::Boxed;

/// A parameter of a method. A repeated one is written `T*`.
#[cycle(ty)]
#[derive(Debug, Drop)]
pub struct Formal {
    pub name: Text,
    pub ty: Ty,
    pub repeated: bool,
}

/// A type (Scala Language Specification 2.12, chapter 3).
#[cycle(ty)]
#[derive(Debug, Drop)]
pub enum Ty {
    /// A class or trait, with its type arguments.
    Class(SymPath, Row<Ty>),
    /// A type parameter.
    Param(SymPath),
    /// The singleton type of an object.
    Module(SymPath),
    Package(SymPath),
    /// A method with one list of parameters, and what it gives.
    Method(Row<Formal>, Boxed<Ty>),
    /// What is polymorphic in these type parameters.
    Poly(Row<SymPath>, Boxed<Ty>),
    /// The type of what has no other; it conforms both ways, so that one problem does not make others.
    Error,
}

/// A declared type parameter.
#[derive(Debug, Drop)]
pub struct TParam {
    pub path: SymPath,
    /// 1 for `+`, -1 for `-`, and 0.
    pub variance: i8,
    pub lower: Ty,
    pub upper: Ty,
}

/// What a definition declares: its type parameters, and its type.
#[derive(Debug, Drop)]
pub struct Sig {
    pub tparams: Row<TParam>,
    pub ty: Ty,
}
