use pc_terms::{Row, Span, Text};

/// A name, and the token that it stands as, which for a name in backquotes has these too.
#[derive(Debug, Drop)]
pub struct Name {
    pub text: Text,
    pub span: Span,
}

/// From where a definition may be named (SLS 5.2).
#[derive(Clone, Copy, Debug, PartialEq, Eq)]
pub enum Access {
    /// Without a modifier of access, or with one that has another qualifier than `this`.
    Public,
    Private,
    Protected,
}

/// The modifiers that stand before a definition and that it admits. That of `lazy` is the kind of tree.
#[derive(Clone, Copy, Debug, PartialEq, Eq)]
pub struct Modifiers {
    pub abstract_: bool,
    pub final_: bool,
    pub sealed_: bool,
    pub case_: bool,
    pub override_: bool,
    pub access: Access,
}

/// How the instances of a class for different arguments relate (SLS 4.5).
#[derive(Clone, Copy, Debug, PartialEq, Eq)]
pub enum Variance {
    Invariant,
    /// `+`
    Covariant,
    /// `-`
    Contravariant,
}

/// The keyword before a parameter of a class.
#[derive(Clone, Copy, Debug, PartialEq, Eq)]
pub enum ParamKeyword {
    Missing,
    Val,
    Var,
}

/// What stands after the head of a `def`.
#[derive(Clone, Copy, Debug, PartialEq, Eq)]
pub enum RightSide {
    /// Nothing: it is a declaration.
    Missing,
    /// `= e`
    Value,
    /// A block without `=`, whose result is Unit.
    Procedure,
}

/// What an import clause brings in (SLS 4.7).
#[derive(Debug, Drop)]
pub enum Selector {
    /// `x`
    Named(Name),
    /// `x => y`: the name of the member, and the name that it is shown by.
    Renamed(Name, Name),
    /// `x => _`
    Hidden(Name),
    /// `_`
    Wildcard(Span),
}

/// One of the expressions of an import, which stand one after another with commas between them.
#[derive(Debug, Drop)]
pub struct ImportClause {
    pub span: Span,
    /// The path before the last dot, which has at least one name.
    pub qualifier: Row<Name>,
    pub selectors: Row<Selector>,
}

/// The parts of a class, trait or object. Its kids are its type parameters, its parameters, its first parent,
/// the arguments of that, its other parents, and the statements of its body.
#[derive(Clone, Copy, Debug, PartialEq, Eq)]
pub struct TemplateParts {
    pub modifiers: Modifiers,
    pub type_params: u32,
    pub params: u32,
    pub parents: u32,
    /// The number of arguments of the first parent; `None` where no list of arguments is written.
    pub args: Option<u32>,
}

/// The parts of a `val`, `var` or `lazy val`. Its kids are its type and its right side, as far as they are
/// written.
#[derive(Clone, Copy, Debug, PartialEq, Eq)]
pub struct ValueParts {
    pub modifiers: Modifiers,
    pub has_type: bool,
    /// Not so for a declaration.
    pub has_right_side: bool,
}

/// The parts of a `def`. Its kids are its type parameters, the parameters of all its lists, its result type
/// and its right side, as far as they are written. The right side of a procedure is one kid, a Block.
#[derive(Debug, Drop)]
pub struct MethodParts {
    pub modifiers: Modifiers,
    pub type_params: u32,
    /// The number of parameters of each list.
    pub param_lists: Row<u32>,
    pub has_type: bool,
    pub right_side: RightSide,
}

/// What is said of a parameter. Its kids are its type, where one is written.
#[derive(Clone, Copy, Debug, PartialEq, Eq)]
pub struct ParamParts {
    pub modifiers: Modifiers,
    pub keyword: ParamKeyword,
    /// Whether it binds its label: not so where it is written as `_` or made of a placeholder.
    pub binds: bool,
    /// `T*`
    pub repeated: bool,
}

/// What is said of a type parameter. Its kids are its bounds, the lower one first, as far as they are written.
#[derive(Clone, Copy, Debug, PartialEq, Eq)]
pub struct TypeParamParts {
    pub variance: Variance,
    /// `>: T`
    pub has_lower: bool,
    /// `<: T`
    pub has_upper: bool,
}

/// What a tree says beyond its kind, its label and its kids.
#[derive(Debug, Drop)]
pub enum Detail {
    /// Nothing: of each kind that is not named below.
    Plain,
    /// Of a Package: the names of its path.
    Package(Row<Name>),
    /// Of an Import: its clauses.
    Import(Row<ImportClause>),
    /// Of a ClassDef, TraitDef or ObjectDef.
    Template(TemplateParts),
    /// Of a ValDef, VarDef or LazyDef.
    Value(ValueParts),
    /// Of a DefDef.
    Method(MethodParts),
    /// Of an AliasDef.
    Alias(Modifiers),
    /// Of a Param.
    Param(ParamParts),
    /// Of a TypeParam.
    TypeParam(TypeParamParts),
    /// Of an Ident that is made of a placeholder: it is bound to the Param of its Function that has its span.
    Placeholder,
    /// Of a Case: whether it has a guard. Its kids are its pattern, its guard, and its statements.
    Case { has_guard: bool },
}
