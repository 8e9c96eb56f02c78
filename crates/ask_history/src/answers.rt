use pc_terms::{Problem, Row, Span, SymKind, SymPath, Text, TreeKind, Ty};

/// A tree of a source with what typing has found of it.
#[derive(Debug, Drop)]
pub struct TreeInfo {
    pub kind: TreeKind,
    pub span: Span,
    pub ty: Option<Ty>,
    pub sym: Option<SymPath>,
}

/// A member, with its type as seen from where it was asked for.
#[derive(Debug, Drop)]
pub struct MemberInfo {
    pub name: Text,
    pub kind: SymKind,
    pub ty: Ty,
    pub owner: SymPath,
}

/// A name that is seen at an offset, and what it is bound to.
#[derive(Debug, Drop)]
pub struct ScopeInfo {
    pub name: Text,
    pub sym: SymPath,
}

/// A definition of a file. The depth counts the classes, traits and objects around it.
#[derive(Debug, Drop)]
pub struct OutlineInfo {
    pub depth: u32,
    pub kind: TreeKind,
    pub name: Text,
    pub span: Span,
}

/// The one answer of a call.
#[derive(Debug, Drop)]
pub enum Answer {
    /// A mutation took effect.
    Done,
    Tree(TreeInfo),
    Members(Row<MemberInfo>),
    Scope(Row<ScopeInfo>),
    /// The file of a definition, the span of its name, and the symbol.
    Link(Text, Span, SymPath),
    Outline(Row<OutlineInfo>),
    /// The definitions of a file with their types, and the file's problems.
    Loaded(Row<TreeInfo>, Row<Problem>),
    /// The file is not loaded.
    NoUnit,
    /// The offset is past the end of the text.
    NoTree,
    /// What stands there has no members.
    NoMembers,
    /// What stands there has no definition.
    NoLink,
    /// The file is loaded, and this engine cannot yet read the sources that it lies among.
    Unread,
    /// A cancel of the call stands before its settling.
    Cancelled,
    /// The shutdown stands before its settling.
    Closed,
    /// Out of memory.
    NoMemory,
}
