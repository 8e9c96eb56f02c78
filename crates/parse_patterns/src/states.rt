//! What a reader of patterns keeps of the tokens so far.

use parse_parts::built::{Kids, Tall};
use parse_parts::stack::Stack;
use parse_parts::states::{Count, Path, State as TypeState};
use pc_terms::Span;
use positioned_trees::Name;

/// An operand, with its tree where this is not too high. The span has the parentheses around it too.
#[derive(Debug, Drop)]
pub struct Operand {
    pub tall: Option<Tall>,
    pub span: Span,
}

/// An operator with what stands before it, until it is known what stands after it. The higher level binds closer.
#[derive(Debug, Drop)]
pub struct Operation {
    pub left: Operand,
    pub name: Name,
    pub level: u32,
    pub right: bool,
}

/// What a name alone may be besides a path.
#[derive(Clone, Copy, Debug, PartialEq, Eq)]
pub enum Lead {
    Var,
    /// The minus of a number.
    Minus,
    Plain,
}

/// What was read since the last operator, stroke, comma or opening bracket.
#[derive(Debug, Drop)]
pub enum Tail {
    Begin,
    AtWild(Span),
    AtPath(Path, Lead),
    AtDot(Path),
    AtEnded(Operand),
}

/// Operands and operators, after `x @` or not.
#[derive(Debug, Drop)]
pub struct Infix {
    pub binder: Option<Name>,
    pub operations: Stack<Operation>,
    pub tail: Tail,
}

/// The alternative that is read.
#[derive(Debug, Drop)]
pub enum Current {
    /// `x:` or `_:`, and what the reader of types keeps of the type after it.
    InType(Name, TypeState),
    InInfix(Infix),
}

#[derive(Debug, Drop)]
pub enum Bracket {
    /// `(`, and where it starts.
    Group(u32),
    /// `(` after a path, which starts there and has this last name.
    Call(u32, Name),
}

/// The alternatives before the last stroke, and where the first of them starts.
#[derive(Debug, Drop)]
pub struct Earlier {
    pub start: u32,
    pub kids: Option<Kids>,
}

/// An open bracket, what stands in it before its last comma, and what stands before it.
#[derive(Debug, Drop)]
pub struct Frame {
    pub bracket: Bracket,
    pub count: Count,
    pub kids: Option<Kids>,
    pub earlier: Option<Earlier>,
    pub binder: Option<Name>,
    pub operations: Stack<Operation>,
}

#[derive(Debug, Drop)]
pub struct State {
    pub frames: Stack<Frame>,
    pub earlier: Option<Earlier>,
    pub current: Current,
}
