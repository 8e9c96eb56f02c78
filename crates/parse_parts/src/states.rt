//! What a reader of types keeps of the tokens so far.

use crate::built::{Kids, Tall};
use crate::stack::Stack;
use pc_terms::Span;
use positioned_trees::Name;

/// How many types stand beside each other, as far as the grammar asks.
#[derive(Clone, Copy, Debug, PartialEq, Eq)]
pub enum Count {
    Zero,
    One,
    Two,
    Three,
    More,
}

/// A path: where it starts, its last name, and the path before that, where there is one.
#[derive(Debug, Drop)]
pub struct Path {
    pub start: u32,
    pub name: Name,
    pub qualified: bool,
    pub prefix: Option<Kids>,
}

/// A type with arguments, or a singleton type.
#[derive(Debug, Drop)]
pub struct Ended {
    pub span: Span,
    pub tall: Option<Tall>,
}

/// Types in parentheses.
#[derive(Debug, Drop)]
pub struct Group {
    pub span: Span,
    pub count: Count,
    pub kids: Option<Kids>,
}

/// What was read since the last arrow, comma or opening bracket.
#[derive(Debug, Drop)]
pub enum Tail {
    Begin,
    AtPath(Path),
    AtDot(Path),
    AtEnded(Ended),
    AtGroup(Group),
}

/// What stands before an arrow: where it starts, and the types of the parameters.
#[derive(Debug, Drop)]
pub struct Head {
    pub start: u32,
    pub kids: Option<Kids>,
}

#[derive(Debug, Drop)]
pub enum Bracket {
    /// `(`, and where it starts.
    Round(u32),
    /// `[` after a path, which starts there and has this last name.
    Square(u32, Name),
}

/// An open bracket, what stands in it before its last comma, and the heads before it.
#[derive(Debug, Drop)]
pub struct Frame {
    pub bracket: Bracket,
    pub count: Count,
    pub kids: Option<Kids>,
    pub heads: Stack<Head>,
}

#[derive(Debug, Drop)]
pub struct State {
    pub frames: Stack<Frame>,
    pub heads: Stack<Head>,
    pub tail: Tail,
}
