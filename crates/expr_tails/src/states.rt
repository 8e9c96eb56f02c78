//! What a reader of expressions keeps of the items so far.

use parse_parts::built::{Kids, Tall};
use parse_parts::stack::Stack;
use parse_parts::states::State as TypeState;
use parse_patterns::states::{Operand, Operation, State as PatternState};
use pc_terms::{Row, Span};
use positioned_trees::Name;
use tree_lower::Generator;

/// What can be added to a Prim beyond arguments, types and a name.
#[derive(Clone, Copy, Debug, PartialEq, Eq)]
pub enum Form {
    Plain,
    /// It ends in `. id`, so that it can be assigned.
    Select,
    /// It ends in a Hole: an identifier would be its name.
    Hole,
}

/// `x`, `_`, `x: T` or `_: T` in parentheses: a parameter where `=>` follows them, else an expression.
#[derive(Debug, Drop)]
pub struct LambdaParam {
    pub name: Name,
    /// Not so for `_`.
    pub binds: bool,
    pub span: Span,
    /// Its type.
    pub ty: Option<Option<Tall>>,
}

#[derive(Debug, Drop)]
pub enum Element {
    Param(LambdaParam),
    /// An expression, and the placeholder that it is, if it is one alone.
    Plain(Option<Tall>, Row<Span>),
}

/// Parentheses, where a Prim stands.
#[derive(Debug, Drop)]
pub struct Group {
    pub span: Span,
    pub elements: Row<Element>,
    /// Whether all of them are parameters where `=>` follows.
    pub may_be_head: bool,
}

#[derive(Debug, Drop)]
pub struct Call {
    pub span: Span,
    pub receiver: Option<Tall>,
    pub args: Option<Kids>,
}

/// `new T`, without arguments so far.
#[derive(Debug, Drop)]
pub struct NewOf {
    pub span: Span,
    pub kids: Option<Kids>,
}

/// What stands before `: T`.
#[derive(Debug, Drop)]
pub enum TypedOf {
    Name(Name),
    Wild(Span),
    Infix(Operand),
}

/// What waits for a `(`, and where it starts.
#[derive(Clone, Copy, Debug, PartialEq, Eq)]
pub enum Asker {
    If,
    While,
    For,
}

/// A tree that is not whole, with its kids so far and its start.
#[derive(Debug, Drop)]
pub struct Begun {
    pub start: u32,
    pub kids: Option<Kids>,
}

/// What was read since the last head, operator, comma or opening bracket.
#[derive(Debug, Drop)]
pub enum Tail {
    Begin,
    /// `-`, `+`, `!` or `~`, before it is known whether an operand follows.
    AtSign(Name),
    /// A name; whether it is one of these alone.
    AtName(Name, bool),
    AtWild(Span),
    AtGroup(Group),
    AtPrim(Operand, Form),
    AtCall(Call),
    /// A Prim and the `.` after it.
    AtDot(Operand, Span),
    AtSuper(Span),
    AtSuperDot(Span),
    /// `new` and a type, which ends at the place so far.
    InNew(u32, u32, TypeState),
    AtNew(NewOf),
    /// A Prim with the types before this one.
    InTypes(Begun, TypeState),
    /// `: T`
    InTyped(TypedOf, TypeState),
    AtMatch(Operand),
    AtReturn(Span),
    AtAsker(Asker, u32),
    /// `do e while`
    AtUntil(Begun),
    /// `try e catch`
    AtCatch(Begun),
    /// `try e catch {..}`, which ends here.
    AtCaught(Begun, u32),
    /// An expression to which nothing but the next part of a head around it can be added.
    AtEnded(Operand),
    /// The innermost expression, ended, and after it one `;`, or more.
    AtSemi(Operand, bool),
    /// The pattern of a generator.
    InPattern(PatternState),
}

/// What the heads from here on can take.
#[derive(Clone, Copy, Debug, PartialEq, Eq)]
pub struct Reach {
    pub takes_else: bool,
    pub takes_catch: bool,
    pub takes_finally: bool,
    /// A `do` waits for its `while`.
    pub waits: bool,
}

#[derive(Debug, Drop)]
pub enum HeadKind {
    /// With the parameters.
    Lambda(Option<Kids>),
    /// With the test.
    IfThen(Option<Kids>),
    /// With the test and what stands before `else`.
    IfElse(Option<Kids>),
    WhileDo(Option<Kids>),
    Do,
    Try,
    /// With what stands before `finally`.
    Finally(Option<Kids>),
    For(Row<Generator>, bool),
    Throw,
    Return,
    /// With the left side.
    Assign(Option<Kids>),
    Update(Option<Tall>, Option<Kids>),
}

/// A head that an expression is to follow, with the placeholders in it.
#[derive(Debug, Drop)]
pub struct Head {
    pub start: u32,
    pub kind: HeadKind,
    pub free: Row<Span>,
    pub reach: Reach,
}

/// Which expressions can stand here.
#[derive(Clone, Copy, Debug, PartialEq, Eq)]
pub enum Limit {
    Expr,
    /// The guard of a generator: an Infix.
    Guard,
    /// The guard of a case: an Infix, and an arrow outside brackets is the case's.
    CaseGuard,
    /// A parameter of a lambda.
    Param,
}

/// What was read since the innermost open bracket, or since the comma or separator in it.
#[derive(Debug, Drop)]
pub struct Context {
    pub heads: Stack<Head>,
    /// The placeholders of the innermost expression, left to right.
    pub free: Row<Span>,
    pub operations: Stack<Operation>,
    pub sign: Option<Name>,
    pub tail: Tail,
    pub limit: Limit,
}

/// The generator that is read.
#[derive(Debug, Drop)]
pub struct Part {
    pub pattern: Option<Tall>,
    pub from: Option<Tall>,
    pub guards: Row<Option<Tall>>,
}

#[derive(Debug, Drop)]
pub enum Bracket {
    /// Parentheses where a Prim stands, with the elements before this one; whether they can be a head.
    Group(Row<Element>, bool),
    /// The arguments of a receiver before this one, and whether there are any.
    Args(Option<Tall>, Option<Kids>, bool),
    /// The arguments of a `new`: its type and the arguments before this one, and whether there are any.
    NewArgs(Option<Kids>, bool),
    IfTest,
    WhileTest,
    DoTest(Option<Kids>),
    /// `for (`, with the generators before this one.
    Generators(Row<Generator>, Part),
}

/// An open bracket: where what it is part of starts, and what stands before that.
#[derive(Debug, Drop)]
pub struct Frame {
    pub bracket: Bracket,
    pub start: u32,
    pub outer: Context,
}

#[derive(Debug, Drop)]
pub struct State {
    pub frames: Stack<Frame>,
    pub context: Context,
}
