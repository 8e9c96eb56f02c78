//! What a reader of definitions keeps of the items so far.

use expr_tails::items::Built;
use expr_tails::states::State as ExprState;
use parse_parts::built::{Kids, Tall};
use parse_parts::stack::Stack;
use parse_parts::states::State as TypeState;
use pc_terms::Row;
use positioned_trees::{Access, Modifiers, Name, Variance};
use sqlite_items::Boxed;

/// The modifiers so far.
#[derive(Clone, Copy, Debug, PartialEq, Eq)]
pub struct Found {
    pub modifiers: Modifiers,
    pub is_lazy: bool,
    /// A modifier of access was read; the first counts.
    pub has_access: bool,
    /// A modifier was read, so that no annotation can follow.
    pub any: bool,
}

/// Which newline may stand before what comes next.
#[derive(Clone, Copy, Debug, PartialEq, Eq)]
pub enum Gap {
    Any,
    Joined,
    Near,
}

/// An open bracket of the arguments of an annotation.
#[derive(Clone, Copy, Debug, PartialEq, Eq)]
pub enum Bracket {
    Round,
    Square,
}

/// A name that is defined, with where its definition starts and the kids of it so far.
#[derive(Debug, Drop)]
pub struct Named {
    pub start: u32,
    pub name: Name,
    pub kids: Option<Kids>,
    pub has_type: bool,
}

/// A `val` or `var`.
#[derive(Debug, Drop)]
pub struct Value {
    pub is_var: bool,
    pub named: Named,
}

/// A `def`, with the number of its type parameters and of the parameters of each list.
#[derive(Debug, Drop)]
pub struct Method {
    pub named: Named,
    pub type_params: u32,
    pub param_lists: Row<u32>,
    /// Type parameters can still follow.
    pub is_fresh: bool,
}

/// A type parameter, with its bounds so far.
#[derive(Debug, Drop)]
pub struct TypeParam {
    pub start: u32,
    pub end: u32,
    pub variance: Variance,
    pub name: Name,
    pub kids: Option<Kids>,
    pub has_lower: bool,
    pub has_upper: bool,
}

#[derive(Debug, Drop)]
pub enum TypeParamTail {
    Begin,
    /// `+` or `-`: its variance, or its name.
    AtSign(Name, Variance),
    AtName(TypeParam),
    /// In the type of the bound that the parameter was given last.
    InBound(TypeParam, TypeState),
}

#[derive(Debug, Drop)]
pub enum ParamTail {
    /// Whether the list can end here.
    Begin(bool),
    AtName(Name),
    InType(Name, TypeState),
    /// After the `*` of a repeated parameter, which is the last.
    AtStar(Name, Option<Tall>, u32),
}

#[derive(Debug, Drop)]
pub enum Tail {
    /// Before the next modifier, or the word of the definition.
    AtMods(Gap),
    AtAt,
    AtAnnotation,
    AtAnnotationDot,
    InArguments(Stack<Bracket>),
    AtAccess(Access),
    AtAccessOpen(Access),
    AtAccessName(Access),
    AtValue(bool, u32),
    AtValueName(Value),
    InValueType(Value, TypeState),
    InValue(Value, Boxed<ExprState>),
    AtDef(u32),
    AtMethod(Method),
    InTypeParams(Method, TypeParamTail),
    InParams(Method, u32, ParamTail),
    InResult(Method, TypeState),
    InMethod(Method, Boxed<ExprState>),
    AtType(u32),
    AtTypeName(u32, Name),
    InAlias(u32, Name, TypeState),
    /// A `def` with a block without `=`.
    AtProcedure(Built),
}

#[derive(Debug, Drop)]
pub struct State {
    pub found: Found,
    pub tail: Tail,
}
