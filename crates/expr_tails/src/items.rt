//! What stands in a pair of braces.

use parse_parts::built::{Kids, Tall};
use pc_terms::{Row, Span};
use positioned_trees::Selector;
use scan_tokens::Newline;
use tree_lower::Generator;

/// A tree, and the placeholders in it that no expression around them has bound yet.
#[derive(Debug, Drop)]
pub struct Built {
    pub tall: Option<Tall>,
    pub free: Row<Span>,
}

/// Trees beside each other, and the placeholders in them that are free.
#[derive(Debug, Drop)]
pub struct BuiltKids {
    pub kids: Option<Kids>,
    pub free: Row<Span>,
}

#[derive(Debug, Drop)]
pub struct Generators {
    pub generators: Row<Generator>,
    pub free: Row<Span>,
}

/// What is read between two braces.
#[derive(Debug, Drop)]
pub enum Inside {
    /// A block, or the lambda that it is.
    Block(Built),
    Cases(BuiltKids),
    Generators(Generators),
    /// Nothing that an expression can have.
    Nothing,
}

/// A pair of braces, from the opening to the closing one.
#[derive(Debug, Drop)]
pub struct Braces {
    pub span: Span,
    pub before: Newline,
    pub inside: Inside,
    /// The selectors of an import, where the contents can be these.
    pub selectors: Option<Row<Selector>>,
}
