use crate::Text;

/// A part of a source: the byte at which it starts, and the one at which it has ended.
#[derive(Clone, Copy, Debug, PartialEq, Eq)]
pub struct Span {
    pub start: u32,
    pub end: u32,
}

/// The kinds of problem, in the order in which problems of one span are listed: those of the scanner, of
/// the parser, of names, of types and of templates.
#[derive(Clone, Copy, Debug, PartialEq, Eq, PartialOrd, Ord)]
pub enum Code {
    /// illegal character
    S1,
    /// unclosed literal
    S2,
    /// unclosed comment
    S3,
    /// bad number or escape
    S4,
    /// interpolated string
    S5,
    /// not a statement of the profile
    P1,
    /// name expected
    P2,
    /// unbalanced bracket
    P3,
    /// tree too high
    P4,
    /// literal out of range
    P5,
    /// definition not allowed here
    P6,
    /// not found
    N1,
    /// ambiguous name
    N2,
    /// cyclic definition
    N3,
    /// no member
    N4,
    /// not accessible
    N5,
    /// double definition
    N6,
    /// found one type, wanted another
    T1,
    /// wrong number of arguments
    T2,
    /// no alternative applies
    T3,
    /// ambiguous alternatives
    T4,
    /// missing parameter type
    T5,
    /// not a function
    T6,
    /// missing arguments
    T7,
    /// wrong number of type arguments
    T8,
    /// type argument out of bounds
    T9,
    /// not assignable
    T10,
    /// not a type
    T11,
    /// return not allowed here
    T12,
    /// variable in alternative
    T13,
    /// not a case class
    T14,
    /// abstract
    T15,
    /// not a class
    C1,
    /// not a trait
    C2,
    /// final parent
    C3,
    /// sealed parent
    C4,
    /// inheritance cycle
    C5,
    /// not implemented
    C6,
    /// override missing
    C7,
    /// overrides nothing
    C8,
    /// overriding type
    C9,
    /// overrides final
    C10,
    /// same parameters
    C11,
}

/// Something that is wrong in a source, where it is wrong, and what a user is told.
#[derive(Debug, Drop)]
pub struct Problem {
    pub code: Code,
    pub span: Span,
    pub text: Text,
}
