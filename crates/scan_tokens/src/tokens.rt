use pc_terms::{Problem, Row, Span, Text};

/// Whether a newline counts before a token, so that it separates statements there (SLS 1.2).
#[derive(Clone, Copy, Debug, PartialEq, Eq)]
pub enum Newline {
    No,
    /// A newline counts, and no line of white space alone lies between the tokens.
    One,
    /// A newline counts, and a line of white space alone lies between the tokens.
    Blank,
}

#[derive(Clone, Copy, Debug, PartialEq, Eq)]
pub enum TokenKind {
    /// A plain identifier that is not reserved, made of letters or of operator characters.
    Id,
    /// An identifier between backquotes, which are part of its span.
    BackId,
    /// A reserved word.
    Word,
    /// A reserved sign.
    Sign,
    Delimiter,
    Int,
    Long,
    Char,
    Str,
    /// Something that is no token of the language; a problem says what.
    Error,
}

#[derive(Clone, Copy, Debug, PartialEq, Eq)]
pub struct Token {
    pub kind: TokenKind,
    pub span: Span,
    pub before: Newline,
}

/// A text, its tokens in order, and what is wrong in it, in the order of their offsets. White space and comments are no tokens.
#[derive(Debug, Drop)]
pub struct Tokens {
    pub text: Text,
    pub tokens: Row<Token>,
    pub problems: Row<Problem>,
}
