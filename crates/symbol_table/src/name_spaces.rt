//! Name spaces.

/// What is named apart (SLS 2): terms, types, and packages, which take no part in what is told of second definitions.
#[derive(Clone, Copy, Debug, PartialEq, Eq, Hash)]
pub enum NameSpace {
    Packages,
    Terms,
    Types,
}
