use positioned_trees::Tree;

/// What stands at a token.
#[derive(Debug, Drop)]
pub enum Part {
    /// The tree of the longest part that begins there, and the number of the token after it.
    Read(Tree, u32),
    /// No part begins there; this is the number of the first token that no part admits.
    NotHere(u32),
    /// The longest part is higher than 400; this is the number of the token after it.
    TooHigh(u32),
}
