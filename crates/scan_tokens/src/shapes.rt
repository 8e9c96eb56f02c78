/// What a piece of a text is, by how it is written.
#[derive(Clone, Copy, Debug)]
pub enum Shape {
    Space,
    Comment,
    /// A comment that goes on to the end of the text.
    OpenComment,
    /// An identifier or reserved word that begins with a letter.
    Plain,
    Operator,
    Backquoted,
    Number,
    Character,
    /// A single quote that begins no literal.
    Apostrophe,
    LineString,
    /// A string between three quotes.
    RawString,
    OpenString,
    /// An identifier and a string that follows at once.
    Interpolated,
    Delimiter,
    Illegal,
}
