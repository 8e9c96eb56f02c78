use pc_terms::{Row, Text};

/// What a client asks of a session. `Reload` and `Remove` are the mutations, which change the sources; the
/// others are asks. A file's name is not empty and does not begin with `<`; an offset counts bytes.
#[derive(Debug, Drop)]
pub enum Call {
    /// Names and their new texts. A loaded file keeps its position in load order; a new one goes last.
    Reload(Row<(Text, Text)>),
    /// Names of files, of which those that are loaded are taken out.
    Remove(Row<Text>),
    /// The tree at an offset, with its type and symbol.
    TypeAt(Text, u32),
    /// The members of what stands at an offset.
    MembersAt(Text, u32),
    /// The names that are seen at an offset.
    ScopeAt(Text, u32),
    /// The definition of what stands at an offset.
    LinkAt(Text, u32),
    /// The definitions of a file.
    Structure(Text),
    /// A whole file typed, with its problems.
    LoadedTyped(Text),
}
