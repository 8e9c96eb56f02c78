ghost use Rattle.std.specs.Prelude.{◌≡◌};
ghost use Rattle.session_input.specs.Limits as spec;

/// What is counted against a limit.
#[derive(Clone, Copy, Debug, PartialEq, Eq)]
pub enum Limit {
    /// Scripts of clients.
    Clients,
    /// Bytes of a source.
    FileBytes,
    /// Bytes of a script.
    ScriptBytes,
    /// Call lines.
    Calls,
    /// Bytes of the texts of all reload lines.
    Text,
    /// Names that are reloaded.
    Names,
    /// Bytes of the longest text of each of these names.
    Map,
}

pub fn most_of(limit: Limit) -> u64
    ensures { result ≡ spec.most_of limit }
{
    match limit {
        Limit::Clients => 32,
        Limit::FileBytes => 262_144,
        Limit::ScriptBytes => 4_194_304,
        Limit::Calls => 65_536,
        Limit::Text => 268_435_456,
        Limit::Names => 1_024,
        Limit::Map => 16_777_216,
    }
}
