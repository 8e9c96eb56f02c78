use ask_history::{Answer, Script};
use pc_terms::Row;

/// What became of the clients of a session.
#[derive(Drop)]
pub(crate) enum Fate {
    /// All played their scripts to the end. Each has the answers of its accepted calls, in the order of its script.
    Played {
        scripts: Row<Script>,
        answers: Row<Row<Answer>>,
    },
    /// Memory ran out for a client, and the session was shut down.
    CutShort,
    /// No thread could be started for the clients, and the session was shut down before any call.
    Unbegun,
    /// Memory ran out before the session began.
    Unopened,
}
