use session_input::Refusal;

/// How a run ended, with what a user is told of it.
#[derive(Debug, Drop)]
pub enum Ending {
    /// All input was read to its end, the run is whole, and all output was written.
    Done,
    /// The words are no command of this call.
    Usage,
    /// A script, a source or a limit is refused, and no session began.
    Refused(Refusal),
    /// The output could not be written; a part of it may stand there.
    WriteFault,
    /// No threads could be started for clients. The session was shut down before any call.
    SpawnFault,
    /// No memory was found. A part of the output may stand there.
    NoMemory,
}
