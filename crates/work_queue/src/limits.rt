use ask_history::Answer;

/// How much a session takes on. Text is counted in bytes.
#[derive(Clone, Copy, Debug, PartialEq, Eq)]
pub struct Limits {
    /// Accepted calls.
    pub calls: u64,
    /// The texts of all accepted reloads together.
    pub text: u64,
    /// Names of files that were ever reloaded.
    pub names: u64,
    /// The longest text of each of these names, together.
    pub map: u64,
    /// The text of one file.
    pub file: u64,
}

/// Why a call is not accepted. Where several hold, the first of this order is told, but that `Closed` goes before all.
#[derive(Clone, Copy, Debug, PartialEq, Eq)]
pub enum PostRefused {
    /// A text has this many bytes, more than a file may have.
    TooLarge(u64),
    /// This many calls are accepted, and no more may be.
    CallsFull(u64),
    /// With this call, the reloads would have this many bytes of text.
    TextFull(u64),
    /// The session was shut down, at this journal index.
    Closed(u64),
    /// Out of memory.
    NoMemory,
    /// With this call, this many names would have been reloaded.
    NamesFull(u64),
    /// With this call, the longest texts of all names would have this many bytes.
    MapFull(u64),
}

/// What a cancel comes to.
#[derive(Clone, Copy, Debug, PartialEq, Eq)]
pub enum CancelSeen {
    /// The call's cancel stands at this journal index.
    Marked(u64),
    /// The call's answer stands at this journal index already.
    Late(u64),
}

/// What was found for a call.
#[derive(Debug, Drop)]
pub enum Settling {
    Value(Answer),
    /// Memory ran out for it.
    NoMemory,
}
