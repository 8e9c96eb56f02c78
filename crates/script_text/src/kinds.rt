/// Whose script it is.
#[derive(Clone, Copy, Debug, PartialEq, Eq)]
pub enum ScriptKind {
    /// Played on one thread: it has inner lines and `idle`, and no `wait`.
    Schedule,
    /// Of one of several clients: it has `wait`, and neither inner lines nor `idle`.
    Client,
}

/// What an inner line stands under.
#[derive(Clone, Copy, Debug, PartialEq, Eq)]
pub enum Holder {
    Ask,
    Idle,
}

/// The numbers of an inner line: the check of an `idle` in which it is played, and the turns that come first.
#[derive(Clone, Copy, Debug, PartialEq, Eq)]
pub struct Numbers {
    pub check: u32,
    pub turn: u32,
}
