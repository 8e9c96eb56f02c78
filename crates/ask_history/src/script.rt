use crate::Call;
use pc_terms::Row;

/// What a line of a script asks for. A call line is numbered from 1 among the call lines of its script, and the number
/// is the tag of its call.
#[derive(Debug, Drop)]
pub enum Order {
    Call(Call),
    /// The call line of this number is no longer wanted.
    Cancel(u32),
    /// The session is shut down.
    Close,
    /// Of a client's script alone: the answer of the call line of this number is waited for.
    Wait(u32),
    /// Of a schedule alone: files are checked until none is due.
    Idle,
}

/// A line of a script. One of level 0 stands by itself; every other one is an inner line, and stands under the nearest
/// line above it with one level less.
#[derive(Debug, Drop)]
pub struct Line {
    pub level: u32,
    /// Under an `Idle` the check in which it is played, counted from 0; 0 elsewhere.
    pub check: u32,
    /// How many turns of the ask or the check around it come first; 0 for a line of level 0.
    pub turn: u32,
    pub order: Order,
}

/// The lines of a script, in order.
#[derive(Debug, Drop)]
pub struct Script {
    pub lines: Row<Line>,
}

/// A script of one client that says what is played inside which call, on one thread.
#[derive(Debug, Drop)]
pub struct Schedule {
    pub script: Script,
}
