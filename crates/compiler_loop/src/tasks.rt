ghost use Rattle.std.specs.Prelude.{◌≡◌};
ghost use Rattle.std.specs.List.{list_any};
ghost use Rattle.std.specs.Str.{bytes_eq};
ghost use Rattle.pc_terms.specs.Bytes.{Bytes};

use crate::source::Source;
use ask_history::Call;
use indexmap::IndexSet;
use pc_terms::{Row, Text};
use std::collections::VecDeque;

/// The work on an open ask. It is done in one turn, so that nothing of it is kept between turns.
#[derive(Drop)]
pub struct Task {
    pub call: Call,
}

/// A file of a reload, ready to be put in force.
#[derive(Drop)]
pub struct NewFile {
    pub name: Text,
    /// The name once more, which is handed out with the check of the file.
    pub due: Text,
    pub source: Source,
    ghost same: { due ≡ name },
}

/// The files that a mutation takes out.
#[derive(Drop)]
pub struct Removal {
    pub names: Row<Text>,
    /// The same names, to be looked up.
    pub gone: IndexSet<Text>,
    ghost same: { (name : Bytes) → list_any (bytes_eq name) gone.keys ≡ list_any (bytes_eq name) names },
}

/// What a mutation does.
#[derive(Drop)]
pub enum Change {
    Reload(VecDeque<NewFile>),
    Remove(Removal),
}

/// A mutation that is not yet in force.
#[derive(Drop)]
pub struct Staged {
    pub ticket: u64,
    pub change: Change,
    /// The names of the files that were checked or skipped, which will be due again.
    pub again: VecDeque<Text>,
}
