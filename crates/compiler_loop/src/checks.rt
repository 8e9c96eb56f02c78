ghost use Rattle.std.specs.Prelude.{◌≡◌, ℕ, ◌+◌, ◌≤◌, [], ◌∷◌, ◌++◌, length, not, filter, if◌then◌else◌, OnOk, vec_capacity};
ghost use Rattle.std.specs.VecDeque.{deque_capacity};
ghost use Rattle.std.specs.List.{list_any};
ghost use Rattle.std.specs.Str.{bytes_eq};

use indexmap::IndexSet;
use pc_terms::{NoMemory, Text};
use std::alloc::Global;
use std::collections::VecDeque;

/// What the check of a file came to.
#[derive(Clone, Copy)]
pub enum Outcome {
    Checked,
    /// Memory ran out for it.
    Skipped,
}

/// How far the checks of the loaded files have come since a mutation last took effect.
#[derive(Drop)]
pub struct Checks {
    /// The names of the files that are due, in load order. Each is handed out with what its check came to.
    due: VecDeque<Text>,
    /// What the checks of the files before these came to.
    outcomes: Vec<Outcome>,
    ghost room: { length due.items + length outcomes.items ≤ vec_capacity outcomes },
}

impl Checks {
    ghost use Rattle.compiler_loop.specs.Loaded.{TakesDue};
    ghost use Rattle.compiler_loop.specs.ChecksView.{due_in, outcomes_in, HasRoomIn};

    pub fn new(alloc: Global) -> Checks
        ensures due { due_in result ≡ [] }
        ensures outcomes { outcomes_in result ≡ [] }
    {
        Checks {
            due: VecDeque::new(alloc),
            outcomes: Vec::new(alloc),
        }
    }

    /// The number of files that are no longer due.
    pub fn past(&self) -> usize
        ensures { result ≡ length (outcomes_in self.now) }
    {
        self.outcomes.len()
    }

    /// Makes room for so many files more, and for those that are past to be due again.
    pub fn reserve(&mut self, more: usize) -> Result<(), NoMemory>
        ensures due { due_in self.new ≡ due_in self.old }
        ensures outcomes { outcomes_in self.new ≡ outcomes_in self.old }
        ensures room { OnOk result (HasRoomIn self.new more) }
    {
        let past = self.outcomes.len().checked_add(more).ok_or(NoMemory {})?;
        self.due.reserve(past)?;
        let due = self.due.len().checked_add(more).ok_or(NoMemory {})?;
        self.outcomes.reserve(due)?;
        Ok(())
    }

    /// Takes the first file that is due, with what its check came to. It takes no memory.
    pub fn take(&mut self, outcome: Outcome) -> Option<Text>
        ensures { TakesDue result outcome (due_in self.old) (due_in self.new) (outcomes_in self.old) (outcomes_in self.new) }
    {
        let name = self.due.pop_front()?;
        self.outcomes.push_reserved(outcome);
        Some(name)
    }

    /// Makes the files that are past, of which these are the names, due again. It takes no memory.
    pub fn restart(&mut self, again: VecDeque<Text>)
        requires names { length again.items ≡ length (outcomes_in self.old) }
        requires room { HasRoomIn self.old 0 }
        ensures due { due_in self.new ≡ again.items ++ due_in self.old }
        ensures outcomes { outcomes_in self.new ≡ [] }
        ensures room { (more : ℕ) → HasRoomIn self.old more → HasRoomIn self.new more }
    {
        self.outcomes.clear();
        put_before(&mut self.due, again);
    }

    /// Makes a file due, after all others, where it is new. It takes no memory.
    pub fn add(&mut self, name: Text, is_new: bool)
        requires { HasRoomIn self.old 1 }
        ensures due { due_in self.new ≡ (if is_new then due_in self.old ++ name ∷ [] else due_in self.old) }
        ensures outcomes { outcomes_in self.new ≡ outcomes_in self.old }
        ensures room { (more : ℕ) → HasRoomIn self.old (more + 1) → HasRoomIn self.new more }
    {
        if is_new {
            self.due.push_back_reserved(name);
        }
    }

    /// Leaves out the files of these names.
    pub fn remove(&mut self, gone: &IndexSet<Text>)
        ensures due { due_in self.new ≡ filter (λ name. not (list_any (bytes_eq name) gone.now.keys)) (due_in self.old) }
        ensures outcomes { outcomes_in self.new ≡ outcomes_in self.old }
    {
        self.due.retain(|name| !gone.contains(name));
    }
}

fn put_before(due: &mut VecDeque<Text>, again: VecDeque<Text>)
    requires { length again.items + length due.old.items ≤ deque_capacity due.old }
    ensures items { due.new.items ≡ again.items ++ due.old.items }
    ensures capacity { deque_capacity due.new ≡ deque_capacity due.old }
{
    let mut again = again;
    while let Some(name) = again.pop_back() {
        due.push_front_reserved(name);
    }
}
