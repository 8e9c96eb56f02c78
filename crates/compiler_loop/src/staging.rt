ghost use Rattle.std.specs.Prelude.{◌≡◌, [], length, true, IfOk};
ghost use Rattle.compiler_loop.specs.LoadedView.{files_of, names_of, outcomes_of, HasRoom};
ghost use Rattle.ask_history.specs.Engine.{HasFileSizes};
ghost use Rattle.ask_history.specs.Sources.{is_mutation, mutated, reloaded};
ghost use Rattle.compiler_loop.specs.CoreParts.{call_of, pairs_of, new_files_of, IsReady};

use crate::copying::{new_files, removal};
use crate::loaded::LoadedFiles;
use crate::tasks::{Change, NewFile, Staged};
use ask_history::Call;
use pc_terms::NoMemory;
use std::alloc::Global;
use std::collections::VecDeque;

/// Makes a mutation ready, and the room to put it in force.
pub fn stage(
    alloc: Global,
    loaded: &mut LoadedFiles,
    ticket: u64,
    call: &Call,
) -> Result<Staged, NoMemory>
    requires mutation { is_mutation call.now ≡ true }
    requires sizes { HasFileSizes call.now }
    ensures ticket { IfOk result (λ staged. staged.ticket ≡ ticket) }
    ensures call { IfOk result (λ staged. call_of staged.change ≡ call.now) }
    ensures ready { IfOk result (IsReady loaded.new) }
    ensures files { files_of loaded.new ≡ files_of loaded.old }
    ensures names { names_of loaded.new ≡ names_of loaded.old }
    ensures outcomes { outcomes_of loaded.new ≡ outcomes_of loaded.old }
{
    let change = change(alloc, call)?;
    let again = loaded.past_names()?;
    loaded.reserve(new_files_in(&change))?;
    Ok(Staged {
        ticket,
        change,
        again,
    })
}

fn change(alloc: Global, call: &Call) -> Result<Change, NoMemory>
    requires mutation { is_mutation call.now ≡ true }
    requires sizes { HasFileSizes call.now }
    ensures { IfOk result (λ change. call_of change ≡ call.now) }
{
    match call {
        Call::Reload(pairs) => Ok(Change::Reload(new_files(alloc, pairs.as_slice())?)),
        Call::Remove(names) => Ok(Change::Remove(removal(alloc, names.as_slice())?)),
        _ => unreachable!(),
    }
}

fn new_files_in(change: &Change) -> usize
    ensures { result ≡ new_files_of change.now }
{
    match change {
        Change::Reload(files) => files.len(),
        Change::Remove(_) => 0,
    }
}

/// Puts a mutation in force: all files are due for a check. It takes no memory.
pub fn apply(loaded: &mut LoadedFiles, staged: Staged)
    requires { IsReady loaded.old staged }
    ensures files { files_of loaded.new ≡ mutated (files_of loaded.old) (call_of staged.change) }
    ensures outcomes { outcomes_of loaded.new ≡ [] }
{
    let Staged {
        ticket: _,
        change,
        again,
    } = staged;
    loaded.restart_checks(again);
    match change {
        Change::Reload(files) => put_all(loaded, files),
        Change::Remove(removal) => loaded.remove(&removal),
    }
}

fn put_all(loaded: &mut LoadedFiles, files: VecDeque<NewFile>)
    requires due { outcomes_of loaded.old ≡ [] }
    requires room { HasRoom loaded.old (length files.items) }
    ensures files { files_of loaded.new ≡ reloaded (files_of loaded.old) (pairs_of files.items) }
    ensures outcomes { outcomes_of loaded.new ≡ [] }
{
    let mut files = files;
    while let Some(file) = files.pop_front() {
        loaded.put(file);
    }
}
