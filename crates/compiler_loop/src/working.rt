ghost use Rattle.std.specs.Prelude.{◌≡◌, ◌∷◌, ◌++◌, [], false, Some, OnOk, OnErr};
ghost use Rattle.std.specs.List.{IsDistinct};
ghost use Rattle.std.specs.Option.{option_map};
ghost use Rattle.std.specs.Str.{bytes_eq};
ghost use Rattle.ask_history.specs.Sources.{is_mutation, mutated};
ghost use Rattle.safe_points.specs.Stack.{all_stale, is_on, ticket_of, top_of};
ghost use Rattle.compiler_loop.specs.CoreParts.{asks_of, call_of, IsReady};
ghost use Rattle.compiler_loop.specs.LoadedView.{files_of, names_of, outcomes_of, IsUnchanged};
ghost use Rattle.compiler_loop.specs.Turns.{AnswersTop, ChecksFirst};

use crate::answering::answer;
use crate::checks::Outcome;
use crate::copying::copied_ask;
use crate::loaded::LoadedFiles;
use crate::problems::problems;
use crate::staging::apply;
use crate::tasks::{Staged, Task};
use ask_history::{Call, Turn};
use pc_terms::NoMemory;
use safe_points::Stack;
use std::alloc::Global;

/// Puts the task of an ask on top.
#[tactic(auto, using(crate::proofs::TaskLemmas::asks_of_push))]
pub fn open_task(tasks: &mut Stack<Task>, ticket: u64, call: &Call) -> Result<(), NoMemory>
    requires ask { is_mutation call.now ≡ false }
    requires new_ticket { is_on tasks.old ticket ≡ false }
    ensures ok { OnOk result (asks_of tasks.new ≡ asks_of tasks.old ++ (ticket, call.now) ∷ []) }
    ensures err { OnErr result (asks_of tasks.new ≡ asks_of tasks.old) }
{
    let call = copied_ask(call)?;
    tasks.push(ticket, Task { call })
}

/// Works on the task on top, of this ticket, which starts again where it is stale.
pub fn answer_top(
    alloc: Global,
    loaded: &mut LoadedFiles,
    tasks: &mut Stack<Task>,
    ticket: u64,
) -> Turn
    requires { option_map ticket_of (top_of tasks.old) ≡ Some ticket }
    ensures gives { AnswersTop (files_of loaded.old) (asks_of tasks.old) result }
    ensures asks { asks_of tasks.new ≡ asks_of tasks.old }
    ensures files { IsUnchanged loaded.old loaded.new }
{
    restart_top(tasks, ticket);
    let task = tasks.top_task();
    match answer(alloc, loaded, &task.call) {
        Ok(found) => Turn::Ready(ticket, found),
        Err(NoMemory {}) => Turn::NoMemory(ticket),
    }
}

// Nothing of a task outlives a turn, so that it starts again by losing its mark.
#[tactic(auto, using(crate::proofs::TaskLemmas::some_top, crate::proofs::TaskLemmas::asks_of_refreshed, crate::proofs::TaskLemmas::top_of_refreshed, crate::proofs::TaskLemmas::fresh_refreshed, crate::proofs::TaskLemmas::fresh_unmarked))]
fn restart_top(tasks: &mut Stack<Task>, ticket: u64)
    requires { option_map ticket_of (top_of tasks.old) ≡ Some ticket }
    ensures asks { asks_of tasks.new ≡ asks_of tasks.old }
    ensures top { option_map ticket_of (top_of tasks.new) ≡ Some ticket }
    ensures fresh { option_map (λ task. task.stale) (top_of tasks.new) ≡ Some false }
{
    if tasks.is_stale(ticket) {
        tasks.refresh_top();
    }
}

/// Checks the first file that is due.
pub fn check_first(alloc: Global, loaded: &mut LoadedFiles) -> Turn
    ensures gives { ChecksFirst loaded.old result loaded.new }
    ensures distinct { IsDistinct bytes_eq (names_of loaded.old) }
    ensures files { files_of loaded.new ≡ files_of loaded.old }
{
    if loaded.is_all_checked() {
        return Turn::Idle;
    }
    match problems(alloc, loaded) {
        Ok(problems) => match loaded.take_due(Outcome::Checked) {
            Some(file) => Turn::Checked(file, problems),
            None => Turn::Idle,
        },
        Err(NoMemory {}) => match loaded.take_due(Outcome::Skipped) {
            Some(file) => Turn::CheckNoMemory(file),
            None => Turn::Idle,
        },
    }
}

/// Puts a mutation in force, after which every task has to start again. It takes no memory.
pub fn put_in_force(loaded: &mut LoadedFiles, tasks: &mut Stack<Task>, staged: Staged)
    requires { IsReady loaded.old staged }
    ensures files { files_of loaded.new ≡ mutated (files_of loaded.old) (call_of staged.change) }
    ensures outcomes { outcomes_of loaded.new ≡ [] }
    ensures stale { tasks.new ≡ all_stale tasks.old }
{
    apply(loaded, staged);
    tasks.stale_all();
}

/// Takes off all tasks. It takes no memory.
#[tactic(auto, using(crate::proofs::TaskLemmas::no_top, crate::proofs::TaskLemmas::fewer_removed))]
pub fn close_all(tasks: &mut Stack<Task>)
    ensures { asks_of tasks.new ≡ [] }
{
    while let Some(ticket) = tasks.top() {
        let _task = tasks.remove(ticket);
    }
}
