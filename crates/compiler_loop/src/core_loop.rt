ghost use Rattle.std.specs.Prelude.{◌≡◌, IfOk};
ghost use Rattle.std.specs.Option.{ForSome};
ghost use Rattle.compiler_loop.specs.CoreParts.{IsReady};

use crate::loaded::LoadedFiles;
use crate::staging::stage;
use crate::tasks::{Staged, Task};
use crate::working::{answer_top, check_first, close_all, open_task, put_in_force};
use ask_history::{Call, Effect, Engine, Fed, Turn};
use pc_terms::NoMemory;
use safe_points::Stack;
use std::alloc::Global;

/// The engine of the program: it keeps the loaded files with what they were read as, the tasks of the open asks, and a
/// staged mutation.
#[derive(Drop)]
pub struct Core {
    pub(crate) alloc: Global,
    pub(crate) loaded: LoadedFiles,
    pub(crate) tasks: Stack<Task>,
    pub(crate) staged: Option<Staged>,
    ghost ready: { ForSome staged (IsReady loaded) },
}

impl Core {
    ghost use Rattle.ask_history.specs.Engine.{fresh_state, is_staged};
    ghost use Rattle.compiler_loop.specs.CoreParts.{staged_of};
    ghost use Rattle.compiler_loop.specs.CoreState.{state_of};

    /// A core that holds no source.
    pub fn new(alloc: Global) -> Result<Core, NoMemory>
        ensures ok { IfOk result (λ core. state_of core ≡ fresh_state) }
    {
        Ok(Core {
            alloc,
            loaded: LoadedFiles::new(alloc),
            tasks: Stack::new(alloc)?,
            staged: None,
        })
    }

    fn has_staged(&self, ticket: u64) -> bool
        ensures { result ≡ is_staged (staged_of self.now.staged) ticket }
    {
        match &self.staged {
            Some(staged) => staged.ticket == ticket,
            None => false,
        }
    }
}

impl Engine for Core {
    ghost use Rattle.compiler_loop.specs.CoreState.{state_of};
    ghost use Rattle.compiler_loop.specs.ThinAnswer.{thin_answer};
    ghost use Rattle.compiler_loop.specs.ThinFits.{thin_fits};
    ghost use Rattle.compiler_loop.specs.ThinListed.{thin_listed};
    ghost use Rattle.compiler_loop.specs.ThinProblems.{thin_problems};

    ghost state = { state_of };

    ghost left = { λ core. 0 };

    ghost answer_of = { thin_answer };

    ghost problems_of = { thin_problems };

    ghost fits = { thin_fits };

    ghost listed = { thin_listed };

    fn feed(&mut self, ticket: u64, call: &Call) -> Fed {
        match call {
            Call::Reload(_) | Call::Remove(_) => {
                match stage(self.alloc, &mut self.loaded, ticket, call) {
                    Ok(staged) => {
                        self.staged = Some(staged);
                        Fed::Staged
                    }
                    Err(NoMemory {}) => Fed::NoMemory,
                }
            }
            _ => match open_task(&mut self.tasks, ticket, call) {
                Ok(()) => Fed::Taken,
                Err(NoMemory {}) => Fed::NoMemory,
            },
        }
    }

    fn turn(&mut self, _steps: u64) -> Turn {
        match self.tasks.top() {
            Some(ticket) => answer_top(self.alloc, &mut self.loaded, &mut self.tasks, ticket),
            None => check_first(self.alloc, &mut self.loaded),
        }
    }

    fn settled(&mut self, ticket: u64, effect: Effect) {
        if !self.has_staged(ticket) {
            let _task = self.tasks.remove(ticket);
            return;
        }
        if let Some(staged) = self.staged.take() {
            match effect {
                Effect::Applies => put_in_force(&mut self.loaded, &mut self.tasks, staged),
                Effect::Dropped => {}
            }
        }
    }

    fn stop(&mut self) {
        close_all(&mut self.tasks);
    }
}
