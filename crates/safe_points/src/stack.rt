ghost use Rattle.std.specs.Prelude.{◌≡◌, ◌≢◌, [], ◌∷◌, ◌++◌, false, OnOk, OnErr, IfOk};
ghost use Rattle.std.specs.Option.{option_map};
ghost use Rattle.std.specs.Borrow.{sem};

use crate::Ticketed;
use crate::ticketed::index_of;
use pc_terms::NoMemory;
use std::alloc::Global;
use std::marker::Model;

/// The tasks of the open asks, the one that is worked on above those that wait for it. Contracts see them
/// as a list from bottom to top, in which no two tasks have one ticket.
#[derive(Drop)]
pub struct Stack<T> {
    tasks: Vec<Ticketed<T>>,
}

impl<T> Model for Stack<T> {
    ghost use Rattle.std.specs.Prelude.{List};
    ghost use Rattle.safe_points.specs.declared.ticketed.Ticketed.{Ticketed};

    ghost Value = { List (Ticketed T) };

    ghost use Rattle.safe_points.specs.Stack.{AreDistinct, tickets};

    ghost view = { λ stack. stack.tasks.items };

    ghost invariant = { λ stack. AreDistinct (tickets stack.tasks.items) };
}

impl<T> Stack<T> {
    ghost use Rattle.safe_points.specs.Stack.{AreDistinct, tickets, ticket_of, top_of, task_of, has_stale, removed, all_stale, refreshed};
    ghost use Rattle.safe_points.specs.Lending.{LendsTopTask};

    /// An empty stack.
    pub fn new(alloc: Global) -> Result<Stack<T>, NoMemory>
        ensures { IfOk result (λ stack. stack ≡ []) }
    {
        Ok(Stack {
            tasks: Vec::new(alloc),
        })
    }

    /// The ticket of the task on top.
    pub fn top(&self) -> Option<u64>
        ensures ticket { result ≡ option_map ticket_of (top_of self.now) }
        ensures distinct { AreDistinct (tickets self.now) }
    {
        self.tasks.last().map(|ticketed| ticketed.ticket)
    }

    /// The task on top, to be worked on.
    pub fn top_task(&mut self) -> &mut T
        requires { self.old ≢ [] }
        ensures* writes_back { sem 𝓛 (LendsTopTask T.row self.entry result) }
        ensures value { option_map (λ ticketed. ticketed.task) (top_of self.old) ≡ Some result.now }
    {
        let last = self.tasks.len() - 1;
        &mut self.tasks[last].task
    }

    /// Takes a task off the stack, wherever it stands. The others stay in their order.
    pub fn remove(&mut self, ticket: u64) -> Option<T>
        ensures task { result ≡ task_of self.old ticket }
        ensures rest { self.new ≡ removed self.old ticket }
    {
        let index = index_of(self.tasks.as_slice(), ticket)?;
        let Ticketed {
            task,
            ticket: _,
            stale: _,
        } = self.tasks.remove(index);
        Some(task)
    }

    /// Marks every task: each has to start again.
    pub fn stale_all(&mut self)
        ensures { self.new ≡ all_stale self.old }
    {
        for ticketed in self.tasks.iter_mut() {
            ticketed.stale = true;
        }
    }

    /// Whether this task is on the stack and has to start again.
    pub fn is_stale(&self, ticket: u64) -> bool
        ensures { result ≡ has_stale self.now ticket }
    {
        match index_of(self.tasks.as_slice(), ticket) {
            Some(index) => self.tasks[index].stale,
            None => false,
        }
    }

    /// Clears the mark of the task on top, which has started again.
    pub fn refresh_top(&mut self)
        requires { self.old ≢ [] }
        ensures { self.new ≡ refreshed self.old }
    {
        let last = self.tasks.len() - 1;
        self.tasks[last].stale = false;
    }
}

impl<T: Drop> Stack<T> {
    ghost use Rattle.safe_points.specs.Stack.{is_on};

    /// Puts a task on top. Where memory runs out the task is dropped, and the stack stays.
    pub fn push(&mut self, ticket: u64, task: T) -> Result<(), NoMemory>
        requires { is_on self.old ticket ≡ false }
        ensures ok { OnOk result (self.new ≡ self.old ++ record { ticket = ticket; task = task; stale = false } ∷ []) }
        ensures err { OnErr result (self.new ≡ self.old) }
    {
        self.tasks.push(Ticketed {
            ticket,
            task,
            stale: false,
        })?;
        Ok(())
    }
}
