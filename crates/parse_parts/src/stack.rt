ghost use Rattle.parse_parts.specs.Steps.{first};
ghost use Rattle.std.specs.Option.{option_copied};
ghost use Rattle.std.specs.Prelude.{◌≡◌, [], ◌∷◌, drop, length, MatchOption, OnOk, OnErr, IsTrue, ◌↔◌};

use pc_terms::{NoMemory, Row};
use std::alloc::Global;
use std::marker::Model;

/// A stack that contracts see as the list of its elements, the top one first.
#[derive(Debug, Drop)]
pub struct Stack<T> {
    items: Vec<T>,
}

impl<T> Model for Stack<T> {
    ghost use Rattle.std.specs.Prelude.{List, reverse};
    ghost use Rattle.std.specs.Coded.{coded_list};

    ghost Value = { List T };

    ghost coded = { coded_list T.code };

    ghost view = { λ stack. reverse stack.items.items };
}

impl<T> Stack<T> {
    pub fn new(alloc: Global) -> Stack<T>
        ensures { result ≡ [] }
    {
        Stack {
            items: Vec::new(alloc),
        }
    }

    /// The elements, the first on top. It takes no memory.
    pub fn from_row(row: Row<T>) -> Stack<T>
        ensures { result ≡ row }
    {
        let mut items = row.into_vec();
        items.reverse();
        Stack { items }
    }

    pub fn is_empty(&self) -> bool
        ensures { IsTrue result ↔ (self.now ≡ []) }
    {
        self.items.is_empty()
    }

    pub fn len(&self) -> usize
        ensures { result ≡ length self.now }
    {
        self.items.len()
    }

    pub fn top(&self) -> Option<&T>
        ensures { option_copied result ≡ first self.now }
    {
        self.items.as_slice().last()
    }

    /// The element at this depth, the top one at 0.
    pub fn peek(&self, depth: usize) -> Option<&T>
        ensures { option_copied result ≡ first (drop depth self.now) }
    {
        let items = self.items.as_slice();
        if depth < items.len() {
            Some(&items[items.len() - 1 - depth])
        } else {
            None
        }
    }

    pub fn pop(&mut self) -> Option<T>
        ensures { MatchOption result ((self.old ≡ []) × (self.new ≡ [])) (λ top. self.old ≡ top ∷ self.new) }
    {
        self.items.pop()
    }
}

impl<T: Drop> Stack<T> {
    pub fn push(&mut self, item: T) -> Result<(), NoMemory>
        ensures ok { OnOk result (self.new ≡ item ∷ self.old) }
        ensures err { OnErr result (self.new ≡ self.old) }
    {
        self.items.push(item)?;
        Ok(())
    }
}
