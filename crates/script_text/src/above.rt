//! What the lines above a line say of it.

ghost use Rattle.std.specs.Prelude.{◌≡◌, ◌+◌, ◌++◌, ◌∷◌, ◌<◌, ◌≤◌, ◌^◌, [], true, length, take, nat_eq, OnOk, IfOk};
ghost use Rattle.std.specs.List.{list_any};
ghost use Rattle.ask_history.specs.Sources.{is_mutation};
ghost use Rattle.script_text.specs.Above.{IsAbove, IsNewCancel, calls_in, cancels_in};
ghost use Rattle.script_text.specs.declared.kinds.ScriptKind.TheVariants as kind;
ghost use Rattle.script_text.specs.Standing as spec;
ghost use Rattle.script_text.specs.Reading as reading;

use crate::kinds::{Holder, Numbers, ScriptKind};
use crate::numbers::{does_not_fall, numbers_of};
use crate::orders::order_from;
use crate::pieces::{cut, unindented};
use ask_history::{Call, Line, Order};
use indexmap::IndexSet;
use pc_terms::{NoMemory, Row};
use std::alloc::Global;

/// The last line of a level.
#[derive(Clone, Copy, Debug, PartialEq, Eq)]
pub struct Open {
    pub holder: Option<Holder>,
    pub numbers: Numbers,
}

/// The lines that were read, with what a further line is judged by: the last line of each level that is open, the number
/// of call lines, and the numbers of those that are cancelled.
#[derive(Drop)]
pub struct Above {
    pub lines: Row<Line>,
    pub levels: Vec<Open>,
    pub calls: u64,
    pub cancelled: IndexSet<u32>,
}

fn is_mutation(call: &Call) -> bool
    ensures { result ≡ is_mutation call.now }
{
    match call {
        Call::Reload(_) | Call::Remove(_) => true,
        Call::TypeAt(_, _)
        | Call::MembersAt(_, _)
        | Call::ScopeAt(_, _)
        | Call::LinkAt(_, _)
        | Call::Structure(_)
        | Call::LoadedTyped(_) => false,
    }
}

fn holder_of(order: &Order) -> Option<Holder>
    ensures { result ≡ spec.holder_of order.now }
{
    match order {
        Order::Call(call) => {
            if is_mutation(call) {
                None
            } else {
                Some(Holder::Ask)
            }
        }
        Order::Idle => Some(Holder::Idle),
        Order::Cancel(_) | Order::Close | Order::Wait(_) => None,
    }
}

// Ends the levels from this one on, and begins it with a line.
fn put_open(levels: &mut Vec<Open>, level: usize, line: Open) -> Result<(), NoMemory>
    requires { level ≤ length levels.old.items }
    ensures { OnOk result (levels.new.items ≡ take level levels.old.items ++ line ∷ []) }
{
    levels.truncate(level);
    levels.push(line)?;
    Ok(())
}

impl Above {
    pub fn new(alloc: Global) -> Above
        ensures lines { result.lines ≡ [] }
        ensures above { IsAbove result }
    {
        Above {
            lines: Row::new(alloc),
            levels: Vec::new(alloc),
            calls: 0,
            cancelled: IndexSet::new(alloc),
        }
    }

    // What a line of this level stands under.
    #[tactic(auto, using(crate::proofs::AboveLemmas::open_rules))]
    fn holder_at(&self, level: usize) -> Option<Holder>
        requires above { IsAbove self.now }
        requires inner { 0 < level }
        ensures { result ≡ spec.holder_at self.now.lines level }
    {
        self.levels.get(level - 1)?.holder
    }

    #[tactic(auto, using(crate::proofs::AboveLemmas::open_rules))]
    fn sibling_at(&self, level: usize) -> Option<Numbers>
        requires above { IsAbove self.now }
        ensures { result ≡ spec.sibling_at self.now.lines level }
    {
        Some(self.levels.get(level)?.numbers)
    }

    fn is_call_above(&self, k: u32) -> bool
        requires above { IsAbove self.now }
        ensures { result ≡ spec.is_call_above self.now.lines k }
    {
        0 < k && u64::from(k) <= self.calls
    }

    fn is_cancelled(&self, k: u32) -> bool
        requires above { IsAbove self.now }
        ensures { result ≡ list_any (nat_eq k) (spec.cancelled self.now.lines) }
    {
        self.cancelled.contains(&k)
    }

    fn is_meant(&self, kind: ScriptKind, order: &Order) -> bool
        requires above { IsAbove self.now }
        ensures { result ≡ spec.is_meant kind self.now.lines order.now }
    {
        match (kind, order) {
            (_, Order::Call(_)) | (_, Order::Close) => true,
            (_, Order::Cancel(k)) => self.is_call_above(*k) && !self.is_cancelled(*k),
            (ScriptKind::Client, Order::Wait(k)) => self.is_call_above(*k),
            (ScriptKind::Schedule, Order::Wait(_)) => false,
            (ScriptKind::Client, Order::Idle) => false,
            (ScriptKind::Schedule, Order::Idle) => true,
        }
    }

    // The numbers of an inner line of this level.
    fn inner_numbers(&self, level: usize, word: &[u8]) -> Option<Numbers>
        requires above { IsAbove self.now }
        requires inner { 0 < level }
        ensures { result ≡ reading.inner_numbers self.now.lines level word.now }
    {
        let numbers = numbers_of(self.holder_at(level)?, word)?;
        if does_not_fall(self.sibling_at(level), numbers) {
            Some(numbers)
        } else {
            None
        }
    }

    fn line_of(
        &self,
        alloc: Global,
        kind: ScriptKind,
        level: u32,
        numbers: Numbers,
        words: &[u8],
    ) -> Result<Option<Line>, NoMemory>
        requires above { IsAbove self.now }
        ensures { IfOk result (λ found. found ≡ reading.line_of kind self.now.lines level numbers (reading.words_of words.now)) }
    {
        let Some(order) = order_from(alloc, words)? else {
            return Ok(None);
        };
        if !self.is_meant(kind, &order) {
            return Ok(None);
        }
        let Numbers { check, turn } = numbers;
        Ok(Some(Line {
            level,
            check,
            turn,
            order,
        }))
    }

    // A line of a level that is not 0.
    fn inner_line(
        &self,
        alloc: Global,
        level: usize,
        words: &[u8],
    ) -> Result<Option<Line>, NoMemory>
        requires above { IsAbove self.now }
        requires inner { 0 < level }
        ensures { IfOk result (λ found. found ≡ reading.inner_line_in kind.Schedule self.now.lines level (reading.words_of words.now)) }
    {
        if level > 4294967295 {
            return Ok(None);
        }
        let (first, behind) = cut(words, b' ');
        let Some(numbers) = self.inner_numbers(level, first) else {
            return Ok(None);
        };
        match behind {
            None => Ok(None),
            Some(words) => self.line_of(alloc, ScriptKind::Schedule, level as u32, numbers, words),
        }
    }

    /// The line that these bytes are.
    pub fn line_read(
        &self,
        alloc: Global,
        kind: ScriptKind,
        bytes: &[u8],
    ) -> Result<Option<Line>, NoMemory>
        requires above { IsAbove self.now }
        ensures { IfOk result (λ found. found ≡ reading.line_read kind self.now.lines bytes.now) }
    {
        let Some((level, words)) = unindented(bytes) else {
            return Ok(None);
        };
        if level == 0 {
            let numbers = Numbers { check: 0, turn: 0 };
            return self.line_of(alloc, kind, 0, numbers, words);
        }
        match kind {
            ScriptKind::Schedule => self.inner_line(alloc, level, words),
            ScriptKind::Client => Ok(None),
        }
    }

    fn note_order(&mut self, order: &Order) -> Result<(), NoMemory>
        requires few { self.old.calls < 2 ^ 63 }
        requires new { IsNewCancel self.old.cancelled.keys order.now }
        ensures lines { self.new.lines ≡ self.old.lines }
        ensures levels { self.new.levels ≡ self.old.levels }
        ensures calls { OnOk result (self.new.calls ≡ self.old.calls + calls_in order.now) }
        ensures cancelled { OnOk result (self.new.cancelled.keys ≡ self.old.cancelled.keys ++ cancels_in order.now) }
    {
        match order {
            Order::Call(_) => self.calls += 1,
            Order::Cancel(k) => {
                self.cancelled.insert(*k)?;
            }
            Order::Close | Order::Wait(_) | Order::Idle => {}
        }
        Ok(())
    }

    /// Takes one more line.
    #[tactic(auto, using(crate::proofs::AboveLemmas::note_rules))]
    pub fn note(&mut self, kind: ScriptKind, line: Line) -> Result<(), NoMemory>
        requires above { IsAbove self.old }
        requires stands { spec.may_stand kind self.old.lines line ≡ true }
        requires few { length self.old.lines < 2 ^ 63 }
        ensures lines { OnOk result (self.new.lines ≡ self.old.lines ++ line ∷ []) }
        ensures above { OnOk result (IsAbove self.new) }
    {
        let numbers = Numbers {
            check: line.check,
            turn: line.turn,
        };
        let holder = holder_of(&line.order);
        self.note_order(&line.order)?;
        put_open(
            &mut self.levels,
            line.level as usize,
            Open { holder, numbers },
        )?;
        self.lines.push(line)?;
        Ok(())
    }
}
