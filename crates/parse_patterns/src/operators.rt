//! Operators that wait for what stands after them.

ghost use Rattle.std.specs.Prelude.{◌≡◌, IfOk};
ghost use Rattle.parse_parts.specs.Steps.{from_to};
ghost use Rattle.parse_patterns.specs.Operators as spec;

use crate::states::{Operand, Operation};
use parse_parts::built::{joined, node};
use parse_parts::stack::Stack;
use parse_parts::steps::alone;
use pc_terms::{NoMemory, Span, TreeKind};
use positioned_trees::Name;
use std::alloc::Global;

/// What waits still, and what was read after it.
#[derive(Debug, Drop)]
pub struct Folded {
    pub operations: Stack<Operation>,
    pub last: Operand,
}

fn over(alloc: Global, operation: Operation, right: Operand) -> Result<Operand, NoMemory>
    ensures { IfOk result (λ operand. operand ≡ spec.over operation right) }
{
    let span = Span {
        start: operation.left.span.start,
        end: right.span.end,
    };
    let kids = joined(alone(alloc, operation.left.tall)?, right.tall)?;
    let name = operation.name;
    Ok(Operand {
        tall: node(TreeKind::CtorPat, name.text, name.span, span, kids),
        span,
    })
}

/// The operand that all the operations and the last operand are.
pub fn settled(
    alloc: Global,
    operations: Stack<Operation>,
    last: Operand,
) -> Result<Operand, NoMemory>
    ensures { IfOk result (λ operand. operand ≡ spec.settled operations last) }
{
    let mut operations = operations;
    let mut last = last;
    while let Some(operation) = operations.pop() {
        last = over(alloc, operation, last)?;
    }
    Ok(last)
}

/// Whether an operation goes before one of this level after it.
pub fn goes_first(operation: &Operation, level: u32) -> bool
    ensures { result ≡ spec.goes_first operation.now level }
{
    level < operation.level || (operation.level == level && !operation.right)
}

/// The same of the operation that waits last.
pub fn one_goes(operations: &Stack<Operation>, level: u32) -> bool
    ensures { result ≡ spec.one_goes operations.now level }
{
    match operations.top() {
        Some(operation) => goes_first(operation, level),
        None => false,
    }
}

fn fold(
    alloc: Global,
    operations: Stack<Operation>,
    level: u32,
    last: Operand,
) -> Result<Folded, NoMemory>
    ensures { IfOk result (λ found. found ≡ spec.folded operations level last) }
{
    let mut operations = operations;
    let mut last = last;
    while one_goes(&operations, level) {
        let Some(operation) = operations.pop() else {
            break
        };
        last = over(alloc, operation, last)?;
    }
    Ok(Folded { operations, last })
}

/// The operations with one more, for which what stands before it is folded as far as it goes first.
pub fn pushed(
    alloc: Global,
    operations: Stack<Operation>,
    last: Operand,
    name: Name,
    level: u32,
    right: bool,
) -> Result<Stack<Operation>, NoMemory>
    ensures { IfOk result (λ waiting. waiting ≡ spec.waiting (spec.folded operations level last) name level right) }
{
    let Folded { operations, last } = fold(alloc, operations, level, last)?;
    let mut operations = operations;
    operations.push(Operation {
        left: last,
        name,
        level,
        right,
    })?;
    Ok(operations)
}

/// Whether an operator may follow: it does not if one of its precedence before it associates otherwise.
pub fn fits(operations: &Stack<Operation>, level: u32, right: bool) -> bool
    ensures { result ≡ spec.fits operations.now level right }
{
    for depth in 0..operations.len() {
        let Some(operation) = operations.peek(depth) else {
            break
        };
        if operation.level <= level {
            return operation.level != level || operation.right == right;
        }
    }
    true
}
