//! Operators that wait for what stands after them.

ghost use Rattle.std.specs.Prelude.{◌≡◌, IfOk};
ghost use Rattle.expr_tails.specs.Operators as spec;

use parse_parts::stack::Stack;
use parse_patterns::names::{is_right, precedence};
use parse_patterns::operators::{Folded, fits as fits_at, one_goes};
use parse_patterns::states::{Operand, Operation};
use pc_terms::NoMemory;
use positioned_trees::Name;
use std::alloc::Global;
use tree_lower::operation;

fn over(alloc: Global, waiting: Operation, right: Operand) -> Result<Operand, NoMemory>
    ensures { IfOk result (λ now. now ≡ spec.over waiting right) }
{
    operation(alloc, waiting.name, waiting.left, right)
}

/// The operand that all the operations and the last operand are.
pub fn settled(
    alloc: Global,
    operations: Stack<Operation>,
    last: Operand,
) -> Result<Operand, NoMemory>
    ensures { IfOk result (λ now. now ≡ spec.settled operations last) }
{
    let mut operations = operations;
    let mut last = last;
    while let Some(waiting) = operations.pop() {
        last = over(alloc, waiting, last)?;
    }
    Ok(last)
}

fn fold(
    alloc: Global,
    operations: Stack<Operation>,
    level: u32,
    last: Operand,
) -> Result<Folded, NoMemory>
    ensures { IfOk result (λ found. found ≡ spec.folded operations level last) }
{
    let mut operations = operations;
    let mut last = last;
    while one_goes(&operations, level) {
        let Some(waiting) = operations.pop() else {
            break
        };
        last = over(alloc, waiting, last)?;
    }
    Ok(Folded { operations, last })
}

/// The operations with one more, for which what stands before it is folded as far as it goes first.
pub fn pushed(
    alloc: Global,
    operations: Stack<Operation>,
    last: Operand,
    name: Name,
) -> Result<Stack<Operation>, NoMemory>
    ensures { IfOk result (λ now. now ≡ spec.pushed operations last name) }
{
    let level = precedence(name.text.as_str());
    let right = is_right(name.text.as_str());
    let Folded { operations, last } = fold(alloc, operations, level, last)?;
    let mut operations = operations;
    operations.push(Operation {
        left: last,
        name,
        level,
        right,
    })?;
    Ok(operations)
}

/// Whether an operator may follow: it does not if one of its precedence before it associates otherwise.
pub fn fits(operations: &Stack<Operation>, word: &str) -> bool
    ensures { result ≡ spec.fits operations.now word.now }
{
    fits_at(operations, precedence(word), is_right(word))
}
