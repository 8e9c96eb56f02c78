//! Types as lists of words. Each word that takes types stands before them, so a list is read from its end, with a stack.

use pc_terms::{Formal, NoMemory, Row, SymKind, SymPath, SymStep, Text, Ty};
use sqlite_items::Boxed;
use std::alloc::Global;

/// A step of a path, with its number.
pub(crate) type Step = (SymKind, &'static str, u32);

pub(crate) type Steps = &'static [Step];

fn step(alloc: Global, step: &Step) -> Result<SymStep, NoMemory> {
    Ok(SymStep {
        kind: step.0,
        name: Text::new(alloc, step.1)?,
        ordinal: step.2,
    })
}

pub(crate) fn path(alloc: Global, steps: &[Step]) -> Result<SymPath, NoMemory> {
    let mut row = Row::new(alloc);
    for each in steps {
        row.push(step(alloc, each)?)?;
    }
    Ok(SymPath { steps: row })
}

/// A word of a type.
#[derive(Clone, Copy)]
pub(crate) enum Word {
    /// A class of this path, of so many types.
    Class(Steps, usize),
    Param(Steps),
    Module(Steps),
    Package(Steps),
    Error,
    /// A method: of a type for each name, which is repeated or not, and then its result.
    Method(&'static [(&'static str, bool)]),
    /// Something with these type parameters.
    Poly(&'static [Steps]),
}

fn next(stack: &mut Vec<Ty>) -> Ty {
    stack.pop().unwrap_or(Ty::Error)
}

fn class(alloc: Global, stack: &mut Vec<Ty>, steps: Steps, count: usize) -> Result<Ty, NoMemory> {
    let class = path(alloc, steps)?;
    let mut args = Row::new(alloc);
    for _ in 0..count {
        args.push(next(stack))?;
    }
    Ok(Ty::Class(class, args))
}

fn formal(
    alloc: Global,
    stack: &mut Vec<Ty>,
    name: &str,
    repeated: bool,
) -> Result<Formal, NoMemory> {
    let name = Text::new(alloc, name)?;
    Ok(Formal {
        name,
        ty: next(stack),
        repeated,
    })
}

fn method(alloc: Global, stack: &mut Vec<Ty>, names: &[(&str, bool)]) -> Result<Ty, NoMemory> {
    let mut formals = Row::new(alloc);
    for (name, repeated) in names {
        formals.push(formal(alloc, stack, name, *repeated)?)?;
    }
    Ok(Ty::Method(formals, Boxed::new(alloc, next(stack))?))
}

fn poly(alloc: Global, stack: &mut Vec<Ty>, names: &[Steps]) -> Result<Ty, NoMemory> {
    let mut params = Row::new(alloc);
    for name in names {
        params.push(path(alloc, name)?)?;
    }
    Ok(Ty::Poly(params, Boxed::new(alloc, next(stack))?))
}

fn read(alloc: Global, stack: &mut Vec<Ty>, word: Word) -> Result<Ty, NoMemory> {
    match word {
        Word::Class(steps, count) => class(alloc, stack, steps, count),
        Word::Param(steps) => Ok(Ty::Param(path(alloc, steps)?)),
        Word::Module(steps) => Ok(Ty::Module(path(alloc, steps)?)),
        Word::Package(steps) => Ok(Ty::Package(path(alloc, steps)?)),
        Word::Error => Ok(Ty::Error),
        Word::Method(names) => method(alloc, stack, names),
        Word::Poly(names) => poly(alloc, stack, names),
    }
}

pub(crate) fn type_of(alloc: Global, words: &[Word]) -> Result<Ty, NoMemory> {
    let mut stack = Vec::new(alloc);
    for word in words.iter().rev() {
        let ty = read(alloc, &mut stack, *word)?;
        stack.push(ty)?;
    }
    Ok(next(&mut stack))
}

pub(crate) const SCALA: Step = (SymKind::Package, "scala", 0);

pub(crate) const INT: Word = Word::Class(&[SCALA, (SymKind::Class, "Int", 0)], 0);

pub(crate) const STRING: Word = Word::Class(&[SCALA, (SymKind::Class, "String", 0)], 0);

pub(crate) const LIST_OF: Word = Word::Class(&[SCALA, (SymKind::Class, "List", 0)], 1);

pub(crate) const PAIR: Word = Word::Class(&[SCALA, (SymKind::Class, "Tuple2", 0)], 2);

// The type parameters of the method `pick` of the object `M`.
const M: Step = (SymKind::Object, "M", 0);

const PICK: Step = (SymKind::Def, "pick", 0);

pub(crate) const FIRST: Steps = &[M, PICK, (SymKind::TypeParam, "A", 0)];

pub(crate) const SECOND: Steps = &[M, PICK, (SymKind::TypeParam, "B", 0)];
