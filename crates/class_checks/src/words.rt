//! Types as lists of words. Each word that takes types stands before them, so a list is read from its end, with a stack.

use pc_terms::{Formal, NoMemory, Row, SymKind, SymPath, SymStep, Text, Ty};
use sqlite_items::Boxed;
use std::alloc::Global;

/// A word of a type.
#[derive(Clone, Copy)]
pub(crate) enum Word {
    /// A class of this name, of so many types.
    Class(&'static str, usize),
    /// The type parameter of this class and this name.
    Param(&'static str, &'static str),
    /// The type of the object of this name.
    Module(&'static str),
    /// The package of this name.
    Package(&'static str),
    /// A method of so many parameters, whose types stand before that of its result.
    Method(usize),
    Error,
}

pub(crate) fn push(
    alloc: Global,
    steps: &mut Row<SymStep>,
    kind: SymKind,
    name: &str,
) -> Result<(), NoMemory> {
    steps.push(SymStep {
        kind,
        name: Text::new(alloc, name)?,
        ordinal: 0,
    })
}

fn is_of_scala(name: &str) -> bool {
    name == "AnyRef" || name == "Any"
}

/// The symbol of this kind and name, which no package owns but for AnyRef and Any.
pub(crate) fn symbol(alloc: Global, kind: SymKind, name: &str) -> Result<SymPath, NoMemory> {
    let mut steps = Row::new(alloc);
    if is_of_scala(name) {
        push(alloc, &mut steps, SymKind::Package, "scala")?;
    }
    push(alloc, &mut steps, kind, name)?;
    Ok(SymPath { steps })
}

/// The type parameter of this name that a class has.
pub(crate) fn type_param(alloc: Global, class: &str, name: &str) -> Result<SymPath, NoMemory> {
    let mut path = symbol(alloc, SymKind::Class, class)?;
    push(alloc, &mut path.steps, SymKind::TypeParam, name)?;
    Ok(path)
}

fn next(stack: &mut Vec<Ty>) -> Ty {
    stack.pop().unwrap_or(Ty::Error)
}

fn class(alloc: Global, stack: &mut Vec<Ty>, name: &str, count: usize) -> Result<Ty, NoMemory> {
    let class = symbol(alloc, SymKind::Class, name)?;
    let mut args = Row::new(alloc);
    for _ in 0..count {
        args.push(next(stack))?;
    }
    Ok(Ty::Class(class, args))
}

fn method(alloc: Global, stack: &mut Vec<Ty>, count: usize) -> Result<Ty, NoMemory> {
    let mut formals = Row::new(alloc);
    for _ in 0..count {
        let name = Text::new(alloc, "x")?;
        formals.push(Formal {
            name,
            ty: next(stack),
            repeated: false,
        })?;
    }
    Ok(Ty::Method(formals, Boxed::new(alloc, next(stack))?))
}

fn read(alloc: Global, stack: &mut Vec<Ty>, word: Word) -> Result<Ty, NoMemory> {
    match word {
        Word::Class(name, count) => class(alloc, stack, name, count),
        Word::Param(class, name) => Ok(Ty::Param(type_param(alloc, class, name)?)),
        Word::Module(name) => Ok(Ty::Module(symbol(alloc, SymKind::Object, name)?)),
        Word::Package(name) => Ok(Ty::Package(symbol(alloc, SymKind::Package, name)?)),
        Word::Method(count) => method(alloc, stack, count),
        Word::Error => Ok(Ty::Error),
    }
}

/// The type of these words.
pub(crate) fn type_of(alloc: Global, words: &[Word]) -> Result<Ty, NoMemory> {
    let mut stack = Vec::new(alloc);
    for word in words.iter().rev() {
        let ty = read(alloc, &mut stack, *word)?;
        stack.push(ty)?;
    }
    Ok(next(&mut stack))
}

pub(crate) const ANY: Word = Word::Class("Any", 0);

pub(crate) const ANY_REF: Word = Word::Class("AnyRef", 0);
