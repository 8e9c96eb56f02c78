//! What a substitution makes of a type. The types were worked out from what it is to do.

use crate::words::{FIRST, INT, LIST_OF, PAIR, SECOND, STRING, Steps, Word, path, type_of};
use pc_terms::{NoMemory, Row, SymPath, Ty, show};
use std::alloc::Global;
use std::process::Abort;
use std::test::Fail;
use type_substitution::subst;

/// A type, parameters, the arguments at their places, and how the type with these in it is printed.
struct Case {
    ty: &'static [Word],
    params: &'static [Steps],
    args: &'static [&'static [Word]],
    printed: &'static str,
}

// It prints as [A](x: List[A], y: B*)A.
const METHOD: &[Word] = &[
    Word::Poly(&[FIRST]),
    Word::Method(&[("x", false), ("y", true)]),
    LIST_OF,
    Word::Param(FIRST),
    Word::Param(SECOND),
    Word::Param(FIRST),
];

const BOTH: &[Word] = &[PAIR, Word::Param(FIRST), Word::Param(SECOND)];

const LIST_OF_FIRST: &[Word] = &[LIST_OF, Word::Param(FIRST)];

static REPLACED: [Case; 2] = [
    Case {
        ty: METHOD,
        params: &[FIRST, SECOND],
        args: &[&[INT], &[STRING]],
        printed: "[A](x: List[Int], y: String*)Int",
    },
    Case {
        ty: BOTH,
        params: &[SECOND, FIRST],
        args: &[&[INT], &[STRING]],
        printed: "(String, Int)",
    },
];

static LEFT: [Case; 2] = [
    Case {
        ty: METHOD,
        params: &[FIRST, SECOND],
        args: &[&[INT]],
        printed: "[A](x: List[Int], y: B*)Int",
    },
    Case {
        ty: METHOD,
        params: &[],
        args: &[],
        printed: "[A](x: List[A], y: B*)A",
    },
];

// What is put in is not looked through again, and of two arguments of one parameter the first is put in.
static PUT_IN_ONCE: [Case; 2] = [
    Case {
        ty: LIST_OF_FIRST,
        params: &[FIRST],
        args: &[LIST_OF_FIRST],
        printed: "List[List[A]]",
    },
    Case {
        ty: BOTH,
        params: &[FIRST, FIRST],
        args: &[&[INT], &[STRING]],
        printed: "(Int, B)",
    },
];

fn paths(alloc: Global, steps: &[Steps]) -> Result<Row<SymPath>, NoMemory> {
    let mut paths = Row::new(alloc);
    for each in steps {
        paths.push(path(alloc, each)?)?;
    }
    Ok(paths)
}

fn types(alloc: Global, words: &[&[Word]]) -> Result<Row<Ty>, NoMemory> {
    let mut types = Row::new(alloc);
    for each in words {
        types.push(type_of(alloc, each)?)?;
    }
    Ok(types)
}

fn agree(rt: &(impl Abort + AllocGlobal), case: &Case) -> Result<(), Fail> {
    let alloc = rt.alloc();
    let ty = type_of(alloc, case.ty)?;
    let params = paths(alloc, case.params)?;
    let new = subst(alloc, &ty, &params, &types(alloc, case.args)?)?;
    let text = show(alloc, &new)?;
    assert_eq!(rt; text.as_str(), case.printed);
    Ok(())
}

fn agree_all(rt: &(impl Abort + AllocGlobal), cases: &[Case]) -> Result<(), Fail> {
    for case in cases {
        agree(rt, case)?;
    }
    Ok(())
}

#[test]
fn arguments_stand_in_the_places_of_their_parameters(rt: HostRuntime) -> Result<(), Fail> {
    agree_all(&rt, &REPLACED)
}

#[test]
fn a_parameter_without_an_argument_stays(rt: HostRuntime) -> Result<(), Fail> {
    agree_all(&rt, &LEFT)
}

#[test]
fn what_is_put_in_is_not_looked_through_again(rt: HostRuntime) -> Result<(), Fail> {
    agree_all(&rt, &PUT_IN_ONCE)
}
