//! How types and symbols are printed.

use crate::words::{
    FIRST, INT, LIST_OF, PAIR, SCALA, SECOND, STRING, Step, Steps, Word, path, type_of,
};
use pc_terms::{SymKind, show, show_symbol};
use std::process::Abort;
use std::test::Fail;

/// A type, and how it is printed.
type Printed = (&'static [Word], &'static str);

fn agree(rt: &(impl Abort + AllocGlobal), rows: &[Printed]) -> Result<(), Fail> {
    for (words, printed) in rows {
        let ty = type_of(rt.alloc(), words)?;
        let text = show(rt.alloc(), &ty)?;
        assert_eq!(rt; text.as_str(), *printed);
    }
    Ok(())
}

const GEO: Step = (SymKind::Package, "geo", 0);

const TRIPLE: Word = Word::Class(&[SCALA, (SymKind::Class, "Tuple3", 0)], 3);

const FUNCTION_0: Word = Word::Class(&[SCALA, (SymKind::Class, "Function0", 0)], 1);

// A function of one parameter.
const FUNCTION: Word = Word::Class(&[SCALA, (SymKind::Class, "Function1", 0)], 2);

const FUNCTION_2: Word = Word::Class(&[SCALA, (SymKind::Class, "Function2", 0)], 3);

static CLASSES: [Printed; 5] = [
    (
        &[Word::Class(&[GEO, (SymKind::Class, "Shape", 0)], 0)],
        "geo.Shape",
    ),
    (&[INT], "Int"),
    (
        &[
            Word::Class(&[GEO, (SymKind::Class, "Both", 0)], 2),
            INT,
            LIST_OF,
            STRING,
        ],
        "geo.Both[Int, List[String]]",
    ),
    (&[LIST_OF, STRING], "List[String]"),
    (&[LIST_OF, PAIR, INT, STRING], "List[(Int, String)]"),
];

// A `#` stands after a class or trait, and only a `scala.` in front is left out.
static PATHS: [Printed; 2] = [
    (
        &[Word::Class(&[GEO, SHAPE, (SymKind::Class, "Corner", 0)], 0)],
        "geo.Shape#Corner",
    ),
    (
        &[Word::Class(&[GEO, SCALA, (SymKind::Class, "Sq", 0)], 0)],
        "geo.scala.Sq",
    ),
];

static FUNCTIONS: [Printed; 3] = [
    (&[FUNCTION_0, INT], "() => Int"),
    (&[FUNCTION, INT, STRING], "Int => String"),
    (
        &[FUNCTION_2, FUNCTION, INT, STRING, PAIR, INT, STRING, INT],
        "(Int => String, (Int, String)) => Int",
    ),
];

// A function or a tuple that is the one parameter stands in parentheses, and nothing else does.
static SINGLE_PARAMETERS: [Printed; 4] = [
    (
        &[FUNCTION, FUNCTION, INT, STRING, INT],
        "(Int => String) => Int",
    ),
    (
        &[FUNCTION, PAIR, INT, STRING, INT],
        "((Int, String)) => Int",
    ),
    (&[FUNCTION, LIST_OF, STRING, INT], "List[String] => Int"),
    (
        &[FUNCTION, INT, FUNCTION, INT, STRING],
        "Int => Int => String",
    ),
];

static TUPLES: [Printed; 2] = [
    (&[PAIR, INT, STRING], "(Int, String)"),
    (
        &[TRIPLE, INT, FUNCTION, INT, STRING, STRING],
        "(Int, Int => String, String)",
    ),
];

static METHODS: [Printed; 2] = [
    (&[Word::Method(&[]), INT], "()Int"),
    (
        &[Word::Method(&[("x", false), ("y", true)]), INT, STRING, INT],
        "(x: Int, y: String*)Int",
    ),
];

static POLYMORPHIC: [Printed; 2] = [
    (&[Word::Param(FIRST)], "A"),
    (
        &[
            Word::Poly(&[FIRST, SECOND]),
            Word::Method(&[("x", false)]),
            Word::Param(FIRST),
            Word::Param(SECOND),
        ],
        "[A, B](x: A)B",
    ),
];

static SINGLETONS: [Printed; 4] = [
    (
        &[Word::Module(&[GEO, (SymKind::Object, "Sq", 0)])],
        "geo.Sq.type",
    ),
    (
        &[Word::Module(&[SCALA, (SymKind::Object, "Predef", 0)])],
        "Predef.type",
    ),
    (&[Word::Package(&[GEO])], "package geo"),
    (&[Word::Error], "<error>"),
];

#[test]
fn types_print_as_users_read_them(rt: HostRuntime) -> Result<(), Fail> {
    agree(&rt, &CLASSES)?;
    agree(&rt, &PATHS)?;
    agree(&rt, &FUNCTIONS)?;
    agree(&rt, &SINGLE_PARAMETERS)?;
    agree(&rt, &TUPLES)?;
    agree(&rt, &METHODS)?;
    agree(&rt, &POLYMORPHIC)?;
    agree(&rt, &SINGLETONS)
}

type Symbol = (Steps, &'static str);

const A: Step = (SymKind::Object, "A", 0);

const SHAPE: Step = (SymKind::Trait, "Shape", 0);

const LIST: Step = (SymKind::Class, "List", 0);

const F: Step = (SymKind::Def, "f", 0);

const THIRD_F: Step = (SymKind::Def, "f", 2);

static SYMBOLS: [Symbol; 19] = [
    (&[A], "object A"),
    (&[A, (SymKind::Val, "x", 0)], "val A.x"),
    (&[A, (SymKind::Var, "v", 0)], "var A.v"),
    (&[A, (SymKind::Lazy, "z", 0)], "lazy A.z"),
    (&[A, (SymKind::Alias, "T", 0)], "alias A.T"),
    (&[A, F], "def A.f"),
    (&[A, THIRD_F], "def A.f~2"),
    (&[A, (SymKind::Def, "f", 10)], "def A.f~10"),
    (&[A, THIRD_F, (SymKind::Param, "x", 0)], "param A.f~2.x"),
    (&[A, F, (SymKind::Local, "y", 262104)], "local y@262104"),
    (&[A, (SymKind::Local, "y", 0)], "local y@0"),
    (&[GEO], "package geo"),
    (&[GEO, SHAPE], "trait geo.Shape"),
    (
        &[GEO, SHAPE, (SymKind::Def, "area", 0)],
        "def geo.Shape#area",
    ),
    (&[GEO, (SymKind::Object, "Sq", 0)], "object geo.Sq"),
    (
        &[GEO, (SymKind::Class, "Sq", 0), (SymKind::Val, "n", 0)],
        "val geo.Sq#n",
    ),
    (&[SCALA, LIST], "class List"),
    (
        &[SCALA, LIST, (SymKind::TypeParam, "A", 0)],
        "tparam List#A",
    ),
    (&[SCALA], "package scala"),
];

#[test]
fn symbols_print_their_kind_and_path(rt: HostRuntime) -> Result<(), Fail> {
    let alloc = rt.alloc();
    for (steps, printed) in &SYMBOLS {
        let symbol = path(alloc, steps)?;
        let text = show_symbol(alloc, &symbol)?;
        assert_eq!(rt; text.as_str(), *printed);
    }
    Ok(())
}
