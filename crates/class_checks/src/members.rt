//! Members, worked out from the rules of the language.

use crate::cases::{Case, agree};
use crate::definitions::{Def, Owner};
use crate::known::{Bound, Class};
use crate::words::{ANY, ANY_REF, Word};
use pc_terms::SymKind;
use std::test::Fail;

const INT: Word = Word::Class("Int", 0);

const STRING: Word = Word::Class("String", 0);

// def f: Int
const F: Def = Def {
    kind: SymKind::Def,
    name: "f",
    ty: &[INT],
    is_private: false,
    is_abstract: false,
};

// def g: Int
const G: Def = Def { name: "g", ..F };

const TOP: Class = Class {
    kind: SymKind::Class,
    name: "Any",
    params: &[],
    parents: &[],
};

const REF: Class = Class {
    name: "AnyRef",
    parents: &[&[ANY]],
    ..TOP
};

// trait Root { def f: Int; def g: Int }
const ROOT: Class = Class {
    name: "Root",
    parents: &[&[ANY_REF]],
    ..TOP
};

const OF_ROOT: Owner = Owner {
    kind: SymKind::Class,
    name: "Root",
    defs: &[F, G],
};

// trait Left extends Root { def f: Int }
const LEFT: Class = Class {
    name: "Left",
    parents: &[&[Word::Class("Root", 0)]],
    ..TOP
};

const OF_LEFT: Owner = Owner {
    kind: SymKind::Class,
    name: "Left",
    defs: &[F],
};

// trait Right extends Root { def f: Int }
const RIGHT: Class = Class {
    name: "Right",
    parents: &[&[Word::Class("Root", 0)]],
    ..TOP
};

const OF_RIGHT: Owner = Owner {
    kind: SymKind::Class,
    name: "Right",
    defs: &[F],
};

// class Both extends Left with Right
const BOTH: Class = Class {
    name: "Both",
    parents: &[&[Word::Class("Left", 0)], &[Word::Class("Right", 0)]],
    ..TOP
};

// class Twice extends Left with Root
const TWICE: Class = Class {
    name: "Twice",
    parents: &[&[Word::Class("Left", 0)], &[Word::Class("Root", 0)]],
    ..TOP
};

static DIAMONDS: [Case; 2] = [
    Case {
        ty: &[Word::Class("Both", 0)],
        parents: &[TOP, REF, ROOT, LEFT, RIGHT, BOTH, TWICE],
        signatures: &[],
        bounds: &[],
        owners: &[OF_ROOT, OF_LEFT, OF_RIGHT],
        typed: &[OF_ROOT, OF_LEFT, OF_RIGHT],
        answer: "Right#f: Int, Root#g: Int",
    },
    Case {
        ty: &[Word::Class("Twice", 0)],
        parents: &[TOP, REF, ROOT, LEFT, RIGHT, BOTH, TWICE],
        signatures: &[],
        bounds: &[],
        owners: &[OF_ROOT, OF_LEFT, OF_RIGHT],
        typed: &[OF_ROOT, OF_LEFT, OF_RIGHT],
        answer: "Left#f: Int, Root#g: Int",
    },
];

#[test]
fn each_member_is_there_once(rt: HostRuntime) -> Result<(), Fail> {
    agree(&rt, &DIAMONDS)
}

// def f: Int, without a right side
const ABSTRACT_F: Def = Def {
    is_abstract: true,
    ..F
};

// class Base { def f: Int = 1 }
const BASE: Class = Class {
    name: "Base",
    parents: &[&[ANY_REF]],
    ..TOP
};

const OF_BASE: Owner = Owner {
    kind: SymKind::Class,
    name: "Base",
    defs: &[F],
};

// trait Abs { def f: Int }
const ABS: Class = Class {
    name: "Abs",
    parents: &[&[ANY_REF]],
    ..TOP
};

const OF_ABS: Owner = Owner {
    kind: SymKind::Class,
    name: "Abs",
    defs: &[ABSTRACT_F],
};

// trait More { def f: Int }
const MORE: Class = Class {
    name: "More",
    parents: &[&[ANY_REF]],
    ..TOP
};

const OF_MORE: Owner = Owner {
    kind: SymKind::Class,
    name: "More",
    defs: &[ABSTRACT_F],
};

// class Mixed extends Base with Abs
const MIXED: Class = Class {
    name: "Mixed",
    parents: &[&[Word::Class("Base", 0)], &[Word::Class("Abs", 0)]],
    ..TOP
};

// class Other extends Abs with Base
const OTHER: Class = Class {
    name: "Other",
    parents: &[&[Word::Class("Abs", 0)], &[Word::Class("Base", 0)]],
    ..TOP
};

// class Open extends Abs with More
const OPEN: Class = Class {
    name: "Open",
    parents: &[&[Word::Class("Abs", 0)], &[Word::Class("More", 0)]],
    ..TOP
};

// class All extends Base with Abs with More
const ALL: Class = Class {
    name: "All",
    parents: &[
        &[Word::Class("Base", 0)],
        &[Word::Class("Abs", 0)],
        &[Word::Class("More", 0)],
    ],
    ..TOP
};

static ABSTRACT: [Case; 4] = [
    Case {
        ty: &[Word::Class("Mixed", 0)],
        parents: &[TOP, REF, BASE, ABS, MORE, MIXED, OTHER, OPEN, ALL],
        signatures: &[],
        bounds: &[],
        owners: &[OF_BASE, OF_ABS, OF_MORE],
        typed: &[OF_BASE, OF_ABS, OF_MORE],
        answer: "Base#f: Int",
    },
    Case {
        ty: &[Word::Class("Other", 0)],
        parents: &[TOP, REF, BASE, ABS, MORE, MIXED, OTHER, OPEN, ALL],
        signatures: &[],
        bounds: &[],
        owners: &[OF_BASE, OF_ABS, OF_MORE],
        typed: &[OF_BASE, OF_ABS, OF_MORE],
        answer: "Base#f: Int",
    },
    Case {
        ty: &[Word::Class("Open", 0)],
        parents: &[TOP, REF, BASE, ABS, MORE, MIXED, OTHER, OPEN, ALL],
        signatures: &[],
        bounds: &[],
        owners: &[OF_BASE, OF_ABS, OF_MORE],
        typed: &[OF_BASE, OF_ABS, OF_MORE],
        answer: "More#f: Int",
    },
    Case {
        ty: &[Word::Class("All", 0)],
        parents: &[TOP, REF, BASE, ABS, MORE, MIXED, OTHER, OPEN, ALL],
        signatures: &[],
        bounds: &[],
        owners: &[OF_BASE, OF_ABS, OF_MORE],
        typed: &[OF_BASE, OF_ABS, OF_MORE],
        answer: "Base#f: Int",
    },
];

#[test]
fn what_is_abstract_hides_nothing_that_is_not(rt: HostRuntime) -> Result<(), Fail> {
    agree(&rt, &ABSTRACT)
}

// private def f: Int
const PRIVATE_F: Def = Def {
    is_private: true,
    ..F
};

// private def g: Int
const PRIVATE_G: Def = Def {
    is_private: true,
    ..G
};

// class Shut { private def f: Int; def g: Int }
const SHUT: Class = Class {
    name: "Shut",
    parents: &[&[ANY_REF]],
    ..TOP
};

const OF_SHUT: Owner = Owner {
    kind: SymKind::Class,
    name: "Shut",
    defs: &[PRIVATE_F, G],
};

// class Heir extends Shut
const HEIR: Class = Class {
    name: "Heir",
    parents: &[&[Word::Class("Shut", 0)]],
    ..TOP
};

// class Own extends Shut { private def g: Int }
const OWN: Class = Class {
    name: "Own",
    parents: &[&[Word::Class("Shut", 0)]],
    ..TOP
};

const OF_OWN: Owner = Owner {
    kind: SymKind::Class,
    name: "Own",
    defs: &[PRIVATE_G],
};

static PRIVATE: [Case; 3] = [
    Case {
        ty: &[Word::Class("Shut", 0)],
        parents: &[TOP, REF, SHUT, HEIR, OWN],
        signatures: &[],
        bounds: &[],
        owners: &[OF_SHUT],
        typed: &[OF_SHUT],
        answer: "Shut#f: Int, Shut#g: Int",
    },
    Case {
        ty: &[Word::Class("Heir", 0)],
        parents: &[TOP, REF, SHUT, HEIR, OWN],
        signatures: &[],
        bounds: &[],
        owners: &[OF_SHUT],
        typed: &[OF_SHUT],
        answer: "Shut#g: Int",
    },
    Case {
        ty: &[Word::Class("Own", 0)],
        parents: &[TOP, REF, SHUT, HEIR, OWN],
        signatures: &[],
        bounds: &[],
        owners: &[OF_SHUT, OF_OWN],
        typed: &[OF_SHUT, OF_OWN],
        answer: "Own#g: Int",
    },
];

#[test]
fn private_members_are_not_inherited(rt: HostRuntime) -> Result<(), Fail> {
    agree(&rt, &PRIVATE)
}

// def f(x: Int): Int
const F_OF_INT: Def = Def {
    ty: &[Word::Method(1), INT, INT],
    ..F
};

// def f(x: String): Int
const F_OF_STRING: Def = Def {
    ty: &[Word::Method(1), STRING, INT],
    ..F
};

// def f(): Int
const F_OF_NONE: Def = Def {
    ty: &[Word::Method(0), INT],
    ..F
};

// val f: Int
const VAL_F: Def = Def {
    kind: SymKind::Val,
    ..F
};

// type f = Int
const TYPE_F: Def = Def {
    kind: SymKind::Alias,
    ..F
};

// class OfInt { def f(x: Int): Int }
const OFINT: Class = Class {
    name: "OfInt",
    parents: &[&[ANY_REF]],
    ..TOP
};

const OF_OFINT: Owner = Owner {
    kind: SymKind::Class,
    name: "OfInt",
    defs: &[F_OF_INT],
};

// class OfNone { def f(): Int }
const OFNONE: Class = Class {
    name: "OfNone",
    parents: &[&[ANY_REF]],
    ..TOP
};

const OF_OFNONE: Owner = Owner {
    kind: SymKind::Class,
    name: "OfNone",
    defs: &[F_OF_NONE],
};

// class Alias { type f = Int }
const ALIAS: Class = Class {
    name: "Alias",
    parents: &[&[ANY_REF]],
    ..TOP
};

const OF_ALIAS: Owner = Owner {
    kind: SymKind::Class,
    name: "Alias",
    defs: &[TYPE_F],
};

// class A extends OfInt { def f(x: Int): Int }
const A: Class = Class {
    name: "A",
    parents: &[&[Word::Class("OfInt", 0)]],
    ..TOP
};

const OF_A: Owner = Owner {
    kind: SymKind::Class,
    name: "A",
    defs: &[F_OF_INT],
};

// class B extends OfInt { def f(x: String): Int }
const B: Class = Class {
    name: "B",
    parents: &[&[Word::Class("OfInt", 0)]],
    ..TOP
};

const OF_B: Owner = Owner {
    kind: SymKind::Class,
    name: "B",
    defs: &[F_OF_STRING],
};

// class C extends OfInt { val f: Int }
const C: Class = Class {
    name: "C",
    parents: &[&[Word::Class("OfInt", 0)]],
    ..TOP
};

const OF_C: Owner = Owner {
    kind: SymKind::Class,
    name: "C",
    defs: &[VAL_F],
};

// class D extends OfNone { val f: Int }
const D: Class = Class {
    name: "D",
    parents: &[&[Word::Class("OfNone", 0)]],
    ..TOP
};

const OF_D: Owner = Owner {
    kind: SymKind::Class,
    name: "D",
    defs: &[VAL_F],
};

// class E extends Alias { val f: Int }
const E: Class = Class {
    name: "E",
    parents: &[&[Word::Class("Alias", 0)]],
    ..TOP
};

const OF_E: Owner = Owner {
    kind: SymKind::Class,
    name: "E",
    defs: &[VAL_F],
};

static PARAMETERS: [Case; 5] = [
    Case {
        ty: &[Word::Class("A", 0)],
        parents: &[TOP, REF, OFINT, OFNONE, ALIAS, A, B, C, D, E],
        signatures: &[],
        bounds: &[],
        owners: &[OF_OFINT, OF_A],
        typed: &[OF_OFINT, OF_A],
        answer: "A#f: (x: Int)Int",
    },
    Case {
        ty: &[Word::Class("B", 0)],
        parents: &[TOP, REF, OFINT, OFNONE, ALIAS, A, B, C, D, E],
        signatures: &[],
        bounds: &[],
        owners: &[OF_OFINT, OF_B],
        typed: &[OF_OFINT, OF_B],
        answer: "B#f: (x: String)Int, OfInt#f: (x: Int)Int",
    },
    Case {
        ty: &[Word::Class("C", 0)],
        parents: &[TOP, REF, OFINT, OFNONE, ALIAS, A, B, C, D, E],
        signatures: &[],
        bounds: &[],
        owners: &[OF_OFINT, OF_C],
        typed: &[OF_OFINT, OF_C],
        answer: "C#f: Int, OfInt#f: (x: Int)Int",
    },
    Case {
        ty: &[Word::Class("D", 0)],
        parents: &[TOP, REF, OFINT, OFNONE, ALIAS, A, B, C, D, E],
        signatures: &[],
        bounds: &[],
        owners: &[OF_OFNONE, OF_D],
        typed: &[OF_OFNONE, OF_D],
        answer: "D#f: Int",
    },
    Case {
        ty: &[Word::Class("E", 0)],
        parents: &[TOP, REF, OFINT, OFNONE, ALIAS, A, B, C, D, E],
        signatures: &[],
        bounds: &[],
        owners: &[OF_ALIAS, OF_E],
        typed: &[OF_ALIAS, OF_E],
        answer: "E#f: Int, Alias#f: Int",
    },
];

#[test]
fn members_override_by_name_space_and_parameters(rt: HostRuntime) -> Result<(), Fail> {
    agree(&rt, &PARAMETERS)
}

// def get: T
const GET: Def = Def {
    name: "get",
    ty: &[Word::Param("Cell", "T")],
    ..F
};

// def set(x: T): Int
const SET: Def = Def {
    name: "set",
    ty: &[Word::Method(1), Word::Param("Cell", "T"), INT],
    ..F
};

// def set(x: String): Int
const SET_STRING: Def = Def {
    name: "set",
    ty: &[Word::Method(1), STRING, INT],
    ..F
};

// class Cell[T] { def get: T; def set(x: T): Int }
const CELL: Class = Class {
    name: "Cell",
    params: &["T"],
    parents: &[&[ANY_REF]],
    ..TOP
};

const OF_CELL: Owner = Owner {
    kind: SymKind::Class,
    name: "Cell",
    defs: &[GET, SET],
};

// class Words extends Cell[String] { def set(x: String): Int }
const WORDS: Class = Class {
    name: "Words",
    parents: &[&[Word::Class("Cell", 1), STRING]],
    ..TOP
};

const OF_WORDS: Owner = Owner {
    kind: SymKind::Class,
    name: "Words",
    defs: &[SET_STRING],
};

// class Ints extends Cell[Int] { def set(x: String): Int }
const INTS: Class = Class {
    name: "Ints",
    parents: &[&[Word::Class("Cell", 1), INT]],
    ..TOP
};

const OF_INTS: Owner = Owner {
    kind: SymKind::Class,
    name: "Ints",
    defs: &[SET_STRING],
};

// T of F is bounded by Words.
const BOUND: Bound = Bound {
    class: "F",
    name: "T",
    upper: &[Word::Class("Words", 0)],
};

static ARGUMENTS: [Case; 5] = [
    Case {
        ty: &[Word::Class("Cell", 1), INT],
        parents: &[TOP, REF, CELL, WORDS, INTS],
        signatures: &[CELL],
        bounds: &[],
        owners: &[OF_CELL, OF_WORDS, OF_INTS],
        typed: &[OF_CELL, OF_WORDS, OF_INTS],
        answer: "Cell#get: Int, Cell#set: (x: Int)Int",
    },
    Case {
        ty: &[Word::Class("Words", 0)],
        parents: &[TOP, REF, CELL, WORDS, INTS],
        signatures: &[CELL],
        bounds: &[],
        owners: &[OF_CELL, OF_WORDS, OF_INTS],
        typed: &[OF_CELL, OF_WORDS, OF_INTS],
        answer: "Words#set: (x: String)Int, Cell#get: String",
    },
    Case {
        ty: &[Word::Class("Ints", 0)],
        parents: &[TOP, REF, CELL, WORDS, INTS],
        signatures: &[CELL],
        bounds: &[],
        owners: &[OF_CELL, OF_WORDS, OF_INTS],
        typed: &[OF_CELL, OF_WORDS, OF_INTS],
        answer: "Ints#set: (x: String)Int, Cell#get: Int, Cell#set: (x: Int)Int",
    },
    Case {
        ty: &[Word::Param("F", "T")],
        parents: &[TOP, REF, CELL, WORDS, INTS],
        signatures: &[CELL],
        bounds: &[BOUND],
        owners: &[OF_CELL, OF_WORDS, OF_INTS],
        typed: &[OF_CELL, OF_WORDS, OF_INTS],
        answer: "Words#set: (x: String)Int, Cell#get: String",
    },
    Case {
        ty: &[Word::Error],
        parents: &[TOP, REF, CELL, WORDS, INTS],
        signatures: &[],
        bounds: &[],
        owners: &[OF_CELL, OF_WORDS, OF_INTS],
        typed: &[OF_CELL, OF_WORDS, OF_INTS],
        answer: "",
    },
];

#[test]
fn members_are_seen_with_the_arguments_of_the_base_type(rt: HostRuntime) -> Result<(), Fail> {
    agree(&rt, &ARGUMENTS)
}

// package q
const Q: Def = Def {
    kind: SymKind::Package,
    name: "q",
    ..F
};

// package p { object f; package q }
const OF_P: Owner = Owner {
    kind: SymKind::Package,
    name: "p",
    defs: &[F, Q],
};

static PACKAGES: [Case; 2] = [
    Case {
        ty: &[Word::Package("p")],
        parents: &[],
        signatures: &[],
        bounds: &[],
        owners: &[OF_P],
        typed: &[OF_P],
        answer: "p.f: Int, p.q: package p.q",
    },
    Case {
        ty: &[Word::Package("p")],
        parents: &[],
        signatures: &[],
        bounds: &[],
        owners: &[OF_P],
        typed: &[],
        answer: "needs signature p.f",
    },
];

#[test]
fn a_package_has_its_definitions(rt: HostRuntime) -> Result<(), Fail> {
    agree(&rt, &PACKAGES)
}

static FIRST_ITEMS: [Case; 6] = [
    Case {
        ty: &[Word::Param("F", "T")],
        parents: &[TOP, REF, CELL, WORDS, INTS],
        signatures: &[],
        bounds: &[],
        owners: &[OF_CELL, OF_WORDS, OF_INTS],
        typed: &[OF_CELL, OF_WORDS, OF_INTS],
        answer: "needs signature F#T",
    },
    Case {
        ty: &[Word::Class("Words", 0)],
        parents: &[TOP, REF, WORDS],
        signatures: &[],
        bounds: &[],
        owners: &[OF_CELL, OF_WORDS, OF_INTS],
        typed: &[],
        answer: "needs parents Cell",
    },
    Case {
        ty: &[Word::Class("Words", 0)],
        parents: &[TOP, REF, CELL, WORDS, INTS],
        signatures: &[],
        bounds: &[],
        owners: &[OF_CELL, OF_WORDS, OF_INTS],
        typed: &[],
        answer: "needs signature Words#set",
    },
    Case {
        ty: &[Word::Class("Words", 0)],
        parents: &[TOP, REF, CELL, WORDS, INTS],
        signatures: &[],
        bounds: &[],
        owners: &[OF_CELL, OF_WORDS, OF_INTS],
        typed: &[OF_WORDS],
        answer: "needs signature Cell",
    },
    Case {
        ty: &[Word::Class("Words", 0)],
        parents: &[TOP, REF, CELL, WORDS, INTS],
        signatures: &[CELL],
        bounds: &[],
        owners: &[OF_CELL, OF_WORDS, OF_INTS],
        typed: &[OF_WORDS],
        answer: "needs signature Cell#get",
    },
    // a private member that is not inherited is asked nothing about
    Case {
        ty: &[Word::Class("Own", 0)],
        parents: &[TOP, REF, SHUT, OWN],
        signatures: &[],
        bounds: &[],
        owners: &[OF_SHUT, OF_OWN],
        typed: &[OF_OWN],
        answer: "needs signature Shut#g",
    },
];

#[test]
fn items_are_asked_for_class_by_class(rt: HostRuntime) -> Result<(), Fail> {
    agree(&rt, &FIRST_ITEMS)
}
