//! Base types, worked out from the rules of the language.

use crate::known::{Bound, Class, Known, item_text};
use crate::words::{ANY, ANY_REF, Word, symbol, type_of};
use base_classes::base_type;
use pc_terms::{Asked, NoMemory, SymKind, Ty, show};
use std::alloc::Global;
use std::process::Abort;
use std::test::Fail;

/// A type and a class, what is known, and what the base type comes to.
struct Case {
    ty: &'static [Word],
    class: &'static str,
    parents: &'static [Class],
    signatures: &'static [Class],
    bounds: &'static [Bound],
    answer: &'static str,
}

const TOP: Class = Class {
    kind: SymKind::Class,
    name: "Any",
    params: &[],
    parents: &[],
};

const REF: Class = Class {
    name: "AnyRef",
    parents: &[&[ANY]],
    ..TOP
};

// class Pair[A, B]
const PAIR: Class = Class {
    name: "Pair",
    params: &["A", "B"],
    parents: &[&[ANY_REF]],
    ..TOP
};

// class Swap[A, B] extends Pair[B, A]
const SWAP: Class = Class {
    name: "Swap",
    params: &["A", "B"],
    parents: &[&[
        Word::Class("Pair", 2),
        Word::Param("Swap", "B"),
        Word::Param("Swap", "A"),
    ]],
    ..TOP
};

const INT: Word = Word::Class("Int", 0);

const STRING: Word = Word::Class("String", 0);

// class Cell[T]
const CELL: Class = Class {
    name: "Cell",
    params: &["T"],
    parents: &[&[ANY_REF]],
    ..TOP
};

// trait Words extends Cell[String]
const WORDS: Class = Class {
    name: "Words",
    parents: &[&[Word::Class("Cell", 1), STRING]],
    ..TOP
};

// class Both extends Cell[Int] with Words
const BOTH: Class = Class {
    name: "Both",
    parents: &[&[Word::Class("Cell", 1), INT], &[Word::Class("Words", 0)]],
    ..TOP
};

// class List[A]
const LIST: Class = Class {
    name: "List",
    params: &["A"],
    parents: &[&[ANY_REF]],
    ..TOP
};

// object Nil extends List[Nothing]
const NIL: Class = Class {
    kind: SymKind::Object,
    name: "Nil",
    parents: &[&[Word::Class("List", 1), Word::Class("Nothing", 0)]],
    ..TOP
};

fn found(alloc: Global, known: &Known, case: &Case) -> Result<String, NoMemory> {
    let ty = type_of(alloc, case.ty)?;
    let class = symbol(alloc, SymKind::Class, case.class)?;
    match base_type(alloc, &ty, &class, known)? {
        Asked::Known(Some(base)) => Ok(show(alloc, &base)?.into_string()),
        Asked::Known(None) => Ok(String::from_str(alloc, "none")?),
        Asked::Needs(item) => item_text(alloc, "needs", &item),
        Asked::Cyclic(item) => item_text(alloc, "cyclic", &item),
    }
}

fn known(alloc: Global, case: &Case) -> Result<Known, NoMemory> {
    let mut known = Known::new(alloc);
    for class in case.parents {
        known.add_parents(alloc, class)?;
    }
    for class in case.signatures {
        known.add_signature(alloc, class)?;
    }
    for bound in case.bounds {
        known.add_bound(alloc, bound)?;
    }
    Ok(known)
}

fn agree(rt: &(impl Abort + AllocGlobal), cases: &[Case]) -> Result<(), Fail> {
    for case in cases {
        let known = known(rt.alloc(), case)?;
        let found = found(rt.alloc(), &known, case)?;
        assert_eq!(rt; found.as_str(), case.answer);
    }
    Ok(())
}

const SWAPPED: &[Word] = &[Word::Class("Swap", 2), INT, STRING];

static ARGUMENTS: [Case; 4] = [
    // a type of the class itself asks for nothing
    Case {
        ty: SWAPPED,
        class: "Swap",
        parents: &[],
        signatures: &[],
        bounds: &[],
        answer: "Swap[Int, String]",
    },
    Case {
        ty: SWAPPED,
        class: "Pair",
        parents: &[TOP, REF, PAIR, SWAP],
        signatures: &[PAIR, SWAP],
        bounds: &[],
        answer: "Pair[String, Int]",
    },
    Case {
        ty: SWAPPED,
        class: "AnyRef",
        parents: &[TOP, REF, PAIR, SWAP],
        signatures: &[PAIR, SWAP],
        bounds: &[],
        answer: "AnyRef",
    },
    Case {
        ty: &[Word::Module("Nil")],
        class: "List",
        parents: &[TOP, REF, LIST, NIL],
        signatures: &[],
        bounds: &[],
        answer: "List[Nothing]",
    },
];

#[test]
fn arguments_are_put_in_on_the_way(rt: HostRuntime) -> Result<(), Fail> {
    agree(&rt, &ARGUMENTS)
}

static CHOICES: [Case; 3] = [
    Case {
        ty: &[Word::Class("Both", 0)],
        class: "Cell",
        parents: &[TOP, REF, CELL, WORDS, BOTH],
        signatures: &[CELL],
        bounds: &[],
        answer: "Cell[Int]",
    },
    Case {
        ty: &[Word::Class("Words", 0)],
        class: "Both",
        parents: &[TOP, REF, CELL, WORDS],
        signatures: &[CELL],
        bounds: &[],
        answer: "none",
    },
    Case {
        ty: &[Word::Error],
        class: "Any",
        parents: &[TOP],
        signatures: &[],
        bounds: &[],
        answer: "none",
    },
];

#[test]
fn the_first_from_the_left_counts(rt: HostRuntime) -> Result<(), Fail> {
    agree(&rt, &CHOICES)
}

static FIRST_ITEMS: [Case; 4] = [
    Case {
        ty: SWAPPED,
        class: "Pair",
        parents: &[],
        signatures: &[SWAP],
        bounds: &[],
        answer: "needs parents Swap",
    },
    Case {
        ty: SWAPPED,
        class: "Pair",
        parents: &[TOP, REF, PAIR, SWAP],
        signatures: &[],
        bounds: &[],
        answer: "needs signature Swap",
    },
    // no signature of a class without arguments
    Case {
        ty: &[Word::Class("Words", 0)],
        class: "Cell",
        parents: &[TOP, REF, CELL, WORDS],
        signatures: &[],
        bounds: &[],
        answer: "Cell[String]",
    },
    Case {
        ty: &[Word::Param("Cell", "T")],
        class: "Cell",
        parents: &[],
        signatures: &[],
        bounds: &[],
        answer: "needs signature Cell#T",
    },
];

#[test]
fn parents_are_asked_for_before_signatures(rt: HostRuntime) -> Result<(), Fail> {
    agree(&rt, &FIRST_ITEMS)
}

// T is bounded by U, and U by Words.
const CHAIN: [Bound; 2] = [
    Bound {
        class: "F",
        name: "T",
        upper: &[Word::Param("F", "U")],
    },
    Bound {
        class: "F",
        name: "U",
        upper: &[Word::Class("Words", 0)],
    },
];

// T and U bound each other, and V is bounded by T.
const RING: [Bound; 3] = [
    Bound {
        class: "F",
        name: "T",
        upper: &[Word::Param("F", "U")],
    },
    Bound {
        class: "F",
        name: "U",
        upper: &[Word::Param("F", "T")],
    },
    Bound {
        class: "F",
        name: "V",
        upper: &[Word::Param("F", "T")],
    },
];

static BOUNDS: [Case; 4] = [
    Case {
        ty: &[Word::Param("F", "T")],
        class: "Cell",
        parents: &[TOP, REF, CELL, WORDS],
        signatures: &[],
        bounds: &CHAIN,
        answer: "Cell[String]",
    },
    Case {
        ty: &[Word::Param("F", "T")],
        class: "Any",
        parents: &[],
        signatures: &[],
        bounds: &RING,
        answer: "Any",
    },
    Case {
        ty: &[Word::Param("F", "V")],
        class: "Any",
        parents: &[],
        signatures: &[],
        bounds: &RING,
        answer: "Any",
    },
    Case {
        ty: &[Word::Param("F", "V")],
        class: "AnyRef",
        parents: &[TOP],
        signatures: &[],
        bounds: &RING,
        answer: "none",
    },
];

#[test]
fn type_parameters_have_the_base_types_of_their_bounds(rt: HostRuntime) -> Result<(), Fail> {
    agree(&rt, &BOUNDS)
}
