//! Linearisations. They were worked out from the rules of the language; one is the example of SLS 5.1.2.

use crate::known::{Class, Known, item_text};
use crate::words::{ANY, ANY_REF, Word, symbol};
use class_parents::linearise;
use pc_terms::{Asked, NoMemory, SymKind, SymPath, show_path};
use std::alloc::Global;
use std::process::Abort;
use std::test::Fail;

/// A class, the classes whose parents are known, those whose parents are cyclic, and what the linearisation comes to.
struct Case {
    class: &'static str,
    known: &'static [Class],
    cyclic: &'static [&'static str],
    answer: &'static str,
}

const TOP: Class = Class {
    kind: SymKind::Class,
    name: "Any",
    params: &[],
    parents: &[],
};

const REF: Class = Class {
    name: "AnyRef",
    parents: &[&[ANY]],
    ..TOP
};

// A class whose parent is AnyRef.
const P: Class = Class {
    name: "P",
    parents: &[&[ANY_REF]],
    ..TOP
};

fn names(alloc: Global, classes: &[SymPath]) -> Result<String, NoMemory> {
    let mut text = String::new(alloc);
    for class in classes {
        let name = show_path(alloc, class)?;
        if !text.is_empty() {
            text.push_str(" ")?;
        }
        text.push_str(name.as_str())?;
    }
    Ok(text)
}

fn line(alloc: Global, known: &Known, class: &str) -> Result<String, NoMemory> {
    let class = symbol(alloc, SymKind::Class, class)?;
    match linearise(alloc, &class, known)? {
        Asked::Known(classes) => names(alloc, classes.as_slice()),
        Asked::Needs(item) => item_text(alloc, "needs", &item),
        Asked::Cyclic(item) => item_text(alloc, "cyclic", &item),
    }
}

fn known(alloc: Global, case: &Case) -> Result<Known, NoMemory> {
    let mut known = Known::new(alloc);
    for class in case.known {
        known.add_parents(alloc, class)?;
    }
    for name in case.cyclic {
        known.add_cyclic(alloc, name)?;
    }
    Ok(known)
}

fn agree(rt: &(impl Abort + AllocGlobal), cases: &[Case]) -> Result<(), Fail> {
    for case in cases {
        let known = known(rt.alloc(), case)?;
        let found = line(rt.alloc(), &known, case.class)?;
        assert_eq!(rt; found.as_str(), case.answer);
    }
    Ok(())
}

const Q: Class = Class {
    name: "Q",
    parents: &[&[Word::Class("P", 0)]],
    ..TOP
};

const R: Class = Class {
    name: "R",
    parents: &[&[Word::Class("P", 0)], &[Word::Class("Q", 0)]],
    ..TOP
};

static WAYS: [Case; 3] = [
    Case {
        class: "P",
        known: &[TOP, REF, P],
        cyclic: &[],
        answer: "P AnyRef Any",
    },
    // R extends P with Q, and Q extends P: P by two ways
    Case {
        class: "R",
        known: &[TOP, REF, P, Q, R],
        cyclic: &[],
        answer: "R Q P AnyRef Any",
    },
    // S extends Q with P
    Case {
        class: "S",
        known: &[
            TOP,
            REF,
            P,
            Q,
            Class {
                name: "S",
                parents: &[&[Word::Class("Q", 0)], &[Word::Class("P", 0)]],
                ..TOP
            },
        ],
        cyclic: &[],
        answer: "S Q P AnyRef Any",
    },
];

#[test]
fn what_two_ways_lead_to_stands_once_and_last(rt: HostRuntime) -> Result<(), Fail> {
    agree(&rt, &WAYS)
}

// abstract class AbsIterator; trait RichIterator extends AbsIterator; class StringIterator extends AbsIterator;
// class Iter extends StringIterator with RichIterator
static ITERATORS: [Case; 1] = [Case {
    class: "Iter",
    known: &[
        TOP,
        REF,
        Class {
            name: "AbsIterator",
            parents: &[&[ANY_REF]],
            ..TOP
        },
        Class {
            name: "RichIterator",
            parents: &[&[Word::Class("AbsIterator", 0)]],
            ..TOP
        },
        Class {
            name: "StringIterator",
            parents: &[&[Word::Class("AbsIterator", 0)]],
            ..TOP
        },
        Class {
            name: "Iter",
            parents: &[
                &[Word::Class("StringIterator", 0)],
                &[Word::Class("RichIterator", 0)],
            ],
            ..TOP
        },
    ],
    cyclic: &[],
    answer: "Iter RichIterator StringIterator AbsIterator AnyRef Any",
}];

#[test]
fn the_example_of_the_specification_is_so(rt: HostRuntime) -> Result<(), Fail> {
    agree(&rt, &ITERATORS)
}

// A class whose parents are P and the class itself.
const ITSELF: Class = Class {
    name: "Itself",
    parents: &[&[Word::Class("P", 0)], &[Word::Class("Itself", 0)]],
    ..TOP
};

// A and B are derived from each other, and C from A.
const A: Class = Class {
    name: "A",
    parents: &[&[Word::Class("P", 0)], &[Word::Class("B", 0)]],
    ..TOP
};

const B: Class = Class {
    name: "B",
    parents: &[&[Word::Class("A", 0)]],
    ..TOP
};

const C: Class = Class {
    name: "C",
    parents: &[&[Word::Class("A", 0)], &[Word::Class("P", 0)]],
    ..TOP
};

static CIRCLES: [Case; 4] = [
    Case {
        class: "Itself",
        known: &[TOP, REF, P, ITSELF],
        cyclic: &[],
        answer: "Itself AnyRef Any",
    },
    Case {
        class: "A",
        known: &[TOP, REF, P, A, B, C],
        cyclic: &[],
        answer: "A AnyRef Any",
    },
    Case {
        class: "B",
        known: &[TOP, REF, P, A, B, C],
        cyclic: &[],
        answer: "B AnyRef Any",
    },
    // C leads to a circle, and does not stand in it
    Case {
        class: "C",
        known: &[TOP, REF, P, A, B, C],
        cyclic: &[],
        answer: "C P A AnyRef Any",
    },
];

#[test]
fn who_reaches_itself_has_the_parent_anyref(rt: HostRuntime) -> Result<(), Fail> {
    agree(&rt, &CIRCLES)
}

static NO_CLASSES: [Case; 2] = [
    Case {
        class: "E",
        known: &[Class {
            name: "E",
            parents: &[&[Word::Error]],
            ..TOP
        }],
        cyclic: &[],
        answer: "E",
    },
    Case {
        class: "E",
        known: &[
            TOP,
            REF,
            P,
            Class {
                name: "E",
                parents: &[&[Word::Error], &[Word::Module("O")], &[Word::Class("P", 0)]],
                ..TOP
            },
        ],
        cyclic: &[],
        answer: "E P AnyRef Any",
    },
];

#[test]
fn a_parent_that_is_no_class_is_followed_by_nothing(rt: HostRuntime) -> Result<(), Fail> {
    agree(&rt, &NO_CLASSES)
}

// Left extends P and leads to nothing that is known; Both extends Left with Right
const LEFT: Class = Class {
    name: "Left",
    parents: &[&[Word::Class("P", 0)]],
    ..TOP
};

const BOTH: Class = Class {
    name: "Both",
    parents: &[&[Word::Class("Left", 0)], &[Word::Class("Right", 0)]],
    ..TOP
};

static FIRST_ITEMS: [Case; 6] = [
    Case {
        class: "Both",
        known: &[],
        cyclic: &[],
        answer: "needs parents Both",
    },
    Case {
        class: "Both",
        known: &[BOTH],
        cyclic: &[],
        answer: "needs parents Left",
    },
    // what the first parent leads to comes before the second parent
    Case {
        class: "Both",
        known: &[BOTH, LEFT],
        cyclic: &["Right"],
        answer: "needs parents P",
    },
    Case {
        class: "Both",
        known: &[BOTH, LEFT],
        cyclic: &["P"],
        answer: "cyclic parents P",
    },
    Case {
        class: "Both",
        known: &[TOP, REF, BOTH, LEFT, P],
        cyclic: &[],
        answer: "needs parents Right",
    },
    Case {
        class: "Both",
        known: &[TOP, REF, BOTH, LEFT, P],
        cyclic: &["Right"],
        answer: "cyclic parents Right",
    },
];

#[test]
fn parents_are_asked_for_depth_first(rt: HostRuntime) -> Result<(), Fail> {
    agree(&rt, &FIRST_ITEMS)
}
