//! Answers and problems, as they are printed.

use super::found::{Definition, Finding, Found, Member, Name, Step, Tree, Type};
use super::sessions::{A, Asked, B, FileName, Happened, Pair, Session, Wanted, agree};
use pc_terms::{Code, SymKind, TreeKind};
use std::process::Abort;
use std::test::Fail;

static CALLS_AND_A_TREE: Session = Session {
    scripts: &[&[Wanted::Call, Wanted::Call, Wanted::Call]],
    events: &[
        Happened::Accept(
            0,
            0,
            1,
            Asked::Reload(&[Pair("A.scala", A), Pair("B.scala", B)]),
        ),
        Happened::Done(0),
        Happened::Accept(1, 0, 2, Asked::TypeAt("A.scala", 19)),
        Happened::Done(1),
        Happened::Accept(
            2,
            0,
            3,
            Asked::Remove(&[FileName("A.scala"), FileName("B.scala")]),
        ),
        Happened::Done(2),
    ],
    answers: &[&[
        Found::Done,
        // a literal, whose type is known and which has no symbol
        Found::Tree(Tree {
            kind: TreeKind::Literal,
            span: (19, 20),
            ty: Some(Type::Int),
            sym: None,
        }),
        Found::Done,
    ]],
    problems: &[],
};

#[test]
fn calls_and_a_tree(rt: HostRuntime) -> Result<(), Fail> {
    agree(
        &rt,
        &CALLS_AND_A_TREE,
        "journal\t6\n\
        0\taccept\t0\t0\t1\treload A.scala 22 B.scala 33\n\
        1\tsettle\t0\tdone\n\
        2\taccept\t1\t0\t2\ttype A.scala 19\n\
        3\tsettle\t1\tdone\n\
        4\taccept\t2\t0\t3\tremove A.scala B.scala\n\
        5\tsettle\t2\tdone\n\
        client\t0\n\
        1\tdone\n\
        2\ttree\tLiteral\t19-20\tInt\t-\n\
        3\tdone\n\
        end\n",
    )
}

static MEMBERS: Session = Session {
    scripts: &[&[Wanted::Call]],
    events: &[
        Happened::Accept(0, 0, 1, Asked::MembersAt("A.scala", 32)),
        Happened::Done(0),
    ],
    answers: &[&[Found::Members(&[
        Member {
            name: "x",
            kind: SymKind::Val,
            ty: Type::Int,
            owner: &[Step(SymKind::Object, "A")],
        },
        Member {
            name: "y",
            kind: SymKind::Val,
            ty: Type::Error,
            owner: &[Step(SymKind::Object, "A")],
        },
        Member {
            name: "area",
            kind: SymKind::Def,
            ty: Type::Int,
            owner: &[Step(SymKind::Package, "geo"), Step(SymKind::Trait, "Shape")],
        },
    ])]],
    problems: &[],
};

#[test]
fn members_are_listed(rt: HostRuntime) -> Result<(), Fail> {
    agree(
        &rt,
        &MEMBERS,
        "journal\t2\n\
        0\taccept\t0\t0\t1\tmembers A.scala 32\n\
        1\tsettle\t0\tdone\n\
        client\t0\n\
        1\tmembers\t3\n\
        \tx\tval\tInt\tA\n\
        \ty\tval\t<error>\tA\n\
        \tarea\tdef\tInt\tgeo.Shape\n\
        end\n",
    )
}

static NAMES: Session = Session {
    scripts: &[&[Wanted::Call]],
    events: &[
        Happened::Accept(0, 0, 1, Asked::ScopeAt("B.scala", 19)),
        Happened::Done(0),
    ],
    answers: &[&[Found::Scope(&[
        Name("a", &[Step(SymKind::Object, "B"), Step(SymKind::Val, "a")]),
        Name("b", &[Step(SymKind::Object, "B"), Step(SymKind::Val, "b")]),
        Name("B", &[Step(SymKind::Object, "B")]),
    ])]],
    problems: &[],
};

#[test]
fn names_in_scope_are_listed(rt: HostRuntime) -> Result<(), Fail> {
    agree(
        &rt,
        &NAMES,
        "journal\t2\n\
        0\taccept\t0\t0\t1\tscope B.scala 19\n\
        1\tsettle\t0\tdone\n\
        client\t0\n\
        1\tscope\t3\n\
        \ta\tval B.a\n\
        \tb\tval B.b\n\
        \tB\tobject B\n\
        end\n",
    )
}

static LINK: Session = Session {
    scripts: &[&[Wanted::Call]],
    events: &[
        Happened::Accept(0, 0, 1, Asked::LinkAt("u.scala", 49)),
        Happened::Done(0),
    ],
    answers: &[&[Found::Link(
        "l.scala",
        (18, 19),
        &[Step(SymKind::Object, "L1"), Step(SymKind::Class, "X")],
    )]],
    problems: &[],
};

#[test]
fn a_definition_is_linked(rt: HostRuntime) -> Result<(), Fail> {
    agree(
        &rt,
        &LINK,
        "journal\t2\n\
        0\taccept\t0\t0\t1\tlink u.scala 49\n\
        1\tsettle\t0\tdone\n\
        client\t0\n\
        1\tlink\tl.scala\t18-19\tclass L1.X\n\
        end\n",
    )
}

static DEFINITIONS: Session = Session {
    scripts: &[&[Wanted::Call]],
    events: &[
        Happened::Accept(0, 0, 1, Asked::Structure("A.scala")),
        Happened::Done(0),
    ],
    answers: &[&[Found::Outline(&[
        Definition(0, TreeKind::ObjectDef, "A", (0, 22)),
        Definition(1, TreeKind::ValDef, "x", (11, 20)),
    ])]],
    problems: &[],
};

#[test]
fn definitions_are_listed(rt: HostRuntime) -> Result<(), Fail> {
    agree(
        &rt,
        &DEFINITIONS,
        "journal\t2\n\
        0\taccept\t0\t0\t1\tstructure A.scala\n\
        1\tsettle\t0\tdone\n\
        client\t0\n\
        1\toutline\t2\n\
        \t0\tObjectDef\tA\t0-22\n\
        \t1\tValDef\tx\t11-20\n\
        end\n",
    )
}

static TYPED: Session = Session {
    scripts: &[&[Wanted::Call]],
    events: &[
        Happened::Accept(0, 0, 1, Asked::LoadedTyped("A.scala")),
        Happened::Done(0),
    ],
    answers: &[&[Found::Typed(
        &[
            Tree {
                kind: TreeKind::ValDef,
                span: (11, 20),
                ty: Some(Type::Int),
                sym: Some(&[Step(SymKind::Object, "A"), Step(SymKind::Val, "x")]),
            },
            Tree {
                kind: TreeKind::ValDef,
                span: (22, 32),
                ty: Some(Type::Error),
                sym: Some(&[Step(SymKind::Object, "A"), Step(SymKind::Val, "y")]),
            },
        ],
        &[Finding(Code::P2, (32, 32), "name expected")],
    )]],
    problems: &[],
};

#[test]
fn a_file_is_typed_with_its_problems(rt: HostRuntime) -> Result<(), Fail> {
    agree(
        &rt,
        &TYPED,
        "journal\t2\n\
        0\taccept\t0\t0\t1\ttyped A.scala\n\
        1\tsettle\t0\tdone\n\
        client\t0\n\
        1\ttyped\t2\t1\n\
        \tValDef\t11-20\tInt\tval A.x\n\
        \tValDef\t22-32\t<error>\tval A.y\n\
        \t32-32\tP2\tname expected\n\
        end\n",
    )
}

static ONE_CALL: [&[Wanted]; 1] = [&[Wanted::Call]];

static AT_THE_START: [Happened; 2] = [
    Happened::Accept(0, 0, 1, Asked::TypeAt("A.scala", 0)),
    Happened::Done(0),
];

/// The one answer of a session, and its line without the number of the call.
type Row = (&'static [&'static [Found]], &'static str);

// An ask at the start of A.scala, with this answer.
fn agree_at_the_start(rt: &(impl Abort + AllocGlobal), row: &Row) -> Result<(), Fail> {
    let (answers, line) = row;
    let session = Session {
        scripts: &ONE_CALL,
        events: &AT_THE_START,
        answers,
        problems: &[],
    };
    let before = "journal\t2\n\
        0\taccept\t0\t0\t1\ttype A.scala 0\n\
        1\tsettle\t0\tdone\n\
        client\t0\n\
        1\t";
    let expected = format!(in rt.alloc(); "{before}{line}\nend\n")?;
    agree(rt, &session, expected.as_str())
}

static WORDS: [Row; 5] = [
    (&[&[Found::NoUnit]], "nounit"),
    (&[&[Found::NoTree]], "notree"),
    (&[&[Found::NoMembers]], "nomembers"),
    (&[&[Found::NoLink]], "nolink"),
    (&[&[Found::Unread]], "unread"),
];

#[test]
fn answers_of_a_word(rt: HostRuntime) -> Result<(), Fail> {
    for row in &WORDS {
        agree_at_the_start(&rt, row)?;
    }
    Ok(())
}

static EMPTY_TREE: Row = (
    &[&[Found::Tree(Tree {
        kind: TreeKind::Unit,
        span: (0, 0),
        ty: None,
        sym: None,
    })]],
    "tree\tUnit\t0-0\t-\t-",
);

#[test]
fn a_tree_without_type_and_symbol(rt: HostRuntime) -> Result<(), Fail> {
    agree_at_the_start(&rt, &EMPTY_TREE)
}

// Two checks with their rows, and a third after the last row.
static CHECKS: Session = Session {
    scripts: &[],
    events: &[
        Happened::Checked("A.scala"),
        Happened::Checked("C.scala"),
        Happened::Checked("D.scala"),
    ],
    answers: &[],
    problems: &[
        &[],
        &[
            Finding(Code::N3, (19, 20), "cyclic definition: val C.b"),
            Finding(Code::N3, (30, 31), "cyclic definition: val C.a"),
        ],
    ],
};

#[test]
fn checks_print_their_problems(rt: HostRuntime) -> Result<(), Fail> {
    agree(
        &rt,
        &CHECKS,
        "journal\t3\n\
        0\tchecked\tA.scala\t0\n\
        1\tchecked\tC.scala\t2\n\
        \t19-20\tN3\tcyclic definition: val C.b\n\
        \t30-31\tN3\tcyclic definition: val C.a\n\
        2\tchecked\tD.scala\t0\n\
        end\n",
    )
}
