//! What a table has. The definitions, items and problems were worked out from the rules of the language.

ghost use Rattle.std.specs.Prelude.{◌≡◌, ◌≤◌, length, IfOk};
ghost use Rattle.symbol_table.specs.Tables.{file_problems};

use crate::printing;
use crate::sources::{Node, source};
use pc_terms::{NoMemory, Text, TreeKind};
use positioned_trees::SourceUnit;
use std::alloc::Global;
use std::process::Abort;
use std::test::Fail;
use symbol_table::{Loaded, Table, enter};

type File = (&'static str, &'static [Node]);

fn units(
    rt: &(impl Abort + AllocGlobal),
    files: &[File],
) -> Result<Vec<(Text, SourceUnit)>, NoMemory>
    ensures { IfOk result (λ units. length units.items ≡ length files.now) }
{
    let alloc = rt.alloc();
    let mut units = Vec::new(alloc);
    for file in files {
        let (name, nodes) = *file;
        let unit = source(alloc, nodes)?.expect(rt, "a tree");
        units.push((Text::new(alloc, name)?, unit))?;
    }
    Ok(units)
}

fn entered(alloc: Global, units: &[(Text, SourceUnit)]) -> Result<Table, NoMemory>
    ensures { IfOk result (λ table. length (file_problems table) ≡ length units.now) }
{
    let mut loaded = Vec::new(alloc);
    for source in units {
        let (name, unit) = source;
        loaded.push(Loaded { name, unit })?;
    }
    enter(alloc, loaded.as_slice())
}

fn told(alloc: Global, table: &Table, files: u32) -> Result<String, NoMemory>
    requires { files ≤ length (file_problems table.now) }
{
    let mut text = String::new(alloc);
    for file in 0..files {
        for problem in table.problems(file) {
            let start = problem.span.start;
            let what = problem.text.as_str();
            let line = format!(in alloc; "{file}:{start} {what}\n")?;
            text.push_str(line.as_str())?;
        }
    }
    Ok(text)
}

fn has_definitions(
    rt: &(impl Abort + AllocGlobal),
    files: &[File],
    expected: &str,
) -> Result<(), Fail> {
    let units = units(rt, files)?;
    let table = entered(rt.alloc(), units.as_slice())?;
    let found = printing::definitions(rt.alloc(), &table)?;
    assert_eq!(rt; found.as_str(), expected);
    Ok(())
}

fn has_items(rt: &(impl Abort + AllocGlobal), files: &[File], expected: &str) -> Result<(), Fail> {
    let units = units(rt, files)?;
    let table = entered(rt.alloc(), units.as_slice())?;
    let found = printing::items(rt.alloc(), &table)?;
    assert_eq!(rt; found.as_str(), expected);
    Ok(())
}

fn has_problems(
    rt: &(impl Abort + AllocGlobal),
    files: &[File],
    expected: &str,
) -> Result<(), Fail> {
    let units = units(rt, files)?;
    let table = entered(rt.alloc(), units.as_slice())?;
    let count = u32::try_from(files.len()).unwrap_or(0);
    let found = told(rt.alloc(), &table, count)?;
    assert_eq!(rt; found.as_str(), expected);
    Ok(())
}

static NOTHING: [Node; 1] = [(0, TreeKind::Unit, "", "")];

// object A { def f[T](a) = ..; private val x = ..; def f; abstract class f[T](p, val q, var r) { def f = .. } }; sealed trait A
static OWNERS: [Node; 14] = [
    (0, TreeKind::Unit, "", ""),
    (1, TreeKind::ObjectDef, "A", ""),
    (2, TreeKind::DefDef, "f", ""),
    (3, TreeKind::TypeParam, "T", ""),
    (3, TreeKind::Param, "a", ""),
    (2, TreeKind::ValDef, "x", "private"),
    (2, TreeKind::DefDef, "f", "dcl"),
    (2, TreeKind::ClassDef, "f", "abstract"),
    (3, TreeKind::TypeParam, "T", ""),
    (3, TreeKind::Param, "p", ""),
    (3, TreeKind::Param, "q", "val"),
    (3, TreeKind::Param, "r", "var"),
    (3, TreeKind::DefDef, "f", ""),
    (1, TreeKind::TraitDef, "A", "sealed"),
];

#[test]
fn each_owner_has_its_own_by_name_space_and_ordinal(rt: HostRuntime) -> Result<(), Fail> {
    has_definitions(
        &rt,
        &[("<prelude>", NOTHING.as_slice()), ("a", OWNERS.as_slice())],
        "object A 1:1\n\
         def A.f 1:2\n\
         tparam A.f.T 1:3\n\
         param A.f.a 1:4\n\
         def A.f~1 1:6 abstract\n\
         class A.f 1:7 abstract\n\
         tparam A.f#T 1:8\n\
         def A.f#f 1:12\n\
         val A.f#p 1:9 private\n\
         val A.f#q 1:10\n\
         var A.f#r 1:11\n\
         val A.x 1:5 private\n\
         trait A 1:13 sealed\n",
    )
}

// package p; object A { val x; def x; val x }; class A(a, a) { def a }
static FIRST: [Node; 10] = [
    (0, TreeKind::Unit, "", ""),
    (1, TreeKind::Package, "p", ""),
    (1, TreeKind::ObjectDef, "A", ""),
    (2, TreeKind::ValDef, "x", ""),
    (2, TreeKind::DefDef, "x", ""),
    (2, TreeKind::ValDef, "x", ""),
    (1, TreeKind::ClassDef, "A", ""),
    (2, TreeKind::Param, "a", ""),
    (2, TreeKind::Param, "a", ""),
    (2, TreeKind::DefDef, "a", ""),
];

// package p; object A { val y }; trait A; object B
static SECOND: [Node; 6] = [
    (0, TreeKind::Unit, "", ""),
    (1, TreeKind::Package, "p", ""),
    (1, TreeKind::ObjectDef, "A", ""),
    (2, TreeKind::ValDef, "y", ""),
    (1, TreeKind::TraitDef, "A", ""),
    (1, TreeKind::ObjectDef, "B", ""),
];

// package p.q; object A
static THIRD: [Node; 3] = [
    (0, TreeKind::Unit, "", ""),
    (1, TreeKind::Package, "p.q", ""),
    (1, TreeKind::ObjectDef, "A", ""),
];

#[test]
fn a_second_definition_defines_nothing(rt: HostRuntime) -> Result<(), Fail> {
    let files = [
        ("<prelude>", NOTHING.as_slice()),
        ("a", FIRST.as_slice()),
        ("b", SECOND.as_slice()),
        ("c", THIRD.as_slice()),
    ];
    has_definitions(
        &rt,
        &files,
        "package p 1:1\n\
         object p.A 1:2\n\
         val p.A.x 1:3\n\
         class p.A 1:6\n\
         val p.A#a 1:7 private\n\
         object p.B 2:5\n\
         package p.q 3:1\n\
         object p.q.A 3:2\n",
    )?;
    has_problems(
        &rt,
        &files,
        "1:4 double definition: x\n\
         1:5 double definition: x\n\
         1:8 double definition: a\n\
         1:9 double definition: a\n\
         2:2 double definition: A\n\
         2:4 double definition: A\n",
    )
}

// class C { object O { val x; class E }; val ok }; trait T { case class U }
static MISPLACED: [Node; 8] = [
    (0, TreeKind::Unit, "", ""),
    (1, TreeKind::ClassDef, "C", ""),
    (2, TreeKind::ObjectDef, "O", ""),
    (3, TreeKind::ValDef, "x", ""),
    (3, TreeKind::ClassDef, "E", ""),
    (2, TreeKind::ValDef, "ok", ""),
    (1, TreeKind::TraitDef, "T", ""),
    (2, TreeKind::ClassDef, "U", "case"),
];

#[test]
fn no_template_stands_in_a_class_or_trait(rt: HostRuntime) -> Result<(), Fail> {
    let files = [
        ("<prelude>", NOTHING.as_slice()),
        ("a", MISPLACED.as_slice()),
    ];
    has_definitions(&rt, &files, "class C 1:1\nval C#ok 1:5\ntrait T 1:6\n")?;
    has_problems(
        &rt,
        &files,
        "1:2 definition not allowed here\n1:7 definition not allowed here\n",
    )
}

// case class A(x); object B { def apply; def apply }; case class B; case class D; object D { val apply }; case class E;
// object O { case class G; def G }
static CASES: [Node; 14] = [
    (0, TreeKind::Unit, "", ""),
    (1, TreeKind::ClassDef, "A", "case"),
    (2, TreeKind::Param, "x", ""),
    (1, TreeKind::ObjectDef, "B", ""),
    (2, TreeKind::DefDef, "apply", ""),
    (2, TreeKind::DefDef, "apply", ""),
    (1, TreeKind::ClassDef, "B", "case"),
    (1, TreeKind::ClassDef, "D", "case"),
    (1, TreeKind::ObjectDef, "D", ""),
    (2, TreeKind::ValDef, "apply", ""),
    (1, TreeKind::ClassDef, "E", "case"),
    (1, TreeKind::ObjectDef, "O", ""),
    (2, TreeKind::ClassDef, "G", "case"),
    (2, TreeKind::DefDef, "G", ""),
];

// object E
static ELSEWHERE: [Node; 2] = [
    (0, TreeKind::Unit, "", ""),
    (1, TreeKind::ObjectDef, "E", ""),
];

#[test]
fn a_case_class_adds_a_companion_and_an_apply(rt: HostRuntime) -> Result<(), Fail> {
    let files = [
        ("<prelude>", NOTHING.as_slice()),
        ("a", CASES.as_slice()),
        ("b", ELSEWHERE.as_slice()),
    ];
    has_definitions(
        &rt,
        &files,
        "object A 1:1\n\
         def A.apply 1:1\n\
         class A 1:1 case\n\
         val A#x 1:2\n\
         object B 1:3\n\
         def B.apply 1:4\n\
         def B.apply~1 1:5\n\
         def B.apply~2 1:6\n\
         class B 1:6 case\n\
         object D 1:8\n\
         val D.apply 1:9\n\
         class D 1:7 case\n\
         object E 2:1\n\
         class E 1:10 case\n\
         object O 1:11\n\
         def O.G 1:13\n\
         class O.G 1:12 case\n",
    )?;
    has_problems(&rt, &files, "1:7 double definition: apply\n")?;
    has_items(
        &rt,
        &files,
        "parents class A\nsignature class A\nsignature val A#x\n\
         parents object B\nsignature object B\nsignature def B.apply\nsignature def B.apply~1\n\
         parents class B\nsignature class B\n\
         parents class D\nsignature class D\n\
         parents object D\nsignature object D\nsignature val D.apply\n\
         parents class E\nsignature class E\n\
         parents object O\nsignature object O\n\
         parents class O.G\nsignature class O.G\nsignature def O.G\n\
         parents object E\nsignature object E\n\
         parents object A\nsignature object A\nsignature def A.apply\n\
         signature def B.apply~2\n",
    )
}

// object a { case class apply }; case class a
static TWICE_ADDED: [Node; 4] = [
    (0, TreeKind::Unit, "", ""),
    (1, TreeKind::ObjectDef, "a", ""),
    (2, TreeKind::ClassDef, "apply", "case"),
    (1, TreeKind::ClassDef, "a", "case"),
];

#[test]
fn a_companion_named_apply_stands_before_an_added_apply(rt: HostRuntime) -> Result<(), Fail> {
    let files = [
        ("<prelude>", NOTHING.as_slice()),
        ("a", TWICE_ADDED.as_slice()),
    ];
    has_definitions(
        &rt,
        &files,
        "object a 1:1\n\
         object a.apply 1:2\n\
         def a.apply.apply 1:2\n\
         class a.apply 1:2 case\n\
         class a 1:3 case\n",
    )?;
    has_problems(&rt, &files, "1:3 double definition: apply\n")
}

// case class geo
static IN_NO_PACKAGE: [Node; 2] = [
    (0, TreeKind::Unit, "", ""),
    (1, TreeKind::ClassDef, "geo", "case"),
];

// package geo; package b
static IN_PACKAGES: [Node; 4] = [
    (0, TreeKind::Unit, "", ""),
    (1, TreeKind::Package, "geo", ""),
    (1, TreeKind::Package, "b", ""),
    (1, TreeKind::ObjectDef, "A", ""),
];

// package geo; case class b
static BESIDE_A_PACKAGE: [Node; 3] = [
    (0, TreeKind::Unit, "", ""),
    (1, TreeKind::Package, "geo", ""),
    (1, TreeKind::ClassDef, "b", "case"),
];

#[test]
fn a_package_of_the_root_is_no_term_of_the_empty_package(rt: HostRuntime) -> Result<(), Fail> {
    has_definitions(
        &rt,
        &[
            ("<prelude>", NOTHING.as_slice()),
            ("a", IN_NO_PACKAGE.as_slice()),
            ("b", IN_PACKAGES.as_slice()),
            ("c", BESIDE_A_PACKAGE.as_slice()),
        ],
        "package geo 2:1\n\
         package geo.b 2:2\n\
         object geo.b.A 2:3\n\
         class geo.b 3:2 case\n\
         object geo 1:1\n\
         def geo.apply 1:1\n\
         class geo 1:1 case\n",
    )
}

// package scala; abstract class Any { def m }
static PRELUDE: [Node; 4] = [
    (0, TreeKind::Unit, "", ""),
    (1, TreeKind::Package, "scala", ""),
    (1, TreeKind::ClassDef, "Any", "abstract"),
    (2, TreeKind::DefDef, "m", "dcl"),
];

// import ..; object A { import ..; def f = { import ..; val v = .. }; val f = { import .. } }
static IMPORTS: [Node; 11] = [
    (0, TreeKind::Unit, "", ""),
    (1, TreeKind::Import, "", ""),
    (1, TreeKind::ObjectDef, "A", ""),
    (2, TreeKind::Import, "", ""),
    (2, TreeKind::DefDef, "f", ""),
    (3, TreeKind::Block, "", ""),
    (4, TreeKind::Import, "", ""),
    (4, TreeKind::ValDef, "v", ""),
    (2, TreeKind::ValDef, "f", ""),
    (3, TreeKind::Block, "", ""),
    (4, TreeKind::Import, "", ""),
];

#[test]
fn imports_are_items_but_in_what_defines_nothing(rt: HostRuntime) -> Result<(), Fail> {
    let files = [("<prelude>", PRELUDE.as_slice()), ("a", IMPORTS.as_slice())];
    has_definitions(
        &rt,
        &files,
        "object A 1:2\n\
         def A.f 1:4\n\
         package scala 0:1 prelude\n\
         class Any 0:2 abstract prelude\n\
         def Any#m 0:3 prelude\n",
    )?;
    has_items(
        &rt,
        &files,
        "parents class Any\nsignature class Any\nsignature def Any#m\n\
         parents object A\nsignature object A\nsignature def A.f\n\
         qualifier a 1\nqualifier a 3\nqualifier a 6\n",
    )?;
    has_problems(&rt, &files, "1:8 double definition: f\n")
}

#[test]
fn nothing_is_defined_where_nothing_is_written(rt: HostRuntime) -> Result<(), Fail> {
    has_definitions(&rt, &[], "")?;
    has_items(&rt, &[("<prelude>", NOTHING.as_slice())], "")?;
    has_problems(&rt, &[("<prelude>", NOTHING.as_slice())], "")
}
