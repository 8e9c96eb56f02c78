//! Whole units: package clauses, imports, brackets, literals, and what a statement of a unit is. The expected trees and
//! problems were worked out from the grammar of the language.

use crate::notation::shown;
use std::alloc::Global;
use std::process::Abort;
use std::test::Fail;

/// A text, and its unit: what its trees mean, and the problems.
pub type Row = (&'static str, &'static str);

static SMALLEST: [Row; 10] = [
    ("", ""),
    (";", ""),
    ("\n\n", ""),
    ("; ;\n;", ""),
    ("// a", ""),
    ("x", "Broken ! P1 0-1"),
    ("class A", "ClassDef A"),
    ("class A\r\nclass B\r\n", "ClassDef A; ClassDef B"),
    ("object A { val é = 1 }", "ObjectDef A[ValDef é=[1]]"),
    ("\r\n;\r\n", ""),
];

static PACKAGES: [Row; 17] = [
    ("package a", "Broken ! P1 0-9"),
    ("package a\n", "Broken ! P1 0-9"),
    ("package a;", "Package a"),
    ("package a\nclass B", "Package a; ClassDef B"),
    (
        "package a.b\npackage c; object D",
        "Package a.b; Package c; ObjectDef D",
    ),
    (
        "package a;; package b\n;\nclass C",
        "Package a; Package b; ClassDef C",
    ),
    ("package a class C", "Broken ! P1 0-17"),
    ("; package a; class C", "Broken; ClassDef C ! P1 2-11"),
    (
        "class C; package a; class D",
        "ClassDef C; Broken; ClassDef D ! P1 9-18",
    ),
    ("package `a b`.c; class D", "Package a b.c; ClassDef D"),
    ("package a.; class B", "Broken; ClassDef B ! P1 0-10"),
    ("package; class B", "Broken; ClassDef B ! P1 0-7"),
    ("package a\npackage b", "Package a; Broken ! P1 10-19"),
    (
        "package a\n\npackage b\nclass C",
        "Package a; Package b; ClassDef C",
    ),
    ("package a { class B }", "Broken ! P1 0-21"),
    ("package object a; class B", "Broken; ClassDef B ! P1 0-16"),
    ("package a.\nb; class C", "Package a.b; ClassDef C"),
];

static IMPORTS: [Row; 20] = [
    ("import a.b", "Import a.{b}"),
    ("import a._", "Import a.{_}"),
    ("import a.b.c, d._", "Import a.b.{c} d.{_}"),
    ("import a.{b}", "Import a.{b}"),
    ("import a.{b => c, d => _, _}", "Import a.{b=>c, d=>_, _}"),
    (
        "import a.{b, c}, d.e\nclass F",
        "Import a.{b, c} d.{e}; ClassDef F",
    ),
    ("import a.{_, b}", "Broken ! P1 0-15"),
    ("import a", "Broken ! P1 0-8"),
    ("import a.{}; class B", "Broken; ClassDef B ! P1 0-11"),
    ("import a.b.; class C", "Broken; ClassDef C ! P1 0-11"),
    ("import a.b,; class C", "Broken; ClassDef C ! P1 0-11"),
    ("import a.{b => c => d}", "Broken ! P1 0-22"),
    (
        "object A { import a.b; import c._ }",
        "ObjectDef A[Import a.{b}, Import c.{_}]",
    ),
    (
        "import `a b`.c, d.{e => `f g`}",
        "Import a b.{c} d.{e=>f g}",
    ),
    ("import a.\nb\n.c", "Import a.b.{c}"),
    ("import a.{b,}", "Broken ! P1 0-13"),
    ("import a.{_ => b}", "Broken ! P1 0-17"),
    ("import a.this.b", "Broken ! P1 0-15"),
    ("import a._.b", "Broken ! P1 0-12"),
    ("import; class A", "Broken; ClassDef A ! P1 0-6"),
];

// statements of a unit, with and without separators between them
static STATEMENTS: [Row; 13] = [
    ("class A class B", "Broken ! P1 0-15"),
    ("class A\nclass B", "ClassDef A; ClassDef B"),
    ("class A; ; class B;", "ClassDef A; ClassDef B"),
    ("val x = 1; class A", "Broken; ClassDef A ! P1 0-9"),
    (
        "1; def f = 2; class A",
        "Broken; Broken; ClassDef A ! P1 0-1 ! P1 3-12",
    ),
    ("x { y; z } w; class A", "Broken; ClassDef A ! P1 0-12"),
    ("x (y; z) w; class A", "Broken; ClassDef A ! P1 0-10"),
    ("x { y\nz }\nclass A", "Broken; ClassDef A ! P1 0-9"),
    ("class A { } { }", "Broken ! P1 0-15"),
    ("class A { }\n{ }", "ClassDef A; Broken ! P1 12-15"),
    ("type T = A; class B", "Broken; ClassDef B ! P1 0-10"),
    ("class A { } val; class B", "Broken; ClassDef B ! P1 0-15"),
    ("def f = 1\nimport a.b", "Broken; Import a.{b} ! P1 0-9"),
];

static BRACKETS: [Row; 11] = [
    ("object A { val x = 1", " ! P3 9-10"),
    ("object A { ) }", " ! P3 11-12"),
    ("object A ( }", " ! P3 11-12"),
    ("( [ {", " ! P3 0-1"),
    ("} {", " ! P3 0-1"),
    ("class A { ( ) ] ", " ! P3 14-15"),
    ("class A { } ( [ ]", " ! P3 12-13"),
    ("object A { val x = \"a }", " ! P3 9-10 ! S2 19-23"),
    ("object A { '( }", " ! S2 11-12 ! P3 14-15"),
    (
        "object A { val x = \"(\"; /* [ */ }",
        "ObjectDef A[ValDef x=[\"(\"]]",
    ),
    ("object A { ]", " ! P3 11-12"),
];

static LITERALS: [Row; 8] = [
    (
        "object M { val m = -2147483648; val n = 2147483648 }",
        "ObjectDef M[ValDef m=[-2147483648], ValDef n=[2147483648]] ! P5 40-50",
    ),
    (
        "object M { val m = - 2147483648; val n = 2147483647 }",
        "ObjectDef M[ValDef m=[-2147483648], ValDef n=[2147483647]]",
    ),
    (
        "object M { val a = 0xFFFFFFFF; val b = 0x100000000; val c = 0x0000000001 }",
        "ObjectDef M[ValDef a=[0xFFFFFFFF], ValDef b=[0x100000000], ValDef c=[0x0000000001]] ! P5 39-50",
    ),
    (
        "object M { val a = 9223372036854775807L; val b = 9223372036854775808L; val c = -9223372036854775808L }",
        "ObjectDef M[ValDef a=[9223372036854775807L], ValDef b=[9223372036854775808L], \
         ValDef c=[-9223372036854775808L]] ! P5 49-69",
    ),
    (
        "object M { val a = 0xFFFFFFFFFFFFFFFFL; val b = 0x10000000000000000L }",
        "ObjectDef M[ValDef a=[0xFFFFFFFFFFFFFFFFL], ValDef b=[0x10000000000000000L]] ! P5 48-68",
    ),
    (
        "object M { val a = x match { case -2147483649 => 1 } }",
        "ObjectDef M[ValDef a=[Match[x, Case case[LitPat -2147483649, 1]]]] ! P5 34-45",
    ),
    (
        "object M { val a = (2147483648).x; val b = -(2147483648) }",
        "ObjectDef M[ValDef a=[2147483648.x], ValDef b=[2147483648.unary_-]] ! P5 20-30 ! P5 45-55",
    ),
    (
        "object M { val = 2147483648 }",
        "ObjectDef M[Broken] ! P1 11-27",
    ),
];

static PROBLEMS: [Row; 6] = [
    (
        "object A { val x = 1; val = 3; val y = x }",
        "ObjectDef A[ValDef x=[1], Broken, ValDef y=[x]] ! P1 22-29",
    ),
    (
        "object A { val x = 1; val y = A. }",
        "ObjectDef A[ValDef x=[1], ValDef y=[A.?]] ! P2 32-32",
    ),
    (
        "object A { a.; b.; 3000000000 }",
        "ObjectDef A[a.?, b.?, 3000000000] ! P2 13-13 ! P2 17-17 ! P5 19-29",
    ),
    (
        "object A { b :: a. :: 3000000000 }",
        "ObjectDef A[Broken] ! P1 11-32",
    ),
    (
        "object A { val x = '; val y = 007 }",
        "ObjectDef A[Broken, Broken] ! P1 11-20 ! S2 19-20 ! P1 22-33 ! S4 30-33",
    ),
    ("object A { a.\n}", "ObjectDef A[a.?] ! P2 13-13"),
];

fn agree(rt: &impl Abort, alloc: Global, rows: &[Row]) -> Result<(), Fail> {
    for (source, want) in rows {
        let text = shown(rt, alloc, source, false)?;
        assert_eq!(rt; text.as_str(), *want, "{source}");
    }
    Ok(())
}

#[test]
fn the_smallest_units(rt: HostRuntime) -> Result<(), Fail> {
    agree(&rt, rt.alloc(), &SMALLEST)
}

#[test]
fn package_clauses(rt: HostRuntime) -> Result<(), Fail> {
    agree(&rt, rt.alloc(), &PACKAGES)
}

#[test]
fn imports_with_each_selector(rt: HostRuntime) -> Result<(), Fail> {
    agree(&rt, rt.alloc(), &IMPORTS)
}

#[test]
fn statements_of_a_unit(rt: HostRuntime) -> Result<(), Fail> {
    agree(&rt, rt.alloc(), &STATEMENTS)
}

#[test]
fn unbalanced_brackets(rt: HostRuntime) -> Result<(), Fail> {
    agree(&rt, rt.alloc(), &BRACKETS)
}

#[test]
fn literals_out_of_range(rt: HostRuntime) -> Result<(), Fail> {
    agree(&rt, rt.alloc(), &LITERALS)
}

#[test]
fn problems_in_order(rt: HostRuntime) -> Result<(), Fail> {
    agree(&rt, rt.alloc(), &PROBLEMS)
}

static PLACES: [Row; 8] = [
    (
        "package a.b\nclass C(val x: Int)",
        "Package a.b 0-11@8-11; ClassDef C 12-31@18-19(Param x 20-30@24-25(TypeIdent Int 27-30))",
    ),
    ("@a private final class B { }", "ClassDef B 17-28@23-24"),
    (
        "class A(private val x: Int)",
        "ClassDef A 0-27@6-7(Param x 8-26@20-21(TypeIdent Int 23-26))",
    ),
    (
        "object O { def f { a } }",
        "ObjectDef O 0-24@7-8(DefDef f 11-22@15-16(Block 17-22(Ident a 19-20)))",
    ),
    (
        "import a.b, c._; class D",
        "Import 0-15; ClassDef D 17-24@23-24",
    ),
    (
        "object M { val m = -2147483648 }",
        "ObjectDef M 0-32@7-8(ValDef m 11-30@15-16(Literal -2147483648 19-30))",
    ),
    (
        "object D {\n  val c = true\n  val r = if (c)\n    1\n  else 2\n}",
        "ObjectDef D 0-59@7-8(ValDef c 13-25@17-18(Literal true 21-25), ValDef r 28-57@32-33(If 36-57(Ident c 40-41, \
         Literal 1 47-48, Literal 2 56-57)))",
    ),
    (
        "class `A b`[T] extends B(1) with C { final def f: T }",
        "ClassDef A b 0-53@6-11(TypeParam T 12-13, TypeIdent B 23-24, Literal 1 25-26, TypeIdent C 33-34, \
         DefDef f 43-51@47-48(TypeIdent T 50-51))",
    ),
];

#[test]
fn where_trees_stand(rt: HostRuntime) -> Result<(), Fail> {
    for (source, want) in &PLACES {
        let text = shown(&rt, rt.alloc(), source, true)?;
        assert_eq!(rt; text.as_str(), *want, "{source}");
    }
    Ok(())
}
