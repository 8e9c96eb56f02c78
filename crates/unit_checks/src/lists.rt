//! The statements of templates and of the blocks of `def`s, and what is none.

use crate::notation::shown;
use crate::units::Row;
use std::alloc::Global;
use std::process::Abort;
use std::test::Fail;

static DEFINITIONS: [Row; 14] = [
    (
        "object O { val x: Int = 1; var y = 2; lazy val z = 3; def f[T](a: A)(b: B): C = d }",
        "ObjectDef O[ValDef x:=[Int, 1], VarDef y=[2], LazyDef z=[3], \
         DefDef f<1>(1)(1):=[TypeParam T, Param a[A], Param b[B], C, d]]",
    ),
    (
        "object O { def f() = 1; def g(a: A, b: B) { 1 } }",
        "ObjectDef O[DefDef f(0)=[1], DefDef g(2){}[Param a[A], Param b[B], {1}]]",
    ),
    (
        "object O { def +(x: A): B = x; def unary_- : C = y }",
        "ObjectDef O[DefDef +(1):=[Param x[A], B, x], DefDef unary_-:=[C, y]]",
    ),
    (
        "object O { type T = A => B; type U = (A, B) }",
        "ObjectDef O[AliasDef T[FunType[A, B]], AliasDef U[TupleType[A, B]]]",
    ),
    (
        "object O { def f\n(a: A)\n(b: B) = c }",
        "ObjectDef O[DefDef f(1)(1)=[Param a[A], Param b[B], c]]",
    ),
    (
        "object O { val x: Int => Int = 1 }",
        "ObjectDef O[ValDef x:=[FunType[Int, Int], 1]]",
    ),
    (
        "object O { f(x); if (a) b else c; a = 1; x => y }",
        "ObjectDef O[f(x), If[a, b, c], Assign[a, 1], (x => y)]",
    ),
    (
        "object O { if (a) b; else c; d }",
        "ObjectDef O[If[a, b, c], d]",
    ),
    (
        "object D {\n  val c = true\n  val r = if (c)\n    1\n  else 2\n}",
        "ObjectDef D[ValDef c=[true], ValDef r=[If[c, 1, 2]]]",
    ),
    (
        "object O { def f()(): A = b }",
        "ObjectDef O[DefDef f(0)(0):=[A, b]]",
    ),
    (
        "object O { def f[T >: A <: B, +C](x: T) = d }",
        "ObjectDef O[DefDef f<2>(1)=[TypeParam T>:<:[A, B], TypeParam C+, Param x[T], d]]",
    ),
    (
        "object O { val\nx: A\n= 1; type T\n= B }",
        "ObjectDef O[ValDef x:=[A, 1], AliasDef T[B]]",
    ),
    (
        "object O { def f\n\n(a) = b }",
        "ObjectDef O[DefDef f, Broken] ! P1 18-25",
    ),
    (
        "object O { val (a, b) = c; def this(x: A) = b }",
        "ObjectDef O[Broken, Broken] ! P1 11-25 ! P1 27-45",
    ),
];

static DECLARATIONS: [Row; 9] = [
    (
        "trait A { val x: Int; var y: B; def f; def g(a: A)(b: B*): C; lazy val z: D; def h[T] }",
        "TraitDef A[ValDef x:[Int], VarDef y:[B], DefDef f, DefDef g(1)(1):[Param a[A], Param b*[B], C], \
         LazyDef z:[D], DefDef h<1>[TypeParam T]]",
    ),
    ("trait A { val x }", "TraitDef A[Broken] ! P1 10-15"),
    ("trait A { type T }", "TraitDef A[Broken] ! P1 10-16"),
    (
        "trait A { type\nT = B }",
        "TraitDef A[Broken, Assign[T, B]] ! P1 10-14",
    ),
    (
        "object O { def f: Int\nfoo { x } }",
        "ObjectDef O[DefDef f:[Int], foo({x})]",
    ),
    (
        "object O { def f: Int { x } }",
        "ObjectDef O[Broken] ! P1 11-27",
    ),
    (
        "object O { val x = { def f: Int; 1 } }",
        "ObjectDef O[ValDef x=[{Broken; 1}]] ! P1 21-31",
    ),
    (
        "trait A { val x, y: B; def f(x: A)(y: B) C }",
        "TraitDef A[Broken, Broken] ! P1 10-21 ! P1 23-42",
    ),
    ("trait A { def f: }", "TraitDef A[Broken] ! P1 10-16"),
];

// the blocks of `def`s without `=`
static PROCEDURES: [Row; 14] = [
    ("object O { def f { x } }", "ObjectDef O[DefDef f{}[{x}]]"),
    ("object O { def f\n{ x } }", "ObjectDef O[DefDef f{}[{x}]]"),
    (
        "object O { def f(a: A)\n{ x } }",
        "ObjectDef O[DefDef f(1){}[Param a[A], {x}]]",
    ),
    ("object O { def f\n\n{ x } }", "ObjectDef O[DefDef f, {x}]"),
    (
        "object O { def f\n{ x } y z }",
        "ObjectDef O[DefDef f, {x}.y(z)]",
    ),
    (
        "object O { def f { case x => y } }",
        "ObjectDef O[Broken] ! P1 11-32",
    ),
    (
        "object O { def f\n{ case x => y } }",
        "ObjectDef O[DefDef f, CaseFunction[Case case[Bind x, y]]]",
    ),
    (
        "object O { def f { a => b } }",
        "ObjectDef O[DefDef f{}[(a => {b})]]",
    ),
    (
        "object O { def f { (a, b) => c; _ } }",
        "ObjectDef O[DefDef f{}[(a, b => {c; Broken})]] ! P1 32-33",
    ),
    (
        "object O { def f { _ } }",
        "ObjectDef O[DefDef f{}[{Broken}]] ! P1 19-20",
    ),
    (
        "object O { def f { def g { _ } } }",
        "ObjectDef O[DefDef f{}[{DefDef g{}[{Broken}]}]] ! P1 27-28",
    ),
    (
        "object O { def f { val x = _; 1 } }",
        "ObjectDef O[DefDef f{}[{Broken; 1}]] ! P1 19-28",
    ),
    (
        "object O { def f { class A; 1 } }",
        "ObjectDef O[DefDef f{}[{Broken; 1}]] ! P1 19-26",
    ),
    (
        "object O { val f = { def g { _ }; 1 } }",
        "ObjectDef O[ValDef f=[(_ => {DefDef g{}[{_}]; 1})]]",
    ),
];

// placeholders that no expression binds, and those that one does
static PLACEHOLDERS: [Row; 8] = [
    ("object O { val x = _ }", "ObjectDef O[Broken] ! P1 11-20"),
    ("object O { _ }", "ObjectDef O[Broken] ! P1 11-12"),
    ("object O { _ + 1 }", "ObjectDef O[(_ => _.+(1))]"),
    (
        "object O { def f = { _ } }",
        "ObjectDef O[DefDef f=[(_ => {_})]]",
    ),
    (
        "object O { def f\n(x: Int) = _ }",
        "ObjectDef O[DefDef f, Broken] ! P1 17-29",
    ),
    (
        "object O { @a\nval x = _; y }",
        "ObjectDef O[Broken, Broken, y] ! P1 11-13 ! P1 14-23",
    ),
    (
        "object O { var x: A = _; def f: A = _ }",
        "ObjectDef O[Broken, Broken] ! P1 11-23 ! P1 25-37",
    ),
    (
        "object O { f { val x = _; x } }",
        "ObjectDef O[(_ => f({ValDef x=[_]; x}))]",
    ),
];

static BROKEN: [Row; 17] = [
    (
        "object O { a b c d; e }",
        "ObjectDef O[Broken, e] ! P1 11-18",
    ),
    (
        "object O { x match { y }; z }",
        "ObjectDef O[Broken, z] ! P1 11-24",
    ),
    (
        "object O { package a; b }",
        "ObjectDef O[Broken, b] ! P1 11-20",
    ),
    ("object O { case x => 1 }", "ObjectDef O[Broken] ! P1 11-22"),
    (
        "object O { val x = { class A; 1 } }",
        "ObjectDef O[ValDef x=[{Broken; 1}]] ! P1 21-28",
    ),
    (
        "object O { foo bar (a; b) baz; c }",
        "ObjectDef O[Broken, c] ! P1 11-29",
    ),
    (
        "object O { foo bar [a; b] baz\nc }",
        "ObjectDef O[Broken, c] ! P1 11-29",
    ),
    (
        "object O { foo bar { a; b } baz; c }",
        "ObjectDef O[Broken, c] ! P1 11-31",
    ),
    (
        "object O { new A\n{ x } y }",
        "ObjectDef O[New[A], Broken] ! P1 17-24",
    ),
    (
        "object O { val x = 1 val y = 2\nz }",
        "ObjectDef O[Broken, z] ! P1 11-30",
    ),
    (
        "object O { implicit val x = 1; macro; a }",
        "ObjectDef O[Broken, Broken, a] ! P1 11-29 ! P1 31-36",
    ),
    (
        "object O { a; # b; c }",
        "ObjectDef O[a, Broken, c] ! P1 14-17",
    ),
    (
        "object O { f({ a b; c }) }",
        "ObjectDef O[f({Broken; c})] ! P1 15-18",
    ),
    (
        "object O { a match { case b => c d; e case f => g h } }",
        "ObjectDef O[Match[a, Case case[Bind b, Broken, e], Case case[Bind f, Broken]]] ! P1 31-34 ! P1 48-51",
    ),
    (
        "object O { a match { case b => case class C } }",
        "ObjectDef O[Match[a, Case case[Bind b, Broken]]] ! P1 31-43",
    ),
    (
        "object O { { case class A } }",
        "ObjectDef O[Broken] ! P1 11-27",
    ),
    (
        "object O { { val x: A; y } }",
        "ObjectDef O[{Broken; y}] ! P1 13-21",
    ),
];

fn agree(rt: &impl Abort, alloc: Global, rows: &[Row]) -> Result<(), Fail> {
    for (source, want) in rows {
        let text = shown(rt, alloc, source, false)?;
        assert_eq!(rt; text.as_str(), *want, "{source}");
    }
    Ok(())
}

#[test]
fn definitions(rt: HostRuntime) -> Result<(), Fail> {
    agree(&rt, rt.alloc(), &DEFINITIONS)
}

#[test]
fn declarations(rt: HostRuntime) -> Result<(), Fail> {
    agree(&rt, rt.alloc(), &DECLARATIONS)
}

#[test]
fn procedures(rt: HostRuntime) -> Result<(), Fail> {
    agree(&rt, rt.alloc(), &PROCEDURES)
}

#[test]
fn placeholders_that_nothing_binds(rt: HostRuntime) -> Result<(), Fail> {
    agree(&rt, rt.alloc(), &PLACEHOLDERS)
}

#[test]
fn what_is_no_statement(rt: HostRuntime) -> Result<(), Fail> {
    agree(&rt, rt.alloc(), &BROKEN)
}

// statements that end too early, or have one token that is not theirs
static REFUSED: [Row; 25] = [
    ("object O { if a b }", "ObjectDef O[Broken] ! P1 11-17"),
    ("object O { while (a) }", "ObjectDef O[Broken] ! P1 11-20"),
    ("object O { try }", "ObjectDef O[Broken] ! P1 11-14"),
    (
        "object O { try a catch b }",
        "ObjectDef O[Broken] ! P1 11-24",
    ),
    (
        "object O { try a finally }",
        "ObjectDef O[Broken] ! P1 11-24",
    ),
    (
        "object O { for { x <- a } }",
        "ObjectDef O[Broken] ! P1 11-25",
    ),
    ("object O { a + b = c }", "ObjectDef O[Broken] ! P1 11-20"),
    ("object O { a b }", "ObjectDef O[Broken] ! P1 11-14"),
    ("object O { a - }", "ObjectDef O[Broken] ! P1 11-14"),
    ("object O { that this }", "ObjectDef O[Broken] ! P1 11-20"),
    ("object O { (,) }", "ObjectDef O[Broken] ! P1 11-14"),
    ("object O { a { case } }", "ObjectDef O[Broken] ! P1 11-21"),
    ("object O { 1 _ 2 }", "ObjectDef O[Broken] ! P1 11-16"),
    (
        "object O { { x => y } z }",
        "ObjectDef O[Broken] ! P1 11-23",
    ),
    ("object O { import a }", "ObjectDef O[Broken] ! P1 11-19"),
    ("object O { val a: = c }", "ObjectDef O[Broken] ! P1 11-21"),
    ("object O { var = b }", "ObjectDef O[Broken] ! P1 11-18"),
    ("object O { def = a }", "ObjectDef O[Broken] ! P1 11-18"),
    ("object O { def f[] = a }", "ObjectDef O[Broken] ! P1 11-22"),
    ("object O { def f: = b }", "ObjectDef O[Broken] ! P1 11-21"),
    ("object O { def f = }", "ObjectDef O[Broken] ! P1 11-18"),
    (
        "object O { class A[B <: ] }",
        "ObjectDef O[Broken] ! P1 11-25",
    ),
    (
        "object O { class A(b C) }",
        "ObjectDef O[Broken] ! P1 11-23",
    ),
    (
        "object O { trait A extends 1 }",
        "ObjectDef O[Broken] ! P1 11-28",
    ),
    ("object O { object }", "ObjectDef O[Broken] ! P1 11-17"),
];

#[test]
fn what_ends_too_early(rt: HostRuntime) -> Result<(), Fail> {
    agree(&rt, rt.alloc(), &REFUSED)
}
