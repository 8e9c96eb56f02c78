//! Classes, traits and objects: modifiers, annotations, type parameters, constructors, parents, bodies.

use crate::notation::shown;
use crate::units::Row;
use std::alloc::Global;
use std::process::Abort;
use std::test::Fail;

// each modifier where it is admitted and where it is not: there it is read, and passed over
static MODIFIERS: [Row; 31] = [
    (
        "abstract final sealed lazy override case class A",
        "abstract final sealed case ClassDef A",
    ),
    (
        "abstract final sealed lazy override case trait A",
        "sealed TraitDef A",
    ),
    (
        "abstract final sealed lazy override case object A",
        "final case ObjectDef A",
    ),
    (
        "object O { abstract final sealed lazy override case val x = 1 }",
        "ObjectDef O[final override LazyDef x=[1]]",
    ),
    ("object O { lazy var x = 1 }", "ObjectDef O[VarDef x=[1]]"),
    (
        "object O { abstract final sealed lazy override case def f = 1 }",
        "ObjectDef O[final override DefDef f=[1]]",
    ),
    (
        "object O { private final override type T = A }",
        "ObjectDef O[final override private AliasDef T[A]]",
    ),
    (
        "trait O { protected final val x: Int; override def f: Int }",
        "TraitDef O[final protected ValDef x:[Int], override DefDef f:[Int]]",
    ),
    (
        "private class A; protected trait B; private[x] object C; private[this] class D; \
         protected[this] private class E",
        "private ClassDef A; protected TraitDef B; ObjectDef C; private ClassDef D; protected ClassDef E",
    ),
    ("private[x] protected class A", "ClassDef A"),
    (
        "class A(private val x: Int, final override var y: B, abstract z: C, lazy case w: D)",
        "ClassDef A<0 4 0>[private val Param x[Int], final override var Param y[B], Param z[C], Param w[D]]",
    ),
    ("final\nclass B", "final ClassDef B"),
    ("private[x]\nclass B", "Broken; ClassDef B ! P1 0-10"),
    ("final; class B", "Broken; ClassDef B ! P1 0-5"),
    ("implicit class B", "Broken ! P1 0-16"),
    (
        "object O { abstract final sealed lazy override case var x = 1 }",
        "ObjectDef O[final override VarDef x=[1]]",
    ),
    (
        "object O { abstract final sealed lazy override case type T = A }",
        "ObjectDef O[final override AliasDef T[A]]",
    ),
    (
        "trait O { abstract final sealed lazy override case val x: A; \
         final sealed lazy override var y: B; abstract final override case def f }",
        "TraitDef O[final override LazyDef x:[A], final override VarDef y:[B], final override DefDef f]",
    ),
    (
        "object O { private val a = 1; protected var b = 2; private[this] lazy val c = 3; \
         protected[this] def d = 4; private[x] type E = F }",
        "ObjectDef O[private ValDef a=[1], protected VarDef b=[2], private LazyDef c=[3], \
         protected DefDef d=[4], AliasDef E[F]]",
    ),
    (
        "class A(abstract final sealed lazy override case x: B, protected y: C, private[this] z: D, private[x] w: E)",
        "ClassDef A<0 4 0>[final override Param x[B], protected Param y[C], private Param z[D], Param w[E]]",
    ),
    (
        "object O { { abstract final sealed lazy override case val x = 1; private def f = 2 } }",
        "ObjectDef O[{final override LazyDef x=[1]; private DefDef f=[2]}]",
    ),
    (
        "object O { abstract final sealed case class A; private sealed trait B; final case object C }",
        "ObjectDef O[abstract final sealed case ClassDef A, sealed private TraitDef B, final case ObjectDef C]",
    ),
    ("final final class A", "final ClassDef A"),
    (
        "class A abstract override private (x: B)",
        "ClassDef A<0 1 0>[Param x[B]]",
    ),
    ("final import a.b", "Broken ! P1 0-16"),
    (
        "object O { final x; private y = 1 }",
        "ObjectDef O[Broken, Broken] ! P1 11-18 ! P1 20-33",
    ),
    ("private[] class A", "Broken ! P1 0-17"),
    ("private[a.b] class C", "Broken ! P1 0-20"),
    ("protected[super] class A", "Broken ! P1 0-24"),
    ("final[this] class A", "Broken ! P1 0-19"),
    (
        "object O { def f(final x: A) = b }",
        "ObjectDef O[Broken] ! P1 11-32",
    ),
];

static ANNOTATIONS: [Row; 11] = [
    ("@a class B", "ClassDef B"),
    ("@a(1; 2) @b.c\nclass D", "ClassDef D"),
    ("@a\nfinal class B", "final ClassDef B"),
    ("@a({ class C; [ ] })\n@b object D", "ObjectDef D"),
    ("@a\n\nclass B", "Broken; ClassDef B ! P1 0-2"),
    ("final @a class B", "Broken ! P1 0-16"),
    ("@a (1)(2) class B", "Broken ! P1 0-17"),
    (
        "object O { @a(x) val b = 1; @c\ndef d = 2; @e\nf }",
        "ObjectDef O[ValDef b=[1], DefDef d=[2], Broken, f] ! P1 42-44",
    ),
    ("@ class B", "Broken ! P1 0-9"),
    (
        "object O { @a b; @c type T = A }",
        "ObjectDef O[Broken, AliasDef T[A]] ! P1 11-15",
    ),
    ("@a.1 class B", "Broken ! P1 0-12"),
];

static TYPE_PARAMS: [Row; 9] = [
    ("class A[T]", "ClassDef A<1 0 0>[TypeParam T]"),
    (
        "class A[T, +U >: B <: C, -V]",
        "ClassDef A<3 0 0>[TypeParam T, TypeParam U+>:<:[B, C], TypeParam V-]",
    ),
    (
        "trait A[+T] extends B[T] with C",
        "TraitDef A<1 0 2>[TypeParam T+, AppliedType B[B, T], C]",
    ),
    ("class A[T <: B >: C]", "Broken ! P1 0-20"),
    ("class A[]", "Broken ! P1 0-9"),
    ("class A[T,]", "Broken ! P1 0-11"),
    ("class A[T][U]", "Broken ! P1 0-13"),
    ("object A[T]", "Broken ! P1 0-11"),
    ("class A[+]", "ClassDef A<1 0 0>[TypeParam +]"),
];

static CONSTRUCTORS: [Row; 28] = [
    ("class A()", "ClassDef A"),
    (
        "class A(x: Int, y: B*)",
        "ClassDef A<0 2 0>[Param x[Int], Param y*[B]]",
    ),
    (
        "class A(val x: B => C, var y: (B, C))",
        "ClassDef A<0 2 0>[val Param x[FunType[B, C]], var Param y[TupleType[B, C]]]",
    ),
    (
        "case class A(x: Int)",
        "case ClassDef A<0 1 0>[Param x[Int]]",
    ),
    ("class A(x: B*, y: Int)", "Broken ! P1 0-22"),
    ("class A(x)", "Broken ! P1 0-10"),
    ("class A(x: Int,)", "Broken ! P1 0-16"),
    ("class A(def x: Int)", "Broken ! P1 0-19"),
    ("class A(x: Int)(y: Int)", "Broken ! P1 0-23"),
    ("class A(val x: Int = 1)", "Broken ! P1 0-23"),
    (
        "class A private (x: Int)",
        "ClassDef A<0 1 0>[Param x[Int]]",
    ),
    (
        "class A private[this] (x: Int) extends B",
        "ClassDef A<0 1 1>[Param x[Int], B]",
    ),
    ("class A private", "Broken ! P1 0-15"),
    ("class A\nprivate (x: Int)", "ClassDef A; Broken ! P1 8-24"),
    ("class A @a (x: Int)", "ClassDef A<0 1 0>[Param x[Int]]"),
    (
        "class A @a(x) (y: Int) extends B",
        "ClassDef A<0 1 1>[Param y[Int], B]",
    ),
    (
        "class A @a() private (y: Int)",
        "ClassDef A<0 1 0>[Param y[Int]]",
    ),
    (
        "class A @a(x: Int) extends B",
        "ClassDef A<0 1 1>[Param x[Int], B]",
    ),
    ("class A @a(1 + 2)", "Broken ! P1 0-17"),
    (
        "class A(@a(1, {2}) x: Int, @b y: C)",
        "ClassDef A<0 2 0>[Param x[Int], Param y[C]]",
    ),
    ("class A\n(x: Int)", "ClassDef A<0 1 0>[Param x[Int]]"),
    ("class A\n\n(x: Int)", "ClassDef A; Broken ! P1 9-17"),
    ("trait A(x: Int)", "Broken ! P1 0-15"),
    ("object A(x: Int)", "Broken ! P1 0-16"),
    ("class A private ()", "ClassDef A"),
    ("class A()(x: Int)", "Broken ! P1 0-17"),
    ("class A(x: => Int)", "Broken ! P1 0-18"),
    ("class; class A", "Broken; ClassDef A ! P1 0-5"),
];

static PARENTS: [Row; 20] = [
    ("object A extends B", "ObjectDef A<0 0 1>[B]"),
    (
        "object A extends B(1, x) with C with D { }",
        "ObjectDef A<0 0 3 2>[B, 1, x, C, D]",
    ),
    (
        "object A extends B() { val x = 1 }",
        "ObjectDef A<0 0 1 0>[B, ValDef x=[1]]",
    ),
    (
        "class A[T](x: T) extends b.B[T](x) with C[T]",
        "ClassDef A<1 1 2 1>[TypeParam T, Param x[T], AppliedType B[TypeSelect B[b], T], x, AppliedType C[C, T]]",
    ),
    (
        "object A extends B(_ + 1)",
        "ObjectDef A<0 0 1 1>[B, (_ => _.+(1))]",
    ),
    (
        "object A extends B({ x; y })",
        "ObjectDef A<0 0 1 1>[B, {x; y}]",
    ),
    ("object A extends B(_)", "Broken ! P1 0-21"),
    ("object A extends B { x } { y }", "Broken ! P1 0-30"),
    (
        "class A extends B\n(1)",
        "ClassDef A<0 0 1>[B]; Broken ! P1 18-21",
    ),
    ("class A extends B with", "Broken ! P1 0-22"),
    ("class A extends", "Broken ! P1 0-15"),
    ("class A extends B => C", "ClassDef A<0 0 1>[FunType[B, C]]"),
    (
        "class A extends (B, C)",
        "ClassDef A<0 0 1>[TupleType[B, C]]",
    ),
    (
        "class A extends b.type",
        "ClassDef A<0 0 1>[Singleton b[b]]",
    ),
    ("class A with B", "Broken ! P1 0-14"),
    ("class A extends B(1)(2)", "Broken ! P1 0-23"),
    ("class A extends B with C(1)", "Broken ! P1 0-27"),
    ("class A\nextends B\nwith C", "ClassDef A<0 0 2>[B, C]"),
    (
        "class A extends B(x = 1)",
        "ClassDef A<0 0 1 1>[B, Assign[x, 1]]",
    ),
    ("class A extends B, C", "Broken ! P1 0-20"),
];

static BODIES: [Row; 20] = [
    ("class A { }", "ClassDef A"),
    ("class A\n{ val x = 1 }", "ClassDef A[ValDef x=[1]]"),
    ("class A\n\n{ val x = 1 }", "ClassDef A; Broken ! P1 9-22"),
    ("class A\n{ val x = 1 } y", "ClassDef A; Broken ! P1 8-23"),
    (
        "class A extends B\n{ val x = 1 }",
        "ClassDef A<0 0 1>[B, ValDef x=[1]]",
    ),
    (
        "object O { class A\n\n(x: Int) }",
        "ObjectDef O[ClassDef A, Typed[x, Int]]",
    ),
    (
        "object O { class A\n\n(x: Int) { y } }",
        "ObjectDef O[ClassDef A, Typed[x, Int]({y})]",
    ),
    (
        "object O { class A\n{ val x = 1 } y }",
        "ObjectDef O[ClassDef A, Broken] ! P1 19-34",
    ),
    (
        "object O { class A\n{ val x = 1 }.y }",
        "ObjectDef O[ClassDef A, {ValDef x=[1]}.y]",
    ),
    (
        "object O { class A\n\n{ x } }",
        "ObjectDef O[ClassDef A, {x}]",
    ),
    (
        "object O { class A\n\nfor { x <- y } z }",
        "ObjectDef O[ClassDef A, y.foreach((x => z))]",
    ),
    (
        "object O { class A { trait B; object C { 1 } } }",
        "ObjectDef O[ClassDef A[TraitDef B, ObjectDef C[1]]]",
    ),
    (
        "object O { @a\nclass A { x } y }",
        "ObjectDef O[Broken, Broken] ! P1 11-13 ! P1 14-29",
    ),
    ("object O { ;; a;; b; }", "ObjectDef O[a, b]"),
    (
        "class A extends B\n\n{ val x = 1 }",
        "ClassDef A<0 0 1>[B]; Broken ! P1 19-32",
    ),
    (
        "trait A\n{ val x: B }\nobject C\n{ d }",
        "TraitDef A[ValDef x:[B]]; ObjectDef C[d]",
    ),
    (
        "class A { val x = 1\nval y = 2 }",
        "ClassDef A[ValDef x=[1], ValDef y=[2]]",
    ),
    (
        "class A { x => val y = x }",
        "ClassDef A[Broken] ! P1 10-24",
    ),
    (
        "object O { a\ncase class B }",
        "ObjectDef O[a, case ClassDef B]",
    ),
    (
        "object O { a\ncase final class B }",
        "ObjectDef O[Broken] ! P1 11-31",
    ),
];

fn agree(rt: &impl Abort, alloc: Global, rows: &[Row]) -> Result<(), Fail> {
    for (source, want) in rows {
        let text = shown(rt, alloc, source, false)?;
        assert_eq!(rt; text.as_str(), *want, "{source}");
    }
    Ok(())
}

#[test]
fn modifiers_admitted_and_passed_over(rt: HostRuntime) -> Result<(), Fail> {
    agree(&rt, rt.alloc(), &MODIFIERS)
}

#[test]
fn annotations(rt: HostRuntime) -> Result<(), Fail> {
    agree(&rt, rt.alloc(), &ANNOTATIONS)
}

#[test]
fn type_parameters(rt: HostRuntime) -> Result<(), Fail> {
    agree(&rt, rt.alloc(), &TYPE_PARAMS)
}

#[test]
fn constructors(rt: HostRuntime) -> Result<(), Fail> {
    agree(&rt, rt.alloc(), &CONSTRUCTORS)
}

#[test]
fn parents_and_their_arguments(rt: HostRuntime) -> Result<(), Fail> {
    agree(&rt, rt.alloc(), &PARENTS)
}

#[test]
fn bodies(rt: HostRuntime) -> Result<(), Fail> {
    agree(&rt, rt.alloc(), &BODIES)
}
