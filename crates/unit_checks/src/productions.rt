//! For each production of the grammar a text that it admits, and one that it just does not, with their units. They were
//! worked out from the grammar of the language.

use crate::notation::shown;
use crate::units::Row;
use std::alloc::Global;
use std::process::Abort;
use std::test::Fail;

/// What the production says, a text that it admits, and one that it does not.
type Production = (&'static str, Row, Row);

static UNITS: [Production; 7] = [
    (
        "package clauses, and their separators",
        ("package a.b; class C", "Package a.b; ClassDef C"),
        ("package a.b class C", "Broken ! P1 0-19"),
    ),
    (
        "a statement of a unit",
        (
            "; import a.b; final class C",
            "Import a.{b}; final ClassDef C",
        ),
        ("; val x = 1", "Broken ! P1 2-11"),
    ),
    (
        "import expressions between commas",
        ("import a.b, c.d", "Import a.{b} c.{d}"),
        ("import a.b c.d", "Broken ! P1 0-14"),
    ),
    (
        "a path, and what is imported of it",
        ("import a.b._", "Import a.b.{_}"),
        ("import _", "Broken ! P1 0-8"),
    ),
    (
        "selectors, `_` the last of them",
        (
            "import a.{b => c, d => _, e, _}",
            "Import a.{b=>c, d=>_, e, _}",
        ),
        ("import a.{_, b}", "Broken ! P1 0-15"),
    ),
    (
        "annotations before modifiers",
        ("@a.b(1) @c\nfinal class D", "final ClassDef D"),
        ("final @a class B", "Broken ! P1 0-16"),
    ),
    (
        "modifiers, with a qualifier",
        (
            "abstract sealed private[this] class A",
            "abstract sealed private ClassDef A",
        ),
        ("private[1] class A", "Broken ! P1 0-18"),
    ),
];

static TEMPLATES: [Production; 9] = [
    (
        "a class",
        (
            "class A[T] private (x: B)",
            "ClassDef A<1 1 0>[TypeParam T, Param x[B]]",
        ),
        ("class A private", "Broken ! P1 0-15"),
    ),
    (
        "a trait",
        ("trait A[T] extends B", "TraitDef A<1 0 1>[TypeParam T, B]"),
        ("trait A(x: B)", "Broken ! P1 0-13"),
    ),
    (
        "an object",
        ("object A extends B", "ObjectDef A<0 0 1>[B]"),
        ("object A[T]", "Broken ! P1 0-11"),
    ),
    (
        "a parameter of a class",
        (
            "class A(final val x: B, var y: C)",
            "ClassDef A<0 2 0>[final val Param x[B], var Param y[C]]",
        ),
        ("class A(def x: B)", "Broken ! P1 0-17"),
    ),
    (
        "type parameters",
        (
            "class A[T, U]",
            "ClassDef A<2 0 0>[TypeParam T, TypeParam U]",
        ),
        ("class A[T,]", "Broken ! P1 0-11"),
    ),
    (
        "a type parameter",
        (
            "class A[+T >: B <: C]",
            "ClassDef A<1 0 0>[TypeParam T+>:<:[B, C]]",
        ),
        ("class A[T <: B >: C]", "Broken ! P1 0-20"),
    ),
    (
        "parents and a body",
        (
            "class A extends B(1) with C { val x = 1 }",
            "ClassDef A<0 0 2 1>[B, 1, C, ValDef x=[1]]",
        ),
        ("class A with C { val x = 1 }", "Broken ! P1 0-28"),
    ),
    (
        "arguments of a parent in parentheses",
        ("class A extends B({ 1 })", "ClassDef A<0 0 1 1>[B, {1}]"),
        ("class A extends B { 1 } { 2 }", "Broken ! P1 0-29"),
    ),
    (
        "a statement of a template",
        (
            "object O { import a.b; class C; val x = 1; val y: D; z; }",
            "ObjectDef O[Import a.{b}, ClassDef C, ValDef x=[1], ValDef y:[D], z]",
        ),
        (
            "object O { package a; z }",
            "ObjectDef O[Broken, z] ! P1 11-20",
        ),
    ),
];

static DEFINITIONS: [Production; 8] = [
    (
        "a value",
        (
            "object O { val x: A = 1; var y = 2 }",
            "ObjectDef O[ValDef x:=[A, 1], VarDef y=[2]]",
        ),
        (
            "object O { val x, y = 1 }",
            "ObjectDef O[Broken] ! P1 11-23",
        ),
    ),
    (
        "a method with a right side",
        (
            "object O { def f[T](x: A)(y: B): C = d }",
            "ObjectDef O[DefDef f<1>(1)(1):=[TypeParam T, Param x[A], Param y[B], C, d]]",
        ),
        (
            "object O { def f(x: A)[T] = d }",
            "ObjectDef O[Broken] ! P1 11-29",
        ),
    ),
    (
        "a method with a block",
        (
            "object O { def f(x: A)\n{ d } }",
            "ObjectDef O[DefDef f(1){}[Param x[A], {d}]]",
        ),
        (
            "object O { def f: A { d } }",
            "ObjectDef O[Broken] ! P1 11-25",
        ),
    ),
    (
        "a type alias",
        ("object O { type T = A }", "ObjectDef O[AliasDef T[A]]"),
        (
            "object O { type T[A] = A }",
            "ObjectDef O[Broken] ! P1 11-24",
        ),
    ),
    (
        "a value without a right side",
        (
            "trait A { val x: B; var y: C }",
            "TraitDef A[ValDef x:[B], VarDef y:[C]]",
        ),
        ("trait A { val x }", "TraitDef A[Broken] ! P1 10-15"),
    ),
    (
        "a method without a right side",
        (
            "trait A { def f[T](x: B): C }",
            "TraitDef A[DefDef f<1>(1):[TypeParam T, Param x[B], C]]",
        ),
        ("trait A { def f(): }", "TraitDef A[Broken] ! P1 10-18"),
    ),
    (
        "a parameter",
        (
            "object O { def f(x: A) = b }",
            "ObjectDef O[DefDef f(1)=[Param x[A], b]]",
        ),
        (
            "object O { def f(x) = b }",
            "ObjectDef O[Broken] ! P1 11-23",
        ),
    ),
    (
        "a repeated parameter, the last of its list",
        (
            "object O { def f(x: A, y: B*)(z: C*) = d }",
            "ObjectDef O[DefDef f(2)(1)=[Param x[A], Param y*[B], Param z*[C], d]]",
        ),
        (
            "object O { def f(x: A*, y: B) = c }",
            "ObjectDef O[Broken] ! P1 11-33",
        ),
    ),
];

static TYPES: [Production; 5] = [
    (
        "a function type",
        (
            "object O { type T = A => B => C }",
            "ObjectDef O[AliasDef T[FunType[A, FunType[B, C]]]]",
        ),
        (
            "object O { type T = A => }",
            "ObjectDef O[Broken] ! P1 11-24",
        ),
    ),
    (
        "a function type of any number of parameters",
        (
            "object O { type T = () => A; type U = (A, B, C, D) => E }",
            "ObjectDef O[AliasDef T[FunType[A]], AliasDef U[FunType[A, B, C, D, E]]]",
        ),
        (
            "object O { type T = (A, ) => B }",
            "ObjectDef O[Broken] ! P1 11-30",
        ),
    ),
    (
        "a path with type arguments",
        (
            "object O { type T = a.B[C, D] }",
            "ObjectDef O[AliasDef T[AppliedType B[TypeSelect B[a], C, D]]]",
        ),
        (
            "object O { type T = a.B[] }",
            "ObjectDef O[Broken] ! P1 11-25",
        ),
    ),
    (
        "a singleton type",
        (
            "object O { type T = a.b.type }",
            "ObjectDef O[AliasDef T[Singleton b[a.b]]]",
        ),
        (
            "object O { type T = a.type.b }",
            "ObjectDef O[Broken] ! P1 11-28",
        ),
    ),
    (
        "types in parentheses",
        (
            "object O { type T = (A); type U = (A, B, C) }",
            "ObjectDef O[AliasDef T[A], AliasDef U[TupleType[A, B, C]]]",
        ),
        (
            "object O { type T = (A, B, C, D) }",
            "ObjectDef O[Broken] ! P1 11-32",
        ),
    ),
];

static EXPRESSIONS: [Production; 15] = [
    (
        "a lambda",
        ("object O { x => y }", "ObjectDef O[(x => y)]"),
        ("object O { x + y => z }", "ObjectDef O[Broken] ! P1 11-21"),
    ),
    (
        "if",
        (
            "object O { if (a)\n\nb; else c }",
            "ObjectDef O[If[a, b, c]]",
        ),
        (
            "object O { if (a) b;; else c }",
            "ObjectDef O[If[a, b], Broken] ! P1 22-28",
        ),
    ),
    (
        "while",
        ("object O { while (a)\n\nb }", "ObjectDef O[While[a, b]]"),
        ("object O { while a b }", "ObjectDef O[Broken] ! P1 11-20"),
    ),
    (
        "do",
        (
            "object O { do a;\nwhile (b) }",
            "ObjectDef O[DoWhile[a, b]]",
        ),
        (
            "object O { do a while b }",
            "ObjectDef O[Broken] ! P1 11-23",
        ),
    ),
    (
        "try",
        (
            "object O { try a catch { case b => c } finally d }",
            "ObjectDef O[Try[a, Case case[Bind b, c], d]]",
        ),
        (
            "object O { try a finally d catch { case b => c } }",
            "ObjectDef O[Broken] ! P1 11-48",
        ),
    ),
    (
        "for",
        (
            "object O { for (x <- a)\n\nyield b }",
            "ObjectDef O[a.map((x => b))]",
        ),
        (
            "object O { for (x = a) yield b }",
            "ObjectDef O[Broken] ! P1 11-30",
        ),
    ),
    (
        "throw",
        ("object O { throw a }", "ObjectDef O[Throw[a]]"),
        ("object O { throw }", "ObjectDef O[Broken] ! P1 11-16"),
    ),
    (
        "return",
        (
            "object O { return\na; return b }",
            "ObjectDef O[Return, a, Return[b]]",
        ),
        ("object O { return = a }", "ObjectDef O[Broken] ! P1 11-21"),
    ),
    (
        "an assignment",
        (
            "object O { a = b; c.d = e; f(g) = h }",
            "ObjectDef O[Assign[a, b], Assign[c.d, e], f.update(g, h)]",
        ),
        ("object O { (a) = b }", "ObjectDef O[Broken] ! P1 11-18"),
    ),
    (
        "a type ascription",
        ("object O { a + b: C }", "ObjectDef O[Typed[a.+(b), C]]"),
        ("object O { a: 1 }", "ObjectDef O[Broken] ! P1 11-15"),
    ),
    (
        "match",
        (
            "object O { a match { case b => c } }",
            "ObjectDef O[Match[a, Case case[Bind b, c]]]",
        ),
        ("object O { a match { } }", "ObjectDef O[Broken] ! P1 11-22"),
    ),
    (
        "the head of a lambda",
        (
            "object O { (a, _, b: C) => d; _ => e }",
            "ObjectDef O[(a, _, Param b[C] => d), (_ => e)]",
        ),
        ("object O { (a, 1) => b }", "ObjectDef O[Broken] ! P1 11-22"),
    ),
    (
        "a parameter of a lambda",
        ("object O { (a: B) => c }", "ObjectDef O[(Param a[B] => c)]"),
        (
            "object O { (a: B*) => c }",
            "ObjectDef O[Broken] ! P1 11-23",
        ),
    ),
    (
        "generators",
        (
            "object O { for { a <- b; c <- d } e }",
            "ObjectDef O[b.foreach((a => d.foreach((c => e))))]",
        ),
        (
            "object O { for { if b; a <- c } d }",
            "ObjectDef O[Broken] ! P1 11-33",
        ),
    ),
    (
        "a generator and its guards",
        (
            "object O { for (a <- b if c; if d) e }",
            "ObjectDef O[b.withFilter((a => c)).withFilter((a => d)).foreach((a => e))]",
        ),
        (
            "object O { for (a <- b if c => d) e }",
            "ObjectDef O[Broken] ! P1 11-35",
        ),
    ),
];

static OPERANDS: [Production; 17] = [
    (
        "operators",
        ("object O { a + b *\nc }", "ObjectDef O[a.+(b.*(c))]"),
        ("object O { a +: b + c }", "ObjectDef O[Broken] ! P1 11-21"),
    ),
    (
        "a prefix operator",
        ("object O { -a; !b }", "ObjectDef O[a.unary_-, b.unary_!]"),
        ("object O { *a }", "ObjectDef O[Broken] ! P1 11-13"),
    ),
    (
        "literals, names, this and super",
        (
            "object O { 1; this; super.a; b }",
            "ObjectDef O[1, This, Super a, b]",
        ),
        ("object O { super }", "ObjectDef O[Broken] ! P1 11-16"),
    ),
    (
        "parentheses",
        (
            "object O { (); (a); (a, b, c) }",
            "ObjectDef O[(), a, (a, b, c)]",
        ),
        (
            "object O { (a, b, c, d) }",
            "ObjectDef O[Broken] ! P1 11-23",
        ),
    ),
    (
        "a block in braces",
        ("object O { { a; b } }", "ObjectDef O[{a; b}]"),
        ("object O { { a } b }", "ObjectDef O[Broken] ! P1 11-18"),
    ),
    (
        "cases in braces",
        (
            "object O { { case a => b } }",
            "ObjectDef O[CaseFunction[Case case[Bind a, b]]]",
        ),
        ("object O { { case a } }", "ObjectDef O[Broken] ! P1 11-21"),
    ),
    (
        "new",
        ("object O { new A(b) }", "ObjectDef O[New[A, b]]"),
        ("object O { new }", "ObjectDef O[Broken] ! P1 11-14"),
    ),
    (
        "a selection, or a hole",
        ("object O { a.b; c. }", "ObjectDef O[a.b, c.?] ! P2 18-18"),
        ("object O { a.1 }", "ObjectDef O[Broken] ! P1 11-14"),
    ),
    (
        "type arguments",
        ("object O { a[B, C] }", "ObjectDef O[TypeApply[a, B, C]]"),
        ("object O { a[] }", "ObjectDef O[Broken] ! P1 11-14"),
    ),
    (
        "arguments in parentheses",
        ("object O { a(b, c)() }", "ObjectDef O[a(b, c)()]"),
        ("object O { a(b, ) }", "ObjectDef O[Broken] ! P1 11-17"),
    ),
    (
        "a method as a function",
        ("object O { a _ }", "ObjectDef O[Eta[a]]"),
        ("object O { a\n_ }", "ObjectDef O[a, Broken] ! P1 13-14"),
    ),
    (
        "an argument in braces",
        (
            "object O { a\n{ b }; c { case d => e } }",
            "ObjectDef O[a({b}), c(CaseFunction[Case case[Bind d, e]])]",
        ),
        ("object O { a\n\n{ b } }", "ObjectDef O[a, {b}]"),
    ),
    (
        "a block, or the lambda that it is",
        ("object O { { a => b; c } }", "ObjectDef O[(a => {b; c})]"),
        (
            "object O { { (a, 1) => b } }",
            "ObjectDef O[{Broken}] ! P1 13-24",
        ),
    ),
    (
        "a statement of a block",
        (
            "object O { { import a.b; final val c = 1; d; } }",
            "ObjectDef O[{Import a.{b}; final ValDef c=[1]; d}]",
        ),
        (
            "object O { { class A; b } }",
            "ObjectDef O[{Broken; b}] ! P1 13-20",
        ),
    ),
    (
        "a case",
        (
            "object O { a match { case b if c => d; e } }",
            "ObjectDef O[Match[a, Case case[Bind b, c, d, e]]]",
        ),
        (
            "object O { a match { case b if c d } }",
            "ObjectDef O[Broken] ! P1 11-36",
        ),
    ),
    (
        "a number and its minus",
        ("object O { - 1; a(-2).b }", "ObjectDef O[-1, a(-2).b]"),
        ("object O { -\n1 }", "ObjectDef O[-, 1]"),
    ),
    (
        "a placeholder",
        ("object O { _ + a(_) }", "ObjectDef O[(_, _ => _.+(a(_)))]"),
        ("object O { _ }", "ObjectDef O[Broken] ! P1 11-12"),
    ),
];

static PATTERNS: [Production; 7] = [
    (
        "alternatives",
        (
            "object O { a match { case b | c => d } }",
            "ObjectDef O[Match[a, Case case[AltPat[Bind b, Bind c], d]]]",
        ),
        (
            "object O { a match { case b | => d } }",
            "ObjectDef O[Broken] ! P1 11-36",
        ),
    ),
    (
        "a variable or `_` with a type",
        (
            "object O { a match { case b: C => d } }",
            "ObjectDef O[Match[a, Case case[TypedPat b[C], d]]]",
        ),
        (
            "object O { a match { case B: C => d } }",
            "ObjectDef O[Broken] ! P1 11-37",
        ),
    ),
    (
        "a variable with a pattern",
        (
            "object O { a match { case b @ C(d) => e } }",
            "ObjectDef O[Match[a, Case case[Bind b[CtorPat C[Bind d]], e]]]",
        ),
        (
            "object O { a match { case B @ C => e } }",
            "ObjectDef O[Broken] ! P1 11-38",
        ),
    ),
    (
        "operators of a pattern",
        (
            "object O { a match { case b :: c => d } }",
            "ObjectDef O[Match[a, Case case[CtorPat ::[Bind b, Bind c], d]]]",
        ),
        (
            "object O { a match { case b c => d } }",
            "ObjectDef O[Broken] ! P1 11-36",
        ),
    ),
    (
        "a simple pattern",
        (
            "object O { a match { case A(_, 1, -2, B, b.C, (d, D())) => e } }",
            "ObjectDef O[Match[a, Case case[CtorPat A[Wild, LitPat 1, LitPat -2, StablePat B, StablePat C[b], \
             TuplePat[Bind d, CtorPat D]], e]]]",
        ),
        (
            "object O { a match { case -a => b } }",
            "ObjectDef O[Broken] ! P1 11-35",
        ),
    ),
    (
        "a pattern with arguments",
        (
            "object O { a match { case b.C(d, _) => e } }",
            "ObjectDef O[Match[a, Case case[CtorPat C[b, Bind d, Wild], e]]]",
        ),
        (
            "object O { a match { case b(c)(d) => e } }",
            "ObjectDef O[Broken] ! P1 11-40",
        ),
    ),
    (
        "patterns in parentheses",
        (
            "object O { a match { case (b, (c), ()) => d } }",
            "ObjectDef O[Match[a, Case case[TuplePat[Bind b, Bind c, LitPat ()], d]]]",
        ),
        (
            "object O { a match { case (b, c, d, e) => f } }",
            "ObjectDef O[Broken] ! P1 11-45",
        ),
    ),
];

// what makes one reading of each text: a text that one of two productions could read, and one beside it
static READINGS: [Production; 11] = [
    (
        "an else belongs to the innermost if",
        (
            "object O { if (a) if (b) c else d }",
            "ObjectDef O[If[a, If[b, c, d]]]",
        ),
        (
            "object O { if (a) { if (b) c } else d }",
            "ObjectDef O[If[a, {If[b, c]}, d]]",
        ),
    ),
    (
        "a catch belongs to the innermost try",
        (
            "object O { try try a catch { case b => c } finally d }",
            "ObjectDef O[Try[Try[a, Case case[Bind b, c], d]]]",
        ),
        (
            "object O { try { try a } finally b }",
            "ObjectDef O[Try[{Try[a]}, b]]",
        ),
    ),
    (
        "what follows the type of a new belongs to it",
        (
            "object O { new A[B](c)(d) }",
            "ObjectDef O[New[AppliedType A[A, B], c](d)]",
        ),
        ("object O { (new A)(c) }", "ObjectDef O[New[A](c)]"),
    ),
    (
        "types in parentheses before an arrow are a list",
        (
            "object O { type T = (A) => B }",
            "ObjectDef O[AliasDef T[FunType[A, B]]]",
        ),
        (
            "object O { type T = (A, B) => C => D }",
            "ObjectDef O[AliasDef T[FunType[A, B, FunType[C, D]]]]",
        ),
    ),
    (
        "a sign before an operand is a prefix operator",
        ("object O { -(a) }", "ObjectDef O[a.unary_-]"),
        ("object O { -; ! = a }", "ObjectDef O[-, Assign[!, a]]"),
    ),
    (
        "a name after a hole is its name",
        ("object O { a.\nb }", "ObjectDef O[a.b]"),
        ("object O { a.; b }", "ObjectDef O[a.?, b] ! P2 13-13"),
    ),
    (
        "what follows a return in its line is its operand",
        (
            "object O { return if (a) b }",
            "ObjectDef O[Return[If[a, b]]]",
        ),
        (
            "object O { return\nif (a) b }",
            "ObjectDef O[Return, If[a, b]]",
        ),
    ),
    (
        "the arrow after a guard is that of its case",
        (
            "object O { a match { case b if new C => d } }",
            "ObjectDef O[Match[a, Case case[Bind b, New[C], d]]]",
        ),
        (
            "object O { a match { case b if (c => d) => e } }",
            "ObjectDef O[Match[a, Case case[Bind b, (c => d), e]]]",
        ),
    ),
    (
        "the statements of a case end at the next one",
        (
            "object O { a match { case b => c; d case e => f } }",
            "ObjectDef O[Match[a, Case case[Bind b, c, d], Case case[Bind e, f]]]",
        ),
        (
            "object O { a match { case b => { c; d } case e => f } }",
            "ObjectDef O[Match[a, Case case[Bind b, {c; d}], Case case[Bind e, f]]]",
        ),
    ),
    (
        "operators of one precedence associate to one side",
        (
            "object O { a + b - c; a :: b ::: c }",
            "ObjectDef O[a.+(b).-(c), c.:::(b).::(a)]",
        ),
        ("object O { a - b +: c }", "ObjectDef O[Broken] ! P1 11-21"),
    ),
    (
        "a name alone that can be a variable is one",
        (
            "object O { a match { case b => c } }",
            "ObjectDef O[Match[a, Case case[Bind b, c]]]",
        ),
        (
            "object O { a match { case `b` => c } }",
            "ObjectDef O[Match[a, Case case[StablePat b, c]]]",
        ),
    ),
];

fn agree(rt: &impl Abort, alloc: Global, productions: &[Production]) -> Result<(), Fail> {
    for (production, good, bad) in productions {
        let admitted = shown(rt, alloc, good.0, false)?;
        assert_eq!(rt; admitted.as_str(), good.1, "{production}");
        let refused = shown(rt, alloc, bad.0, false)?;
        assert_eq!(rt; refused.as_str(), bad.1, "not {production}");
    }
    Ok(())
}

#[test]
fn units_imports_and_modifiers(rt: HostRuntime) -> Result<(), Fail> {
    agree(&rt, rt.alloc(), &UNITS)
}

#[test]
fn templates(rt: HostRuntime) -> Result<(), Fail> {
    agree(&rt, rt.alloc(), &TEMPLATES)
}

#[test]
fn definitions(rt: HostRuntime) -> Result<(), Fail> {
    agree(&rt, rt.alloc(), &DEFINITIONS)
}

#[test]
fn types(rt: HostRuntime) -> Result<(), Fail> {
    agree(&rt, rt.alloc(), &TYPES)
}

#[test]
fn expressions(rt: HostRuntime) -> Result<(), Fail> {
    agree(&rt, rt.alloc(), &EXPRESSIONS)
}

#[test]
fn operands_and_what_stands_in_braces(rt: HostRuntime) -> Result<(), Fail> {
    agree(&rt, rt.alloc(), &OPERANDS)
}

#[test]
fn patterns(rt: HostRuntime) -> Result<(), Fail> {
    agree(&rt, rt.alloc(), &PATTERNS)
}

#[test]
fn one_reading_of_each_text(rt: HostRuntime) -> Result<(), Fail> {
    agree(&rt, rt.alloc(), &READINGS)
}
