//! The trees of expressions. The expected ones were worked out from the grammar of the language.

use crate::notation::shown;
use std::alloc::Global;
use std::process::Abort;
use std::test::Fail;

/// A text, and the expression that it begins with: the number of its tokens, and what it means.
type Row = (&'static str, &'static str);

// the longest statement that ends at a separator or at the end of its list
static LONGEST: [Row; 14] = [
    ("{ new A\n{ x } y }", "8: {New[A]; Broken}"),
    ("{ f(x)\n{ y } z }", "10: {f(x); Broken}"),
    ("{ f(x)\n{ y } z 1 }", "11: {f(x)({y}).z(1)}"),
    ("{ if (a) b\nelse c d }", "10: {Broken}"),
    ("{ if (a) b; else c d }", "11: {If[a, b]; Broken}"),
    ("{ if (a) b; else c; d }", "12: {If[a, b, c]; d}"),
    ("{ do a\nwhile (b) c; d }", "11: {Broken; While[b, c]; d}"),
    ("{ f\n\n{ x } }", "6: {f; {x}}"),
    ("{ f\n{ x } }", "6: {f({x})}"),
    ("{ a b c d; e }", "8: {Broken; e}"),
    ("{ a +\nb; c + d e }", "10: {a.+(b); Broken}"),
    ("{ a ) b }", "not here 2"),
    ("{ try a; finally b }", "7: {Try[a]; Broken}"),
    (
        "{ x match { case a => b c; d case e => f g case h => } }",
        "21: {Match[x, Case case[Bind a, Broken, d], \
         Case case[Bind e, Broken], Case case[Bind h]]}",
    ),
];

// lambdas in braces, and heads in parentheses
static LAMBDAS: [Row; 28] = [
    ("f { x => y }", "6: f((x => {y}))"),
    ("{ a; x => b }", "7: {a; (x => b)}"),
    ("{ x => a; b }", "7: (x => {a; b})"),
    ("{ x => }", "4: (x => {})"),
    ("{ val f = { x => y } }", "10: {ValDef f[(x => {y})]}"),
    ("{ (x, y) => x }", "9: (x, y => {x})"),
    ("{ _ => a }", "5: (_ => {a})"),
    ("{ x: T => y }", "7: {Typed[x, FunType[T, y]]}"),
    ("(x)", "3: x"),
    ("(x) => y", "5: (x => y)"),
    ("(x, y) => z", "7: (x, y => z)"),
    ("() => x", "4: ( => x)"),
    ("()", "2: ()"),
    ("(x, y)", "5: (x, y)"),
    ("(x, y, z)", "7: (x, y, z)"),
    ("(x: A, _) => z", "9: (Param x[A], _ => z)"),
    ("(x: A)", "5: Typed[x, A]"),
    ("(a, b, c, d) => e", "11: (a, b, c, d => e)"),
    ("(a, b, c, d)", "not here 9"),
    ("(a, b, c, d) + e", "not here 9"),
    ("(a, b, 1, d) => e", "not here 6"),
    ("(a, b, c, d + e)", "not here 8"),
    ("a + (x) => y", "5: a.+(x)"),
    ("x => y => z", "5: (x => (y => z))"),
    ("x => if (a) b else c", "9: (x => If[a, b, c])"),
    ("f((x, y) => z)(w)", "13: f((x, y => z))(w)"),
    ("{ a; { x => b }; c }", "11: {a; (x => {b}); c}"),
    ("x => _ + 1", "5: (x => (_ => _.+(1)))"),
];

// `else`, `catch`, `finally` and the `while` of a `do`
static HEADS: [Row; 31] = [
    ("if (a) b else c", "7: If[a, b, c]"),
    ("if (a) b", "5: If[a, b]"),
    ("if (a)\n\nb\nelse\nc", "7: If[a, b, c]"),
    ("if (a) b; else c", "8: If[a, b, c]"),
    ("if (a) b;; else c", "5: If[a, b]"),
    ("if (a) if (b) c else d", "11: If[a, If[b, c, d]]"),
    ("if (a) if (b) c else d else e", "13: If[a, If[b, c, d], e]"),
    ("if (a) x => b else c", "9: If[a, (x => b), c]"),
    ("if (a) try b else c", "8: If[a, Try[b], c]"),
    (
        "if (a) do b; while (c) else d",
        "13: If[a, DoWhile[b, c], d]",
    ),
    ("if (a) do b; else c", "not here 7"),
    (
        "try a catch { case e => b } finally c",
        "11: Try[a, Case case[Bind e, b], c]",
    ),
    (
        "try a\ncatch { case e => b }\nfinally c",
        "11: Try[a, Case case[Bind e, b], c]",
    ),
    ("try a finally b", "4: Try[a, b]"),
    ("try a", "2: Try[a]"),
    ("try try a finally b finally c", "7: Try[Try[a, b], c]"),
    (
        "try if (a) b else c catch { case _ => d }",
        "15: Try[If[a, b, c], Case case[Wild, d]]",
    ),
    (
        "try try a catch { case e => b } catch { case _ => c }",
        "17: Try[Try[a, Case case[Bind e, b]], Case case[Wild, c]]",
    ),
    ("do a while (b)", "6: DoWhile[a, b]"),
    ("do a\nwhile (b)", "6: DoWhile[a, b]"),
    ("do a;; while (b)", "8: DoWhile[a, b]"),
    ("do return\nwhile (b)", "6: DoWhile[Return, b]"),
    (
        "do return while (b) c while (d)",
        "11: DoWhile[Return[While[b, c]], d]",
    ),
    ("while (a) b", "5: While[a, b]"),
    ("throw new A", "3: Throw[New[A]]"),
    ("{ return }", "3: {Return}"),
    ("{ return\nx }", "4: {Return; x}"),
    ("{ return x }", "4: {Return[x]}"),
    ("try a; catch { case e => b }", "2: Try[a]"),
    (
        "try a\n\ncatch { case e => b }",
        "9: Try[a, Case case[Bind e, b]]",
    ),
    ("do a; while (b)", "7: DoWhile[a, b]"),
];

// Prims, arguments, assignments
static PRIMS: [Row; 30] = [
    ("f(x = 1)", "6: f(Assign[x, 1])"),
    ("new A(1).x", "7: New[A, 1].x"),
    ("new A { }", "4: New[A, {}]"),
    ("new A[B](c)(d)", "11: New[AppliedType A[A, B], c](d)"),
    ("new A.B", "4: New[TypeSelect B[A]]"),
    ("new A.", "3: New[A].?"),
    ("new A => B", "4: New[FunType[A, B]]"),
    ("f _", "2: Eta[f]"),
    ("f(_)", "4: (_ => f(_))"),
    ("f\n_", "1: f"),
    ("a.", "2: a.?"),
    ("a.(b)", "5: a.?(b)"),
    ("a..b", "4: a.?.b"),
    ("a. + b", "3: a.+"),
    ("a(1) = 2", "6: a.update(1, 2)"),
    ("a.b = c", "5: Assign[a.b, c]"),
    ("a = b = c", "5: Assign[a, Assign[b, c]]"),
    ("a + b = c", "3: a.+(b)"),
    ("f[A, B](x)", "9: TypeApply[f, A, B](x)"),
    ("super.x.y", "5: Super x.y"),
    ("this.x", "3: This.x"),
    ("a\n(b)", "1: a"),
    ("a\n.b", "3: a.b"),
    ("1 { x }", "4: 1({x})"),
    ("x: A => B", "5: Typed[x, FunType[A, B]]"),
    (
        "x match { case 1 => a; b case 2 => }",
        "13: Match[x, Case case[LitPat 1, a, b], Case case[LitPat 2]]",
    ),
    ("{ case x => y }", "6: CaseFunction[Case case[Bind x, y]]"),
    ("{ case class A }", "not here 2"),
    (
        "x match { case 1 => case class A }",
        "10: Match[x, Case case[LitPat 1, Broken]]",
    ),
    ("x match { y }", "1: x"),
];

// operators
static OPERATORS: [Row; 35] = [
    ("a + b * c", "5: a.+(b.*(c))"),
    ("a - b - c", "5: a.-(b).-(c)"),
    ("1 :: xs", "3: xs.::(1)"),
    ("a :: b :: c", "5: c.::(b).::(a)"),
    ("a :: b ++ c", "5: b.++(c).::(a)"),
    ("a += b", "3: OpAssign +=[a, b]"),
    ("a += b + c", "5: OpAssign +=[a, b.+(c)]"),
    ("a <= b", "3: a.<=(b)"),
    ("a != b", "3: a.!=(b)"),
    ("a === b", "3: a.===(b)"),
    ("a or b | c", "5: a.or(b.|(c))"),
    ("a `+` b * c", "5: a.+(b.*(c))"),
    ("a + b +: c", "3: a.+(b)"),
    ("a +: b * c +: d", "7: d.+:(b.*(c)).+:(a)"),
    ("- 1", "2: -1"),
    ("-1.x", "4: -1.x"),
    ("- -1", "3: -1.unary_-"),
    ("-x.y", "4: x.y.unary_-"),
    ("!a && b", "4: a.unary_!.&&(b)"),
    ("-(1)", "4: 1.unary_-"),
    ("a - 1", "3: a.-(1)"),
    ("-", "1: -"),
    ("- = 3", "3: Assign[-, 3]"),
    ("-\nx", "1: -"),
    ("a -\nb", "3: a.-(b)"),
    ("a -\n\nb", "1: a"),
    ("a op (b, c)", "7: a.op((b, c))"),
    ("a +", "1: a"),
    ("a op= b", "1: a"),
    ("a == b >= c", "5: a.==(b.>=(c))"),
    ("a <<= b", "3: OpAssign <<=[a, b]"),
    ("a ::= b", "3: OpAssign ::=[a, b]"),
    ("a -= b -= c", "5: OpAssign -=[OpAssign -=[a, b], c]"),
    ("a && b || c && d", "7: a.&&(b).||(c.&&(d))"),
    (
        "a or b | c ^ d & e == f < g :: h + i * j ~> k",
        "21: a.or(b.|(c.^(d.&(e.==(f.<(h.+(i.*(j.~>(k))).::(g)))))))",
    ),
];

// placeholders
static PLACEHOLDERS: [Row; 25] = [
    ("_ + _", "3: (_, _ => _.+(_))"),
    ("f(_ + 1)", "6: f((_ => _.+(1)))"),
    ("(_)", "3: (_ => _)"),
    ("(_: Int) + 1", "7: (_ => Typed[_, Int]).+(1)"),
    ("f(g(_))", "7: f((_ => g(_)))"),
    ("_", "1: _"),
    ("(_, 1)", "5: (_ => (_, 1))"),
    ("(_, _) => 1", "7: (_, _ => 1)"),
    ("_.x(_)", "6: (_, _ => _.x(_))"),
    ("x => _", "3: (_ => (x => _))"),
    ("if (_) _ else _", "7: (_, _, _ => If[_, _, _])"),
    ("a = _", "3: (_ => Assign[a, _])"),
    (
        "for (x <- a if _) b",
        "9: (_ => a.withFilter((x => _)).foreach((x => b)))",
    ),
    (
        "x match { case y if _ => z }",
        "10: (_ => Match[x, Case case[Bind y, _, z]])",
    ),
    ("f { val y = _; y }", "9: (_ => f({ValDef y[_]; y}))"),
    ("f { _ }", "4: (_ => f({_}))"),
    ("_ => _", "3: (_ => (_ => _))"),
    ("_ :: _", "3: (_, _ => _.::(_))"),
    ("{ _ + 1 }", "5: {(_ => _.+(1))}"),
    ("(_ + 1, _)", "7: (_ => ((_ => _.+(1)), _))"),
    ("_: Int", "3: (_ => Typed[_, Int])"),
    ("-_", "2: (_ => _.unary_-)"),
    ("new A(_)", "5: (_ => New[A, _])"),
    ("a(_) = b", "6: (_ => a.update(_, b))"),
    ("for (x <- _) b", "7: (_ => _.foreach((x => b)))"),
];

// `for`
static GENERATORS: [Row; 27] = [
    (
        "for (s <- xs if s.area > 0) sum += s.area",
        "17: xs.withFilter((s => s.area.>(0))).foreach((s => OpAssign +=[sum, s.area]))",
    ),
    ("for (x <- a) yield b", "8: a.map((x => b))"),
    ("for (x <- a)\n\nyield b", "8: a.map((x => b))"),
    ("for (x <- a) b", "7: a.foreach((x => b))"),
    (
        "for (x <- a; y <- b) yield c",
        "12: a.flatMap((x => b.map((y => c))))",
    ),
    (
        "for (x <- a; y <- b) c",
        "11: a.foreach((x => b.foreach((y => c))))",
    ),
    (
        "for { x <- a\ny <- b } yield c",
        "11: a.flatMap((x => b.map((y => c))))",
    ),
    (
        "for { x <- a\nif b\nif c\ny <- d } e",
        "14: a.withFilter((x => b)).withFilter((x => c)).foreach((x => d.foreach((y => e))))",
    ),
    (
        "for { x <- a;; y <- b } c",
        "12: a.foreach((x => b.foreach((y => c))))",
    ),
    (
        "for ((x, y) <- a) b",
        "11: a.foreach(CaseFunction[Case case[TuplePat[Bind x, Bind y], b]])",
    ),
    (
        "for (_ <- a) b",
        "7: a.foreach(CaseFunction[Case case[Wild, b]])",
    ),
    ("for ((x) <- a) b", "9: a.foreach((x => b))"),
    (
        "for { (x, (y, _)) <- a } b",
        "15: a.foreach(CaseFunction[Case case[TuplePat[Bind x, TuplePat[Bind y, Wild]], b]])",
    ),
    (
        "for { x <- a\n(y, z) <- b } c",
        "14: a.foreach((x => b.foreach(CaseFunction[Case case[TuplePat[Bind y, Bind z], c]])))",
    ),
    (
        "for (x <- if (a) b; else c) d",
        "14: If[a, b, c].foreach((x => d))",
    ),
    (
        "for (x <- return if (a) b) c",
        "12: Return[If[a, b]].foreach((x => c))",
    ),
    (
        "for { x <- return\nif (a) } c",
        "11: Return.withFilter((x => a)).foreach((x => c))",
    ),
    ("for (X <- a) b", "not here 2"),
    ("for { x <- a ) b", "not here 5"),
    ("for ( x <- a } b", "not here 5"),
    ("for (1 <- a) b", "not here 2"),
    ("for (x <- a, y <- b) c", "not here 5"),
    ("for { x <- a } { y }", "9: a.foreach((x => {y}))"),
    ("for (x: A <- b) c", "not here 3"),
    (
        "for (x <- a; if b; y <- c if d) yield e",
        "17: a.withFilter((x => b)).flatMap((x => c.withFilter((y => d)).map((y => e))))",
    ),
    ("for (x <- a\ny <- b) c", "not here 6"),
    ("for (x <- a if b: C) d", "not here 7"),
];

// statements, definitions and imports of blocks, and what is none
static BLOCKS: [Row; 20] = [
    ("{ ;; a;; b; }", "9: {a; b}"),
    ("{}", "2: {}"),
    ("{ ; }", "3: {}"),
    ("{ import a.b, c._; d }", "12: {Import; d}"),
    ("{ import a.{b, c => d, _}; e }", "16: {Import; e}"),
    ("{ import a.{_, b}; e }", "12: {Broken; e}"),
    (
        "{ val x: A = 1; var y = 2 }",
        "13: {ValDef x[A, 1]; VarDef y[2]}",
    ),
    ("{ lazy val x = 1 }", "7: {LazyDef x[1]}"),
    ("{ val x: A }", "6: {Broken}"),
    ("{ val = 3; x }", "7: {Broken; x}"),
    (
        "{ def f[A, B](x: A)(y: B*): C = x }",
        "24: {DefDef f[TypeParam A, TypeParam B, Param x[A], Param y[B], C, x]}",
    ),
    ("{ def f { 1 } }", "7: {DefDef f[{1}]}"),
    (
        "{ def f\n(x: A)\n{ 1 } }",
        "12: {DefDef f[Param x[A], {1}]}",
    ),
    (
        "{ type T = A => B; 1 }",
        "10: {AliasDef T[FunType[A, B]]; 1}",
    ),
    ("{ @A(1, {2})\nfinal val x = 1 }", "16: {ValDef x[1]}"),
    ("{ class A; 1 }", "6: {Broken; 1}"),
    ("{ a; case val x = 1 }", "9: {a; ValDef x[1]}"),
    ("{ x match { y }; z }", "9: {Broken; z}"),
    ("{ for { 1 <- x } y }", "9: {Broken}"),
    ("{ if (a", "not here 4"),
];

/// A text, the token that an expression begins at, and its tree with all places.
type Placed = (&'static str, u32, &'static str);

static PLACES: [Placed; 11] = [
    (
        "object M { val m = -2147483648; val n = 2147483648 }",
        6,
        "8: Literal -2147483648 19-30",
    ),
    (
        "object D {\n  val c = true\n  val r = if (c)\n    1\n  else 2\n}",
        10,
        "17: If 36-57(Ident c 40-41, Literal 1 47-48, Literal 2 56-57)",
    ),
    (
        "object A { val x = 1; val y = A. }",
        11,
        "13: Select 30-32@32-32(Ident A 30-31, Hole 32-32)",
    ),
    (
        "1 :: xs",
        0,
        "3: Apply 0-7(Select :: 2-7@2-4'(Ident xs 5-7), Literal 1 0-1)",
    ),
    (
        "for (s <- xs if s.area > 0) sum += s.area",
        0,
        "17: Apply 0-41(Select foreach 5-26'(Apply 5-26'(Select withFilter 10-12'(Ident xs 10-12), \
         Function 5-26'(Param s 5-6, Apply 16-26(Select > 16-24@23-24'(Select area 16-22@18-22(Ident s 16-17)), \
         Literal 0 25-26)))), Function 5-41'(Param s 5-6', OpAssign += 28-41@32-34(Ident sum 28-31, \
         Select area 35-41@37-41(Ident s 35-36))))",
    ),
    (
        "a(i) = v",
        0,
        "6: Apply 0-8(Select update 0-1'(Ident a 0-1), Ident i 2-3, Ident v 7-8)",
    ),
    (
        "(-x) + (y)",
        0,
        "8: Apply 0-10(Select + 1-6@5-6'(Select unary_- 1-3@1-2(Ident x 2-3)), Ident y 8-9)",
    ),
    (
        "f { x => y; z }",
        0,
        "8: Apply 0-15(Ident f 0-1, Function 2-15(Param x 4-5, Block 9-13(Ident y 9-10, Ident z 12-13)))",
    ),
    (
        "x match { case 1 => a; case 2 => b }",
        0,
        "13: Match 0-36(Ident x 0-1, Case case 10-22@10-14(LitPat 1 15-16, Ident a 20-21), \
         Case case 23-34@23-27(LitPat 2 28-29, Ident b 33-34))",
    ),
    ("{ x => }", 0, "4: Function 0-8(Param x 2-3, Block 6-6)"),
    (
        "_ + 1",
        0,
        "3: Function 0-5(Param _ 0-1', Apply 0-5(Select + 0-3@2-3'(Ident _ 0-1), Literal 1 4-5))",
    ),
];

static WORKED: [Row; 3] = [
    (
        "xs match {\n  case x :: rest if !rest.isEmpty => x\n  case _ => d\n}",
        "19: Match[xs, Case case[CtorPat ::[Bind x, Bind rest], rest.isEmpty.unary_!, x], Case case[Wild, d]]",
    ),
    (
        "{\n  var sum = 0\n  for (s <- xs if s.area > 0) sum += s.area\n  sum\n}",
        "24: {VarDef sum[0]; xs.withFilter((s => s.area.>(0))).foreach((s => OpAssign +=[sum, s.area])); sum}",
    ),
    (
        "for (s <- List(Sq(2), Rect(1, 3))) yield s match {\n  case Sq(n) => \"sq \" + n\n  case Dot => \"dot\"\n}",
        "37: List(Sq(2), Rect(1, 3)).map((s => Match[s, Case case[CtorPat Sq[Bind n], \"sq \".+(n)], \
         Case case[StablePat Dot, \"dot\"]]))",
    ),
];

fn agree(rt: &impl Abort, alloc: Global, rows: &[Row]) -> Result<(), Fail> {
    for (source, want) in rows {
        let text = shown(rt, alloc, source, 0, false)?;
        assert_eq!(rt; text.as_str(), *want, "{source}");
    }
    Ok(())
}

#[test]
fn the_longest_statement(rt: HostRuntime) -> Result<(), Fail> {
    agree(&rt, rt.alloc(), &LONGEST)
}

#[test]
fn heads_of_lambdas(rt: HostRuntime) -> Result<(), Fail> {
    agree(&rt, rt.alloc(), &LAMBDAS)
}

#[test]
fn right_open_heads(rt: HostRuntime) -> Result<(), Fail> {
    agree(&rt, rt.alloc(), &HEADS)
}

#[test]
fn prims_and_assignments(rt: HostRuntime) -> Result<(), Fail> {
    agree(&rt, rt.alloc(), &PRIMS)
}

#[test]
fn operators_by_precedence(rt: HostRuntime) -> Result<(), Fail> {
    agree(&rt, rt.alloc(), &OPERATORS)
}

#[test]
fn placeholders_by_the_smallest_expression(rt: HostRuntime) -> Result<(), Fail> {
    agree(&rt, rt.alloc(), &PLACEHOLDERS)
}

#[test]
fn generators_and_guards(rt: HostRuntime) -> Result<(), Fail> {
    agree(&rt, rt.alloc(), &GENERATORS)
}

#[test]
fn statements_of_blocks(rt: HostRuntime) -> Result<(), Fail> {
    agree(&rt, rt.alloc(), &BLOCKS)
}

#[test]
fn worked_rows(rt: HostRuntime) -> Result<(), Fail> {
    agree(&rt, rt.alloc(), &WORKED)
}

#[test]
fn places(rt: HostRuntime) -> Result<(), Fail> {
    for (source, at, want) in &PLACES {
        let text = shown(&rt, rt.alloc(), source, *at, true)?;
        assert_eq!(rt; text.as_str(), *want, "{source}");
    }
    Ok(())
}
