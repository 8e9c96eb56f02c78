//! A small program: its trees, and what is left of it where it is cut off after each of its bytes.

use crate::notation::{shown, unit_at};
use pc_terms::Span;
use positioned_trees::{SourceUnit, is_placed};
use std::alloc::Global;
use std::process::Abort;
use std::test::Fail;

static SHAPE: &str = "package geo\n\
    sealed trait Shape { def area: Int }\n\
    case class Sq(side: Int) extends Shape { def area: Int = side * side }\n\
    case class Rect(w: Int, h: Int) extends Shape { def area: Int = w * h }\n\
    case object Dot extends Shape { val area = 0 }\n";

static SHAPE_TREES: &str = "Package geo; sealed TraitDef Shape[DefDef area:[Int]]; \
    case ClassDef Sq<0 1 1>[Param side[Int], Shape, DefDef area:=[Int, side.*(side)]]; \
    case ClassDef Rect<0 2 1>[Param w[Int], Param h[Int], Shape, DefDef area:=[Int, w.*(h)]]; \
    case ObjectDef Dot<0 0 1>[Shape, ValDef area=[0]]";

static MAIN: &str = "package geo\n\
    object Main {\n  \
    def pick[T](xs: List[T], d: T): T = xs match {\n    \
    case x :: rest if !rest.isEmpty => x\n    \
    case _ => d\n  \
    }\n  \
    def total(xs: List[Shape]): Int = {\n    \
    var sum = 0\n    \
    for (s <- xs if s.area > 0) sum += s.area\n    \
    sum\n  \
    }\n  \
    val names = for (s <- List(Sq(2), Rect(1, 3))) yield s match {\n    \
    case Sq(n) => \"sq \" + n\n    \
    case Rect(w, h) => \"rect \" + w + \"x\" + h\n    \
    case Dot => \"dot\"\n  \
    }\n  \
    def main(args: List[String]): Unit = println(total(List(Sq(1), Dot)) + names.size)\n\
    }\n";

static MAIN_TREES: &str =
    "Package geo; ObjectDef Main[DefDef pick<1>(2):=[TypeParam T, Param xs[AppliedType List[List, T]], \
    Param d[T], T, Match[xs, Case case[CtorPat ::[Bind x, Bind rest], rest.isEmpty.unary_!, x], Case case[Wild, \
    d]]], DefDef total(1):=[Param xs[AppliedType List[List, Shape]], Int, {VarDef sum=[0]; \
    xs.withFilter((s => s.area.>(0))).foreach((s => OpAssign +=[sum, s.area])); sum}], \
    ValDef names=[List(Sq(2), Rect(1, 3)).map((s => Match[s, Case case[CtorPat Sq[Bind n], \"sq \".+(n)], \
    Case case[CtorPat Rect[Bind w, Bind h], \"rect \".+(w).+(\"x\").+(h)], Case case[StablePat Dot, \
    \"dot\"]]))], DefDef main(1):=[Param args[AppliedType List[List, String]], Unit, println(total(List(Sq(1), \
    Dot)).+(names.size))]]";

#[test]
fn the_trees_of_a_small_program(rt: HostRuntime) -> Result<(), Fail> {
    let shape = shown(&rt, rt.alloc(), SHAPE, false)?;
    assert_eq!(rt; shape.as_str(), SHAPE_TREES);
    let main = shown(&rt, rt.alloc(), MAIN, false)?;
    assert_eq!(rt; main.as_str(), MAIN_TREES);
    Ok(())
}

fn is_within(span: Span, length: u32) -> bool {
    span.start <= span.end && span.end <= length
}

fn problems_are_within(unit: &SourceUnit) -> bool {
    let mut are_within = true;
    for problem in unit.problems.as_slice() {
        are_within = are_within && is_within(problem.span, unit.length);
    }
    are_within
}

// Whether the trees of a text enclose each other, and these and the problems stand within it.
fn is_read(rt: &impl Abort, alloc: Global, source: &str) -> Result<bool, Fail> {
    let unit = unit_at(rt, alloc, source)?;
    Ok(unit.length as usize == source.len() && is_placed(&unit) && problems_are_within(&unit))
}

// Each beginning of this length or more, up to this one.
fn cut_off(rt: &impl Abort, alloc: Global, from: usize, to: usize) -> Result<(), Fail> {
    for length in from..to {
        let front = MAIN.get(..length).unwrap_or("no beginning");
        assert_eq!(rt; front.len(), length);
        assert!(rt; is_read(rt, alloc, front)?, "{length}");
    }
    Ok(())
}

#[test]
fn cut_off_after_each_byte_of_its_first_half(rt: HostRuntime) -> Result<(), Fail> {
    cut_off(&rt, rt.alloc(), 0, 300)
}

#[test]
fn cut_off_after_each_byte_of_its_second_half(rt: HostRuntime) -> Result<(), Fail> {
    cut_off(&rt, rt.alloc(), 300, MAIN.len().saturating_add(1))
}
