//! Units with many brackets and high trees.

use crate::notation::unit_at;
use pc_terms::{Code, NoMemory, Span, Text, TreeKind};
use positioned_trees::{MAX_HEIGHT, SourceUnit, Tree};
use std::alloc::Global;
use std::process::Abort;
use std::test::Fail;

fn push_again(text: &mut Text, piece: &str, times: usize) -> Result<(), NoMemory> {
    for _ in 0..times {
        text.push_str(piece)?;
    }
    Ok(())
}

// A val whose right side is 1 in this many brackets.
fn nested(alloc: Global, open: &str, close: &str, times: usize) -> Result<Text, NoMemory> {
    let mut text = Text::new(alloc, "object H { val x = ")?;
    push_again(&mut text, open, times)?;
    text.push_str("1")?;
    push_again(&mut text, close, times)?;
    text.push_str(" }")?;
    Ok(text)
}

// The last of the trees below a tree, with no kids, and how many trees it stands in.
fn innermost(root: &Tree) -> (TreeKind, Span, u32) {
    let mut tree = root;
    let mut depth: u32 = 0;
    for _ in 0..MAX_HEIGHT {
        if let [.., last] = tree.kids.as_slice() {
            tree = last;
            depth = depth.saturating_add(1);
        }
    }
    (tree.kind, tree.span, depth)
}

fn is_too_high(unit: &SourceUnit) -> bool {
    match unit.problems.as_slice() {
        [problem] => problem.code == Code::P4
            && problem.span == (Span { start: 0, end: 0 })
            && unit.root.kids.is_empty(),
        _ => false,
    }
}

fn reads_one_at(
    rt: &impl Abort,
    alloc: Global,
    text: &Text,
    start: u32,
    depth: u32,
) -> Result<(), Fail> {
    let unit = unit_at(rt, alloc, text.as_str())?;
    let span = Span {
        start,
        end: start.saturating_add(1),
    };
    assert_eq!(rt; innermost(&unit.root), (TreeKind::Literal, span, depth));
    assert_eq!(rt; unit.problems.len(), 0);
    Ok(())
}

#[test]
fn as_many_braces_as_a_tree_is_high(rt: HostRuntime) -> Result<(), Fail> {
    let text = nested(rt.alloc(), "{", "}", 396)?;
    reads_one_at(&rt, rt.alloc(), &text, 415, 399)
}

#[test]
fn one_brace_more(rt: HostRuntime) -> Result<(), Fail> {
    let text = nested(rt.alloc(), "{", "}", 397)?;
    let unit = unit_at(&rt, rt.alloc(), text.as_str())?;
    assert!(rt; is_too_high(&unit));
    Ok(())
}

#[test]
fn as_many_parentheses_as_may_be_open(rt: HostRuntime) -> Result<(), Fail> {
    let text = nested(rt.alloc(), "(", ")", 399)?;
    reads_one_at(&rt, rt.alloc(), &text, 418, 3)
}

#[test]
fn one_parenthesis_more(rt: HostRuntime) -> Result<(), Fail> {
    let text = nested(rt.alloc(), "(", ")", 400)?;
    let unit = unit_at(&rt, rt.alloc(), text.as_str())?;
    assert!(rt; is_too_high(&unit));
    Ok(())
}

// A unit without statements, and the problems: what each is, and where it begins.
fn refuses(
    rt: &impl Abort,
    alloc: Global,
    text: &Text,
    problems: &[(Code, u32)],
) -> Result<(), Fail> {
    let unit = unit_at(rt, alloc, text.as_str())?;
    assert_eq!(rt; unit.root.kids.len(), 0);
    assert_eq!(rt; unit.problems.len(), problems.len());
    for (found, (code, start)) in unit.problems.as_slice().iter().zip(problems.iter()) {
        assert_eq!(rt; found.code, *code);
        assert_eq!(rt; found.span.start, *start);
    }
    Ok(())
}

// As many `(` as may be open beside the `{`, one more, and the `{` that is left open.
#[test]
fn a_bracket_left_open_tells_more_than_many(rt: HostRuntime) -> Result<(), Fail> {
    let mut text = Text::new(rt.alloc(), "object H { val x = ")?;
    push_again(&mut text, "(", 400)?;
    push_again(&mut text, ")", 400)?;
    refuses(&rt, rt.alloc(), &text, &[(Code::P3, 9)])
}

// The `'` at 15 begins no literal.
#[test]
fn too_many_brackets_keep_the_problems_of_tokens(rt: HostRuntime) -> Result<(), Fail> {
    let mut text = Text::new(rt.alloc(), "object H { a + ' ; b + ")?;
    push_again(&mut text, "(", 400)?;
    push_again(&mut text, ")", 400)?;
    text.push_str(" }")?;
    refuses(&rt, rt.alloc(), &text, &[(Code::P4, 0), (Code::S2, 15)])
}

#[test]
fn a_long_sum(rt: HostRuntime) -> Result<(), Fail> {
    let mut text = Text::new(rt.alloc(), "object H { val y = x")?;
    push_again(&mut text, " + x", 60_000)?;
    text.push_str(" }")?;
    let unit = unit_at(&rt, rt.alloc(), text.as_str())?;
    assert!(rt; is_too_high(&unit));
    Ok(())
}

// Bodies in bodies, as deep as they may be; each is followed by what makes it none.
fn bodies_in_bodies(alloc: Global, open: &str, close: &str) -> Result<Text, NoMemory> {
    let mut text = Text::new(alloc, "object H { ")?;
    push_again(&mut text, open, 390)?;
    push_again(&mut text, close, 390)?;
    text.push_str(" }")?;
    Ok(text)
}

static IN_VAIN: [(&str, &str); 4] = [
    ("class A\n{ ", "} y\n"),
    ("@a\nclass A { ", "} y\n"),
    ("def f\n{ ", "} y\n"),
    ("new A\n{ ", "} y\n"),
];

#[test]
fn bodies_that_are_none(rt: HostRuntime) -> Result<(), Fail> {
    for (open, close) in &IN_VAIN {
        let text = bodies_in_bodies(rt.alloc(), open, close)?;
        let unit = unit_at(&rt, rt.alloc(), text.as_str())?;
        assert!(rt; unit.root.kids.len() == 1, "{open}");
        assert!(rt; unit.problems.len() > 0, "{open}");
    }
    Ok(())
}

// Statements each of which might go on to the end of the list.
static AGAIN: [(&str, usize); 4] = [
    ("class A\n", 2_000),
    ("@a\n", 2_000),
    ("{a} op\n", 500),
    ("trait ( ", 300),
];

#[test]
fn statements_again_and_again(rt: HostRuntime) -> Result<(), Fail> {
    for (piece, times) in &AGAIN {
        let mut text = Text::new(rt.alloc(), "")?;
        push_again(&mut text, piece, *times)?;
        let unit = unit_at(&rt, rt.alloc(), text.as_str())?;
        assert_eq!(rt; unit.length as usize, text.len(), "{piece}");
    }
    Ok(())
}
