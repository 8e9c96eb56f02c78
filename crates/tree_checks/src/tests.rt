//! Which tree stands at an offset. The trees and the answers were worked out from the grammar of the language. In each
//! row one ▮ marks an offset of a text, and two the span of a tree.

ghost use Rattle.std.specs.Prelude.{IfOk};
ghost use Rattle.positioned_trees.specs.Located.{IsPlaced};

use pc_terms::{NoMemory, Row, Span, Text, TreeKind};
use positioned_trees::{Detail, MAX_HEIGHT, SourceUnit, Tree, is_placed, locate, number};
use std::alloc::{AllocError, Global};
use std::process::Abort;
use std::test::Fail;

/// A tree: the number of trees that it stands in, its kind, its span, and whether it is opaque.
type Node = (u16, TreeKind, &'static str, bool);

/// An offset, and what stands there: the tree's number, its kind and its span.
type Asked = (&'static str, &'static str);

// The span between two marks.
fn span_of(marked: &str) -> Span {
    let (front, rest) = marked.split_once('▮').unwrap_or((marked, ""));
    let (part, _) = rest.split_once('▮').unwrap_or((rest, ""));
    let start = u32::try_from(front.len()).unwrap_or(u32::MAX);
    let length = u32::try_from(part.len()).unwrap_or(u32::MAX);
    Span {
        start,
        end: start.saturating_add(length),
    }
}

fn tree(alloc: Global, node: Node, kids: Vec<Tree>) -> Result<Tree, NoMemory> {
    let (_, kind, marked, opaque) = node;
    let span = span_of(marked);
    Ok(Tree {
        id: 0,
        span,
        opaque,
        kind,
        label: Text::new(alloc, "")?,
        label_span: span,
        kids: Row::from_vec(kids),
        detail: Detail::Plain,
    })
}

// The trees at the end of the list that stand in more trees than this, the first one first.
fn kids_of(
    alloc: Global,
    open: &mut Vec<(u32, Tree)>,
    depth: u32,
) -> Result<Vec<Tree>, AllocError> {
    let mut kids = Vec::new(alloc);
    for _ in 0..open.len() {
        match open.pop() {
            Some((at, kid)) => {
                if at > depth {
                    kids.push(kid)?;
                } else {
                    open.push((at, kid))?;
                    break;
                }
            }
            None => break,
        }
    }
    Ok(kids)
}

// The tree of its nodes in pre-order, which are taken from the last one on.
fn built(alloc: Global, nodes: &[Node]) -> Result<Option<Tree>, Fail> {
    let mut open = Vec::new(alloc);
    for node in nodes.iter().rev() {
        let depth = u32::from(node.0);
        let kids = kids_of(alloc, &mut open, depth)?;
        open.push((depth, tree(alloc, *node, kids)?))?;
    }
    Ok(open.pop().map(|(_, tree)| tree))
}

fn unit(alloc: Global, length: usize, nodes: &[Node]) -> Result<Option<SourceUnit>, Fail> {
    let root = match built(alloc, nodes)? {
        Some(root) => root,
        None => return Ok(None),
    };
    let length = u32::try_from(length).unwrap_or(0);
    Ok(Some(SourceUnit {
        root,
        problems: Row::new(alloc),
        length,
    }))
}

fn shown(alloc: Global, nodes: &[Node], found: Option<u32>) -> Result<String, AllocError> {
    match found {
        Some(id) => match nodes.get(id as usize) {
            Some((_, kind, marked, _)) => format!(in alloc; "{id} {kind:?} {marked}"),
            None => format!(in alloc; "{id}"),
        },
        None => String::from_str(alloc, "none"),
    }
}

// The unit of a text with these trees in pre-order, which are numbered.
fn numbered(rt: &(impl Abort + AllocGlobal), text: &str, nodes: &[Node]) -> Result<SourceUnit, Fail>
    ensures { IfOk result IsPlaced }
{
    let mut unit = unit(rt.alloc(), text.len(), nodes)?.expect(rt, "a tree");
    assert!(rt; is_placed(&unit), "the trees of {text:?}");
    let next = number(rt.alloc(), &mut unit.root, 0);
    assert_eq!(rt;
        next,
        u32::try_from(nodes.len()).ok(),
        "the trees of {text:?}"
    );
    assert!(rt; is_placed(&unit), "the trees of {text:?}");
    Ok(unit)
}

// A text without its mark, and the offset of the mark.
fn unmarked(alloc: Global, marked: &str) -> Result<(String, u32), AllocError> {
    let (front, back) = marked.split_once('▮').unwrap_or((marked, ""));
    let text = format!(in alloc; "{front}{back}")?;
    Ok((text, u32::try_from(front.len()).unwrap_or(u32::MAX)))
}

// Whether these trees stand at these offsets of a text.
fn agree(
    rt: &(impl Abort + AllocGlobal),
    text: &str,
    nodes: &[Node],
    asked: &[Asked],
) -> Result<(), Fail> {
    let unit = numbered(rt, text, nodes)?;
    for (marked, expected) in asked {
        let (plain, offset) = unmarked(rt.alloc(), marked)?;
        assert_eq!(rt; plain.as_str(), text);
        let found = shown(rt.alloc(), nodes, locate(&unit, offset))?;
        assert_eq!(rt; found.as_str(), *expected, "{marked}");
    }
    Ok(())
}

static OBJECT: [Node; 4] = [
    (0, TreeKind::Unit, "▮object A { val x = 1 }▮", true),
    (1, TreeKind::ObjectDef, "▮object A { val x = 1 }▮", true),
    (2, TreeKind::ValDef, "object A { ▮val x = 1▮ }", true),
    (3, TreeKind::Literal, "object A { val x = ▮1▮ }", true),
];

static IN_OBJECT: [Asked; 9] = [
    (
        "▮object A { val x = 1 }",
        "1 ObjectDef ▮object A { val x = 1 }▮",
    ),
    (
        "object A {▮ val x = 1 }",
        "1 ObjectDef ▮object A { val x = 1 }▮",
    ),
    (
        "object A { ▮val x = 1 }",
        "2 ValDef object A { ▮val x = 1▮ }",
    ),
    (
        "object A { val ▮x = 1 }",
        "2 ValDef object A { ▮val x = 1▮ }",
    ),
    (
        "object A { val x =▮ 1 }",
        "2 ValDef object A { ▮val x = 1▮ }",
    ),
    (
        "object A { val x = ▮1 }",
        "3 Literal object A { val x = ▮1▮ }",
    ),
    (
        "object A { val x = 1▮ }",
        "3 Literal object A { val x = ▮1▮ }",
    ),
    (
        "object A { val x = 1 ▮}",
        "1 ObjectDef ▮object A { val x = 1 }▮",
    ),
    (
        "object A { val x = 1 }▮",
        "1 ObjectDef ▮object A { val x = 1 }▮",
    ),
];

static EMPTY: [Node; 1] = [(0, TreeKind::Unit, "▮▮", true)];

static IN_EMPTY: [Asked; 1] = [("▮", "0 Unit ▮▮")];

static MINUS: [Node; 6] = [
    (
        0,
        TreeKind::Unit,
        "▮object M { val m = -2147483648; val n = 2147483648 }▮",
        true,
    ),
    (
        1,
        TreeKind::ObjectDef,
        "▮object M { val m = -2147483648; val n = 2147483648 }▮",
        true,
    ),
    (
        2,
        TreeKind::ValDef,
        "object M { ▮val m = -2147483648▮; val n = 2147483648 }",
        true,
    ),
    (
        3,
        TreeKind::Literal,
        "object M { val m = ▮-2147483648▮; val n = 2147483648 }",
        true,
    ),
    (
        2,
        TreeKind::ValDef,
        "object M { val m = -2147483648; ▮val n = 2147483648▮ }",
        true,
    ),
    (
        3,
        TreeKind::Literal,
        "object M { val m = -2147483648; val n = ▮2147483648▮ }",
        true,
    ),
];

static IN_MINUS: [Asked; 5] = [
    (
        "object M { val m = ▮-2147483648; val n = 2147483648 }",
        "3 Literal object M { val m = ▮-2147483648▮; val n = 2147483648 }",
    ),
    (
        "object M { val m = -2147483648▮; val n = 2147483648 }",
        "3 Literal object M { val m = ▮-2147483648▮; val n = 2147483648 }",
    ),
    (
        "object M { val m = -2147483648;▮ val n = 2147483648 }",
        "1 ObjectDef ▮object M { val m = -2147483648; val n = 2147483648 }▮",
    ),
    (
        "object M { val m = -2147483648; ▮val n = 2147483648 }",
        "4 ValDef object M { val m = -2147483648; ▮val n = 2147483648▮ }",
    ),
    (
        "object M { val m = -2147483648; val n = 2147483648▮ }",
        "5 Literal object M { val m = -2147483648; val n = ▮2147483648▮ }",
    ),
];

static LINES: [Node; 9] = [
    (
        0,
        TreeKind::Unit,
        "▮object D {\n  val c = true\n  val r = if (c)\n    1\n  else 2\n}▮",
        true,
    ),
    (
        1,
        TreeKind::ObjectDef,
        "▮object D {\n  val c = true\n  val r = if (c)\n    1\n  else 2\n}▮",
        true,
    ),
    (
        2,
        TreeKind::ValDef,
        "object D {\n  ▮val c = true▮\n  val r = if (c)\n    1\n  else 2\n}",
        true,
    ),
    (
        3,
        TreeKind::Literal,
        "object D {\n  val c = ▮true▮\n  val r = if (c)\n    1\n  else 2\n}",
        true,
    ),
    (
        2,
        TreeKind::ValDef,
        "object D {\n  val c = true\n  ▮val r = if (c)\n    1\n  else 2▮\n}",
        true,
    ),
    (
        3,
        TreeKind::If,
        "object D {\n  val c = true\n  val r = ▮if (c)\n    1\n  else 2▮\n}",
        true,
    ),
    (
        4,
        TreeKind::Ident,
        "object D {\n  val c = true\n  val r = if (▮c▮)\n    1\n  else 2\n}",
        true,
    ),
    (
        4,
        TreeKind::Literal,
        "object D {\n  val c = true\n  val r = if (c)\n    ▮1▮\n  else 2\n}",
        true,
    ),
    (
        4,
        TreeKind::Literal,
        "object D {\n  val c = true\n  val r = if (c)\n    1\n  else ▮2▮\n}",
        true,
    ),
];

static IN_LINES: [Asked; 7] = [
    (
        "object D {\n  val c = true\n  val r = i▮f (c)\n    1\n  else 2\n}",
        "5 If object D {\n  val c = true\n  val r = ▮if (c)\n    1\n  else 2▮\n}",
    ),
    (
        "object D {\n  val c = true\n  val r = if (▮c)\n    1\n  else 2\n}",
        "6 Ident object D {\n  val c = true\n  val r = if (▮c▮)\n    1\n  else 2\n}",
    ),
    (
        "object D {\n  val c = true\n  val r = if (c▮)\n    1\n  else 2\n}",
        "6 Ident object D {\n  val c = true\n  val r = if (▮c▮)\n    1\n  else 2\n}",
    ),
    (
        "object D {\n  val c = true\n  val r = if (c)▮\n    1\n  else 2\n}",
        "5 If object D {\n  val c = true\n  val r = ▮if (c)\n    1\n  else 2▮\n}",
    ),
    (
        "object D {\n  val c = true\n  val r = if (c)\n    1▮\n  else 2\n}",
        "7 Literal object D {\n  val c = true\n  val r = if (c)\n    ▮1▮\n  else 2\n}",
    ),
    (
        "object D {\n  val c = true\n  val r = if (c)\n    1\n  else 2▮\n}",
        "8 Literal object D {\n  val c = true\n  val r = if (c)\n    1\n  else ▮2▮\n}",
    ),
    (
        "object D {\n  val c = true\n ▮ val r = if (c)\n    1\n  else 2\n}",
        "1 ObjectDef ▮object D {\n  val c = true\n  val r = if (c)\n    1\n  else 2\n}▮",
    ),
];

static NAMELESS: [Node; 8] = [
    (
        0,
        TreeKind::Unit,
        "▮object A { val x = 1; val y = A. }▮",
        true,
    ),
    (
        1,
        TreeKind::ObjectDef,
        "▮object A { val x = 1; val y = A. }▮",
        true,
    ),
    (
        2,
        TreeKind::ValDef,
        "object A { ▮val x = 1▮; val y = A. }",
        true,
    ),
    (
        3,
        TreeKind::Literal,
        "object A { val x = ▮1▮; val y = A. }",
        true,
    ),
    (
        2,
        TreeKind::ValDef,
        "object A { val x = 1; ▮val y = A.▮ }",
        true,
    ),
    (
        3,
        TreeKind::Select,
        "object A { val x = 1; val y = ▮A.▮ }",
        true,
    ),
    (
        4,
        TreeKind::Ident,
        "object A { val x = 1; val y = ▮A▮. }",
        true,
    ),
    (
        4,
        TreeKind::Hole,
        "object A { val x = 1; val y = A.▮▮ }",
        true,
    ),
];

static IN_NAMELESS: [Asked; 4] = [
    (
        "object A { val x = 1; val y = A▮. }",
        "6 Ident object A { val x = 1; val y = ▮A▮. }",
    ),
    (
        "object A { val x = 1; val y = A.▮ }",
        "7 Hole object A { val x = 1; val y = A.▮▮ }",
    ),
    (
        "object A { val x = 1; val y = A. ▮}",
        "1 ObjectDef ▮object A { val x = 1; val y = A. }▮",
    ),
    (
        "object A { val x = 1; val y = A. }▮",
        "1 ObjectDef ▮object A { val x = 1; val y = A. }▮",
    ),
];

#[test]
fn an_offset_has_the_tree_with_the_latest_start(rt: HostRuntime) -> Result<(), Fail> {
    agree(&rt, "object A { val x = 1 }", &OBJECT, &IN_OBJECT)?;
    agree(&rt, "", &EMPTY, &IN_EMPTY)?;
    agree(
        &rt,
        "object M { val m = -2147483648; val n = 2147483648 }",
        &MINUS,
        &IN_MINUS,
    )?;
    agree(
        &rt,
        "object D {\n  val c = true\n  val r = if (c)\n    1\n  else 2\n}",
        &LINES,
        &IN_LINES,
    )?;
    agree(
        &rt,
        "object A { val x = 1; val y = A. }",
        &NAMELESS,
        &IN_NAMELESS,
    )?;
    Ok(())
}

#[test]
fn no_tree_stands_past_the_end(rt: HostRuntime) -> Result<(), Fail> {
    let empty = numbered(&rt, "", &EMPTY)?;
    assert_eq!(rt; locate(&empty, 1), None);
    let object = numbered(&rt, "object A { val x = 1 }", &OBJECT)?;
    assert_eq!(rt; locate(&object, object.length.saturating_add(1)), None);
    assert_eq!(rt; locate(&object, u32::MAX), None);
    Ok(())
}

static CALL: [Node; 5] = [
    (0, TreeKind::Unit, "▮f{1}▮", true),
    (1, TreeKind::Apply, "▮f{1}▮", true),
    (2, TreeKind::Ident, "▮f▮{1}", true),
    (2, TreeKind::Block, "f▮{1}▮", true),
    (3, TreeKind::Literal, "f{▮1▮}", true),
];

static IN_CALL: [Asked; 4] = [
    ("▮f{1}", "2 Ident ▮f▮{1}"),
    ("f▮{1}", "3 Block f▮{1}▮"),
    ("f{▮1}", "4 Literal f{▮1▮}"),
    ("f{1}▮", "3 Block f▮{1}▮"),
];

static HOLE_AT_A_BLOCK: [Node; 7] = [
    (0, TreeKind::Unit, "▮A.{ 1 }▮", true),
    (1, TreeKind::Apply, "▮A.{ 1 }▮", true),
    (2, TreeKind::Select, "▮A.▮{ 1 }", true),
    (3, TreeKind::Ident, "▮A▮.{ 1 }", true),
    (3, TreeKind::Hole, "A.▮▮{ 1 }", true),
    (2, TreeKind::Block, "A.▮{ 1 }▮", true),
    (3, TreeKind::Literal, "A.{ ▮1▮ }", true),
];

static IN_HOLE_AT_A_BLOCK: [Asked; 4] = [
    ("A▮.{ 1 }", "3 Ident ▮A▮.{ 1 }"),
    ("A.▮{ 1 }", "4 Hole A.▮▮{ 1 }"),
    ("A.{▮ 1 }", "5 Block A.▮{ 1 }▮"),
    ("A.{ 1 }▮", "5 Block A.▮{ 1 }▮"),
];

static EMPTY_BODY: [Node; 4] = [
    (0, TreeKind::Unit, "▮{ x => }▮", true),
    (1, TreeKind::Function, "▮{ x => }▮", true),
    (2, TreeKind::Param, "{ ▮x▮ => }", true),
    (2, TreeKind::Block, "{ x =>▮▮ }", true),
];

static IN_EMPTY_BODY: [Asked; 3] = [
    ("{ x▮ => }", "2 Param { ▮x▮ => }"),
    ("{ x =>▮ }", "3 Block { x =>▮▮ }"),
    ("{ x => ▮}", "1 Function ▮{ x => }▮"),
];

#[test]
fn of_trees_that_touch_the_later_or_the_shorter_one_is_found(rt: HostRuntime) -> Result<(), Fail> {
    agree(&rt, "f{1}", &CALL, &IN_CALL)?;
    agree(&rt, "A.{ 1 }", &HOLE_AT_A_BLOCK, &IN_HOLE_AT_A_BLOCK)?;
    agree(&rt, "{ x => }", &EMPTY_BODY, &IN_EMPTY_BODY)?;
    Ok(())
}

static INFIX: [Node; 5] = [
    (0, TreeKind::Unit, "▮a + b▮", true),
    (1, TreeKind::Apply, "▮a + b▮", true),
    (2, TreeKind::Select, "▮a +▮ b", false),
    (3, TreeKind::Ident, "▮a▮ + b", true),
    (2, TreeKind::Ident, "a + ▮b▮", true),
];

static IN_INFIX: [Asked; 5] = [
    ("▮a + b", "3 Ident ▮a▮ + b"),
    ("a▮ + b", "3 Ident ▮a▮ + b"),
    ("a ▮+ b", "1 Apply ▮a + b▮"),
    ("a +▮ b", "1 Apply ▮a + b▮"),
    ("a + ▮b", "4 Ident a + ▮b▮"),
];

static TURNED: [Node; 5] = [
    (0, TreeKind::Unit, "▮1 :: x▮", true),
    (1, TreeKind::Apply, "▮1 :: x▮", true),
    (2, TreeKind::Select, "1 ▮:: x▮", false),
    (3, TreeKind::Ident, "1 :: ▮x▮", true),
    (2, TreeKind::Literal, "▮1▮ :: x", true),
];

static IN_TURNED: [Asked; 3] = [
    ("1▮ :: x", "4 Literal ▮1▮ :: x"),
    ("1 :▮: x", "1 Apply ▮1 :: x▮"),
    ("1 :: ▮x", "3 Ident 1 :: ▮x▮"),
];

static PLACEHOLDER: [Node; 6] = [
    (0, TreeKind::Unit, "▮_ + 1▮", true),
    (1, TreeKind::Function, "▮_ + 1▮", true),
    (2, TreeKind::Param, "▮_▮ + 1", false),
    (2, TreeKind::Apply, "▮_ + 1▮", true),
    (3, TreeKind::Ident, "▮_▮ + 1", true),
    (3, TreeKind::Literal, "_ + ▮1▮", true),
];

static IN_PLACEHOLDER: [Asked; 3] = [
    ("▮_ + 1", "4 Ident ▮_▮ + 1"),
    ("_ ▮+ 1", "3 Apply ▮_ + 1▮"),
    ("_ + 1▮", "5 Literal _ + ▮1▮"),
];

static LOOP: [Node; 12] = [
    (0, TreeKind::Unit, "▮for (s <- xs if s) 1▮", true),
    (1, TreeKind::Apply, "▮for (s <- xs if s) 1▮", true),
    (2, TreeKind::Select, "for (▮s <- xs if s▮) 1", false),
    (3, TreeKind::Apply, "for (▮s <- xs if s▮) 1", false),
    (4, TreeKind::Select, "for (s <- ▮xs▮ if s) 1", false),
    (5, TreeKind::Ident, "for (s <- ▮xs▮ if s) 1", true),
    (4, TreeKind::Function, "for (▮s <- xs if s▮) 1", false),
    (5, TreeKind::Param, "for (▮s▮ <- xs if s) 1", true),
    (5, TreeKind::Ident, "for (s <- xs if ▮s▮) 1", true),
    (2, TreeKind::Function, "for (▮s <- xs if s) 1▮", false),
    (3, TreeKind::Param, "for (▮s▮ <- xs if s) 1", false),
    (3, TreeKind::Literal, "for (s <- xs if s) ▮1▮", true),
];

static IN_LOOP: [Asked; 8] = [
    ("for (▮s <- xs if s) 1", "7 Param for (▮s▮ <- xs if s) 1"),
    ("for (s▮ <- xs if s) 1", "7 Param for (▮s▮ <- xs if s) 1"),
    ("for (s <▮- xs if s) 1", "1 Apply ▮for (s <- xs if s) 1▮"),
    ("for (s <- x▮s if s) 1", "5 Ident for (s <- ▮xs▮ if s) 1"),
    ("for (s <- xs i▮f s) 1", "1 Apply ▮for (s <- xs if s) 1▮"),
    ("for (s <- xs if s▮) 1", "8 Ident for (s <- xs if ▮s▮) 1"),
    ("for (s <- xs if s)▮ 1", "1 Apply ▮for (s <- xs if s) 1▮"),
    ("for (s <- xs if s) ▮1", "11 Literal for (s <- xs if s) ▮1▮"),
];

#[test]
fn a_tree_that_is_not_opaque_is_passed_over(rt: HostRuntime) -> Result<(), Fail> {
    agree(&rt, "a + b", &INFIX, &IN_INFIX)?;
    agree(&rt, "1 :: x", &TURNED, &IN_TURNED)?;
    agree(&rt, "_ + 1", &PLACEHOLDER, &IN_PLACEHOLDER)?;
    agree(&rt, "for (s <- xs if s) 1", &LOOP, &IN_LOOP)?;
    Ok(())
}

static TOO_SHORT: [Node; 1] = [(0, TreeKind::Unit, "▮a▮b", true)];

static HIDDEN: [Node; 1] = [(0, TreeKind::Unit, "▮ab▮", false)];

static OUTSIDE: [Node; 3] = [
    (0, TreeKind::Unit, "▮ab▮", true),
    (1, TreeKind::Select, "▮a▮b", true),
    (2, TreeKind::Ident, "▮ab▮", true),
];

#[test]
fn a_unit_is_refused_where_its_trees_do_not_enclose_their_kids(
    rt: HostRuntime,
) -> Result<(), Fail> {
    for nodes in [&TOO_SHORT[..], &HIDDEN[..], &OUTSIDE[..]] {
        let unit = unit(rt.alloc(), 2, nodes)?.expect(&rt, "a tree");
        assert!(rt; !is_placed(&unit), "{nodes:?}");
    }
    Ok(())
}

// A unit of this height with one tree at each depth.
fn chain(alloc: Global, height: u32) -> Result<SourceUnit, Fail> {
    let node = (0, TreeKind::Block, "▮ab▮", true);
    let mut root = tree(alloc, node, Vec::new(alloc))?;
    for _ in 1..height {
        let mut kids = Vec::new(alloc);
        kids.push(root)?;
        root = tree(alloc, node, kids)?;
    }
    Ok(SourceUnit {
        root,
        problems: Row::new(alloc),
        length: 2,
    })
}

#[test]
fn the_deepest_of_equal_trees_is_found_up_to_the_height_limit(rt: HostRuntime) -> Result<(), Fail> {
    let mut highest = chain(rt.alloc(), MAX_HEIGHT)?;
    assert!(rt; is_placed(&highest));
    assert_eq!(rt; number(rt.alloc(), &mut highest.root, 7), Some(407));
    assert!(rt; is_placed(&highest));
    assert_eq!(rt; locate(&highest, 1), Some(406));
    assert_eq!(rt; number(rt.alloc(), &mut highest.root, 4294967000), None);
    let too_high = chain(rt.alloc(), MAX_HEIGHT + 1)?;
    assert!(rt; !is_placed(&too_high));
    Ok(())
}
