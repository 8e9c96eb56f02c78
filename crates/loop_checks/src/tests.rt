//! What a core answers about the tree at an offset. In each row one ▮ marks the offset of the ask, and two the
//! span of the tree that is found.

use crate::calls::one_pair;
use crate::player::Player;
use ask_history::{Answer, Call, Effect, TreeInfo, Turn};
use pc_terms::{NoMemory, Text, show, show_symbol};
use std::alloc::Global;
use std::fmt::Write;
use std::process::Abort;
use std::test::Fail;

/// A text with the offset of an ask, and what is answered: the tree's kind, type, symbol and span.
type Asked = (&'static str, &'static str);

static LITERALS: [Asked; 6] = [
    (
        "object A { val x = ▮1 }",
        "Literal, Int, -, object A { val x = ▮1▮ }",
    ),
    (
        "object A { val x = 1▮ }",
        "Literal, Int, -, object A { val x = ▮1▮ }",
    ),
    (
        "object Z9 { val zero = 0▮ }",
        "Literal, Int, -, object Z9 { val zero = ▮0▮ }",
    ),
    (
        "object A { val x = 2147483647▮ }",
        "Literal, Int, -, object A { val x = ▮2147483647▮ }",
    ),
    (
        "object A { val x = \"\"▮ }",
        "Literal, String, -, object A { val x = ▮\"\"▮ }",
    ),
    (
        "object A { val s = \"▮ab\"; val t = s }",
        "Literal, String, -, object A { val s = ▮\"ab\"▮; val t = s }",
    ),
];

static DEFINITIONS: [Asked; 6] = [
    (
        "▮object A { val x = 1 }",
        "ObjectDef, -, object A, ▮object A { val x = 1 }▮",
    ),
    (
        "object A { val x = 1 }▮",
        "ObjectDef, -, object A, ▮object A { val x = 1 }▮",
    ),
    (
        "object A { val ▮x = 1 }",
        "ValDef, Int, val A.x, object A { ▮val x = 1▮ }",
    ),
    (
        "object A { val x = 1; ▮val y = x }",
        "ValDef, Int, val A.y, object A { val x = 1; ▮val y = x▮ }",
    ),
    (
        "object A { val x = 1;▮ val y = x }",
        "ObjectDef, -, object A, ▮object A { val x = 1; val y = x }▮",
    ),
    (
        "object A { val s = \"ab\"; ▮val t = s }",
        "ValDef, String, val A.t, object A { val s = \"ab\"; ▮val t = s▮ }",
    ),
];

static NAMES: [Asked; 4] = [
    (
        "object A { val x = 1; val y = ▮x }",
        "Ident, Int, val A.x, object A { val x = 1; val y = ▮x▮ }",
    ),
    (
        "object A { val x = 1▮; val y = x }",
        "Literal, Int, -, object A { val x = ▮1▮; val y = x }",
    ),
    (
        "object A { val x = 1; val s = \"\"; val y = ▮x }",
        "Ident, Int, val A.x, object A { val x = 1; val s = \"\"; val y = ▮x▮ }",
    ),
    (
        "object A { val s = \"ab\"; val t = s▮ }",
        "Ident, String, val A.s, object A { val s = \"ab\"; val t = ▮s▮ }",
    ),
];

// a text without bytes
static NO_TEXT: [Asked; 1] = [("▮", "Unit, -, -, ▮▮")];

static UNREAD: [&str; 16] = [
    "object B { val a = b; val b = 1 }",
    "object A { val x = a }",
    "object A { val x = x }",
    "object A { val x = 1; val x = 2 }",
    "object A { val x = 2147483648 }",
    "object A { val x = 01 }",
    "object A { val x = \"\\n\" }",
    "object A { val x = \"a }",
    "object A { val x = 1;val y = 2 }",
    "object A {  val x = 1 }",
    "object A { val if = 1 }",
    "object type { val x = 1 }",
    "object A { val 1x = 1 }",
    "object A { val x = 1 } ",
    "object A { }",
    " ",
];

/// A name and a text.
type File<'a> = (&'a str, &'a str);

// Reloads these files, one after the other.
fn load(alloc: Global, player: &mut Player, files: &[File]) -> Result<bool, NoMemory> {
    for (name, text) in files {
        let call = Call::Reload(one_pair(alloc, name, text)?);
        if !player.change(&call, false, Effect::Applies)? {
            return Ok(false);
        }
    }
    Ok(true)
}

const TICKET: u64 = 1;

// Feeds an ask about the tree at an offset.
fn feed(alloc: Global, player: &mut Player, file: &str, offset: u32) -> Result<bool, NoMemory> {
    let call = Call::TypeAt(Text::new(alloc, file)?, offset);
    player.feed(TICKET, &call)
}

// The answer of the ask, which is then settled. `None` where a turn gives none, or the ask stays open.
fn answered_ask(player: &mut Player) -> Result<Option<Answer>, NoMemory> {
    let turn = player.turn();
    player.settle(TICKET);
    let next = player.turn();
    match (turn, next) {
        (Turn::Ready(_, answer), Turn::Checked(_, _)) => Ok(Some(answer)),
        (Turn::NoMemory(_), _) => Err(NoMemory {}),
        (_, _) => Ok(None),
    }
}

// A text without its mark, and the offset of the mark.
fn unmarked(alloc: Global, marked: &str) -> Result<(String, u32), NoMemory> {
    let (front, back) = marked.split_once('▮').unwrap_or((marked, ""));
    let mut text = String::from_str(alloc, front)?;
    text.push_str(back)?;
    let offset = u32::try_from(front.len()).unwrap_or(u32::MAX);
    Ok((text, offset))
}

fn shown_tree(alloc: Global, text: &str, info: &TreeInfo) -> Result<String, NoMemory> {
    let ty = match &info.ty {
        Some(ty) => show(alloc, ty)?,
        None => Text::new(alloc, "-")?,
    };
    let sym = match &info.sym {
        Some(sym) => show_symbol(alloc, sym)?,
        None => Text::new(alloc, "-")?,
    };
    let (start, end) = (info.span.start as usize, info.span.end as usize);
    let front = text.get(..start).unwrap_or("no start");
    let tree = text.get(start..end).unwrap_or("no tree");
    let back = text.get(end..).unwrap_or("no end");
    let (kind, ty, sym) = (info.kind, ty.as_str(), sym.as_str());
    let mut shown = String::new(alloc);
    write!(shown, "{kind:?}, {ty}, {sym}, {front}▮{tree}▮{back}")?;
    Ok(shown)
}

// An answer as the rows have it.
fn shown(alloc: Global, text: &str, answer: &Option<Answer>) -> Result<String, NoMemory> {
    match answer {
        Some(Answer::Tree(info)) => shown_tree(alloc, text, info),
        Some(Answer::NoTree) => Ok(String::from_str(alloc, "no tree")?),
        Some(Answer::NoUnit) => Ok(String::from_str(alloc, "no unit")?),
        Some(Answer::Unread) => Ok(String::from_str(alloc, "unread")?),
        _ => Ok(String::from_str(alloc, "no answer of an ask")?),
    }
}

// The answer about an offset of a file, once these files were reloaded.
fn answer_of(
    alloc: Global,
    player: &mut Player,
    files: &[File],
    file: &str,
    offset: u32,
) -> Result<Option<Answer>, NoMemory> {
    if load(alloc, player, files)? && feed(alloc, player, file, offset)? {
        answered_ask(player)
    } else {
        Ok(None)
    }
}

fn answered(
    alloc: Global,
    files: &[File],
    file: &str,
    text: &str,
    offset: u32,
) -> Result<String, NoMemory> {
    let mut player = Player::new(alloc)?;
    let answer = answer_of(alloc, &mut player, files, file, offset)?;
    shown(alloc, text, &answer)
}

// What is answered of the only file.
fn answered_alone(alloc: Global, text: &str, offset: u32) -> Result<String, NoMemory> {
    answered(alloc, &[("A.scala", text)], "A.scala", text, offset)
}

fn agree(rt: &(impl Abort + AllocGlobal), rows: &[Asked]) -> Result<(), Fail> {
    for (marked, found) in rows {
        let (text, offset) = unmarked(rt.alloc(), marked)?;
        let shown = answered_alone(rt.alloc(), text.as_str(), offset)?;
        assert_eq!(rt; shown.as_str(), *found, "{marked}");
    }
    Ok(())
}

#[test]
fn literals(rt: HostRuntime) -> Result<(), Fail> {
    agree(&rt, &LITERALS)
}

#[test]
fn objects_and_vals(rt: HostRuntime) -> Result<(), Fail> {
    agree(&rt, &DEFINITIONS)
}

#[test]
fn names_of_earlier_vals(rt: HostRuntime) -> Result<(), Fail> {
    agree(&rt, &NAMES)
}

#[test]
fn a_file_without_text(rt: HostRuntime) -> Result<(), Fail> {
    agree(&rt, &NO_TEXT)
}

#[test]
fn no_tree_is_past_the_end(rt: HostRuntime) -> Result<(), Fail> {
    let alloc = rt.alloc();
    assert_eq!(rt; answered_alone(alloc, "", 1)?.as_str(), "no tree");
    assert_eq!(rt; answered_alone(alloc, ONE_VAL, 23)?.as_str(), "no tree");
    Ok(())
}

#[test]
fn texts_that_are_not_read_yet(rt: HostRuntime) -> Result<(), Fail> {
    for text in &UNREAD {
        assert_eq!(rt;
            answered_alone(rt.alloc(), text, 0)?.as_str(),
            "unread",
            "{text}"
        );
    }
    Ok(())
}

// ---- two reloads, one after the other

const ONE_VAL: &str = "object A { val x = 1 }";

const LATER_VAL: &str = "object B { val a = b; val b = 1 }";

/// Two files, the file of an ask, its text with the offset, and what is answered.
type AskedOfTwo = (
    &'static [File<'static>],
    &'static str,
    &'static str,
    &'static str,
);

static EACH_OF_TWO: [AskedOfTwo; 3] = [
    (
        &[("A.scala", ONE_VAL), ("B.scala", "object B { val x = 2 }")],
        "B.scala",
        "▮object B { val x = 2 }",
        "ObjectDef, -, object B, ▮object B { val x = 2 }▮",
    ),
    (
        &[("A.scala", ONE_VAL), ("B.scala", "")],
        "A.scala",
        "object A { val x = ▮1 }",
        "Literal, Int, -, object A { val x = ▮1▮ }",
    ),
    (
        &[("B.scala", LATER_VAL), ("A.scala", ONE_VAL)],
        "C.scala",
        "▮",
        "no unit",
    ),
];

static LATER_TEXTS: [AskedOfTwo; 2] = [
    (
        &[("A.scala", ONE_VAL), ("A.scala", "object C { val z = 10 }")],
        "A.scala",
        "object C { val z = 10 }▮",
        "ObjectDef, -, object C, ▮object C { val z = 10 }▮",
    ),
    (
        &[("A.scala", LATER_VAL), ("A.scala", ONE_VAL)],
        "A.scala",
        "object A { val x = ▮1 }",
        "Literal, Int, -, object A { val x = ▮1▮ }",
    ),
];

static ONE_UNREAD: [AskedOfTwo; 2] = [
    (
        &[("A.scala", ONE_VAL), ("B.scala", "object A { val y = 2 }")],
        "A.scala",
        "object A { val x = ▮1 }",
        "unread",
    ),
    (
        &[("A.scala", ONE_VAL), ("B.scala", LATER_VAL)],
        "A.scala",
        "object A { val x = ▮1 }",
        "unread",
    ),
];

fn agree_of_two(rt: &(impl Abort + AllocGlobal), rows: &[AskedOfTwo]) -> Result<(), Fail> {
    for (files, file, marked, found) in rows {
        let (text, offset) = unmarked(rt.alloc(), marked)?;
        let shown = answered(rt.alloc(), files, file, text.as_str(), offset)?;
        assert_eq!(rt; shown.as_str(), *found, "{marked}");
    }
    Ok(())
}

#[test]
fn an_ask_sees_each_of_two_files(rt: HostRuntime) -> Result<(), Fail> {
    agree_of_two(&rt, &EACH_OF_TWO)
}

#[test]
fn a_later_text_replaces_an_earlier_one(rt: HostRuntime) -> Result<(), Fail> {
    agree_of_two(&rt, &LATER_TEXTS)
}

#[test]
fn one_file_that_is_not_read_leaves_all_unread(rt: HostRuntime) -> Result<(), Fail> {
    agree_of_two(&rt, &ONE_UNREAD)
}
