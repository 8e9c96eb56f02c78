//! Texts that are scripts, and texts that are none. The expected values were worked out from the grammar.

use ask_history::Call;
use pc_terms::{Row, Text};
use script_text::{Line, Order, ScriptRefused, read_client, read_schedule, with_texts};
use std::alloc::{AllocError, Global};
use std::process::Abort;
use std::test::Fail;

/// A text, and its lines: NAME<PATH is a pair of a reload, and LEVEL@CHECK.TURN stands before an inner line.
type Whole = (&'static str, &'static str);

/// A text, and the number of its first line outside the grammar.
type Refused = (&'static str, u64);

// lines that are passed over
static NOTHING: [Whole; 8] = [
    ("", ""),
    ("\n", ""),
    ("\n\n\n", ""),
    ("#", ""),
    ("# a comment", ""),
    ("# ä € 𝄞\t\r", ""),
    ("#\n##\n", ""),
    ("#  @0 x\n", ""),
];

// reloads
static RELOADS: [Whole; 15] = [
    ("reload A a", "reload A<a"),
    ("reload A a\n", "reload A<a"),
    ("\nreload A a", "reload A<a"),
    ("# x\n\nreload A a\n\n", "reload A<a"),
    ("reload A a B b", "reload A<a B<b"),
    ("reload A a B a", "reload A<a B<a"),
    ("reload A.scala dir/a.txt", "reload A.scala<dir/a.txt"),
    ("reload ! ~", "reload !<~"),
    ("reload A <a", "reload A<<a"),
    ("reload a< b", "reload a<<b"),
    ("reload reload reload", "reload reload<reload"),
    ("reload #A #a", "reload #A<#a"),
    ("reload @1 @2", "reload @1<@2"),
    ("reload A a\nreload A b", "reload A<a | reload A<b"),
    ("reload a A A a", "reload a<A A<a"),
];

// the other calls
static CALLS: [Whole; 12] = [
    ("remove A", "remove A"),
    ("remove A A", "remove A A"),
    ("remove A B C\n", "remove A B C"),
    ("type A 0", "type A 0"),
    ("type A 4294967295", "type A 4294967295"),
    ("members A 1", "members A 1"),
    ("scope A 12", "scope A 12"),
    ("link A 300", "link A 300"),
    ("structure A", "structure A"),
    ("typed A", "typed A"),
    ("type type 7", "type type 7"),
    ("type A 10\n\n# c\ntype A 1", "type A 10 | type A 1"),
];

// cancels, shutdowns and checks
static ORDERS: [Whole; 8] = [
    ("type A 1\ncancel 1", "type A 1 | cancel 1"),
    (
        "reload A a\ntype A 1\ncancel 2\ncancel 1",
        "reload A<a | type A 1 | cancel 2 | cancel 1",
    ),
    (
        "type A 1\n# c\ncancel 1\ntype A 1",
        "type A 1 | cancel 1 | type A 1",
    ),
    ("close", "close"),
    ("close\nclose", "close | close"),
    ("close\ntype A 1\ncancel 1", "close | type A 1 | cancel 1"),
    ("idle", "idle"),
    ("idle\nidle\n", "idle | idle"),
];

// lines under asks
static UNDER_ASKS: [Whole; 19] = [
    ("type A 1\n  @0 type A 2", "type A 1 | 1@0.0 type A 2"),
    (
        "type A 1\n  @4294967295 close",
        "type A 1 | 1@0.4294967295 close",
    ),
    (
        "type A 1\n  @0 type A 2\n    @7 type A 3\n      @8 close",
        "type A 1 | 1@0.0 type A 2 | 2@0.7 type A 3 | 3@0.8 close",
    ),
    (
        "type A 1\n  @1 type A 2\n  @1 type A 3\n  @2 type A 4",
        "type A 1 | 1@0.1 type A 2 | 1@0.1 type A 3 | 1@0.2 type A 4",
    ),
    (
        "type A 1\n  @5 type A 2\n    @1 type A 3\n  @5 type A 4",
        "type A 1 | 1@0.5 type A 2 | 2@0.1 type A 3 | 1@0.5 type A 4",
    ),
    (
        "type A 1\n  @5 close\ntype A 2\n  @1 close",
        "type A 1 | 1@0.5 close | type A 2 | 1@0.1 close",
    ),
    (
        "type A 1\n  @5 type A 2\n    @9 close\n  @6 type A 3\n    @0 close",
        "type A 1 | 1@0.5 type A 2 | 2@0.9 close | 1@0.6 type A 3 | 2@0.0 close",
    ),
    ("type A 1\n# c\n  @0 close", "type A 1 | 1@0.0 close"),
    ("type A 1\n\n  @0 close", "type A 1 | 1@0.0 close"),
    (
        "type A 1\n  @0 remove A\n  @0 reload A b",
        "type A 1 | 1@0.0 remove A | 1@0.0 reload A<b",
    ),
    ("type A 1\n  @9 cancel 1", "type A 1 | 1@0.9 cancel 1"),
    (
        "type A 1\n  @0 type A 2\n  @0 cancel 2",
        "type A 1 | 1@0.0 type A 2 | 1@0.0 cancel 2",
    ),
    ("members A 1\n  @1 close", "members A 1 | 1@0.1 close"),
    ("scope A 1\n  @1 close", "scope A 1 | 1@0.1 close"),
    ("link A 1\n  @1 close", "link A 1 | 1@0.1 close"),
    ("structure A\n  @1 close", "structure A | 1@0.1 close"),
    ("typed A\n  @1 close", "typed A | 1@0.1 close"),
    (
        "type A 1\n  @0 idle\n    @0.0 close",
        "type A 1 | 1@0.0 idle | 2@0.0 close",
    ),
    (
        "reload A a\ntype A 19\n  @0 type A 15\n    @0 type A 20\n      @0 close\ntype A 19\n",
        "reload A<a | type A 19 | 1@0.0 type A 15 | 2@0.0 type A 20 | 3@0.0 close | type A 19",
    ),
];

// lines under an `idle`
static UNDER_IDLE: [Whole; 7] = [
    ("idle\n  @0.0 type A 1", "idle | 1@0.0 type A 1"),
    (
        "idle\n  @0.9 type A 1\n  @1.0 type A 1",
        "idle | 1@0.9 type A 1 | 1@1.0 type A 1",
    ),
    (
        "idle\n  @2.3 close\n  @2.3 close",
        "idle | 1@2.3 close | 1@2.3 close",
    ),
    ("idle\n  @1.0 reload A b", "idle | 1@1.0 reload A<b"),
    (
        "idle\n  @0.0 type A 1\n    @3 close",
        "idle | 1@0.0 type A 1 | 2@0.3 close",
    ),
    (
        "idle\n  @0.0 idle\n    @1.1 close",
        "idle | 1@0.0 idle | 2@1.1 close",
    ),
    (
        "idle\n  @4294967295.4294967295 close",
        "idle | 1@4294967295.4294967295 close",
    ),
];

// scripts of clients
static CLIENTS: [Whole; 6] = [
    ("", ""),
    (
        "reload A a\ntype A 1\nwait 2\nwait 1",
        "reload A<a | type A 1 | wait 2 | wait 1",
    ),
    ("type A 1\nwait 1\nwait 1", "type A 1 | wait 1 | wait 1"),
    ("type A 1\ncancel 1\nwait 1", "type A 1 | cancel 1 | wait 1"),
    ("close\ntype A 1\nwait 1\n", "close | type A 1 | wait 1"),
    ("# c\nremove A", "remove A"),
];

// words and the spaces between them
static REFUSED_WORDS: [Refused; 22] = [
    ("x", 1),
    ("Reload A a", 1),
    ("reloads A a", 1),
    ("reload  A a", 1),
    ("reload A  a", 1),
    ("reload A a ", 1),
    (" reload A a", 1),
    ("reload A a\r", 1),
    ("reload A a\r\n", 1),
    ("reload\tA a", 1),
    ("reload A a\t", 1),
    ("reload A é", 1),
    ("reload A\x7f a", 1),
    ("é", 1),
    (" ", 1),
    ("  ", 1),
    ("  # c", 1),
    ("\nx", 2),
    ("\n\nx", 3),
    ("# c\n\nreload", 3),
    ("reload A a\n\n\n  \n", 4),
    ("reload A a\nx\ny", 2),
];

// reloads and removals
static REFUSED_RELOADS: [Refused; 13] = [
    ("reload", 1),
    ("reload ", 1),
    ("reload A", 1),
    ("reload A a B", 1),
    ("reload A a A b", 1),
    ("reload A a B b A c", 1),
    ("reload <A a", 1),
    ("reload A a <B b", 1),
    ("reload < a", 1),
    ("remove", 1),
    ("remove <A", 1),
    ("remove A ", 1),
    ("remove A <B", 1),
];

// asks and their numbers
static REFUSED_ASKS: [Refused; 21] = [
    ("type", 1),
    ("type A", 1),
    ("type A 01", 1),
    ("type A 00", 1),
    ("type A -1", 1),
    ("type A +1", 1),
    ("type A 4294967296", 1),
    ("type A 99999999999999999999", 1),
    ("type A x", 1),
    ("type A 1x", 1),
    ("type A 1 2", 1),
    ("type <A 1", 1),
    ("type A 1 ", 1),
    ("members A", 1),
    ("scope A", 1),
    ("link A", 1),
    ("structure", 1),
    ("structure A 1", 1),
    ("structure <A", 1),
    ("typed", 1),
    ("typed A B", 1),
];

// cancels, shutdowns, waits and checks
static REFUSED_ORDERS: [Refused; 15] = [
    ("cancel", 1),
    ("cancel 0", 1),
    ("cancel 1", 1),
    ("type A 1\ncancel 0", 2),
    ("type A 1\ncancel 2", 2),
    ("cancel 1\ntype A 1", 1),
    ("type A 1\ncancel 1\ncancel 1", 3),
    ("type A 1\ntype A 2\ncancel 1\ncancel 2\ncancel 1", 5),
    ("type A 1\ncancel 01", 2),
    ("type A 1\ncancel 1 1", 2),
    ("close now", 1),
    ("idle 1", 1),
    ("wait 1", 1),
    ("type A 1\nwait 1", 2),
    ("type A 1\n  @0 close\ncancel 2", 3),
];

// lines without a line above that holds them
static REFUSED_LEVELS: [Refused; 17] = [
    ("@0 type A 1", 1),
    ("  type A 1", 1),
    ("  @0 type A 1", 1),
    ("type A 1\n  type A 2", 2),
    ("type A 1\n @0 type A 2", 2),
    ("type A 1\n   @0 type A 2", 2),
    ("type A 1\n    @0 type A 2", 2),
    ("type A 1\n  @0 type A 2\n      @0 type A 3", 3),
    ("close\n  @0 type A 1", 2),
    ("reload A a\n  @0 type A 1", 2),
    ("remove A\n  @0 close", 2),
    ("type A 1\ncancel 1\n  @0 close", 3),
    ("# c\n  @0 close", 2),
    ("type A 1\nreload A a\n  @0 close", 3),
    ("type A 1\n  @0 reload A a\n    @0 close", 3),
    ("type A 1\n  @0 type A 2\ntype A 3\n    @0 close", 4),
    ("type A 1\n  # c", 2),
];

// numbers of inner lines
static REFUSED_NUMBERS: [Refused; 18] = [
    ("type A 1\n  @2 close\n  @1 close", 3),
    ("type A 1\n  @2 type A 2\n    @1 close\n  @1 close", 4),
    ("idle\n  @1.0 close\n  @0.9 close", 3),
    ("idle\n  @0.2 close\n  @0.1 close", 3),
    ("idle\n  @1 close", 2),
    ("type A 1\n  @0.1 close", 2),
    ("idle\n  @1. close", 2),
    ("idle\n  @.1 close", 2),
    ("idle\n  @1.2.3 close", 2),
    ("type A 1\n  @ close", 2),
    ("type A 1\n  @01 close", 2),
    ("type A 1\n  @1", 2),
    ("type A 1\n  @1 ", 2),
    ("type A 1\n  @1  close", 2),
    ("type A 1\n  @4294967296 close", 2),
    ("idle\n  @0.4294967296 close", 2),
    ("type A 1\n  @0 @0 close", 2),
    ("type A 1\n  0 close", 2),
];

// scripts of clients
static REFUSED_CLIENTS: [Refused; 9] = [
    ("idle", 1),
    ("type A 1\n  @0 close", 2),
    ("type A 1\nwait 0", 2),
    ("wait 1", 1),
    ("type A 1\nwait 2", 2),
    ("wait 1\ntype A 1", 1),
    ("type A 1\ncancel 1\ncancel 1", 3),
    ("type A 1\nwait", 2),
    ("type A 1\nwait 1 ", 2),
];

fn show_call(shown: &mut String, call: &Call) -> Result<(), AllocError> {
    match call {
        Call::Reload(pairs) => {
            shown.push_str("reload")?;
            for (name, path) in pairs.as_slice() {
                let (name, path) = (name.as_str(), path.as_str());
                write!(shown, " {name}<{path}")?;
            }
        }
        Call::Remove(names) => {
            shown.push_str("remove")?;
            for name in names.as_slice() {
                let name = name.as_str();
                write!(shown, " {name}")?;
            }
        }
        Call::TypeAt(name, offset) => show_ask(shown, "type", name, *offset)?,
        Call::MembersAt(name, offset) => show_ask(shown, "members", name, *offset)?,
        Call::ScopeAt(name, offset) => show_ask(shown, "scope", name, *offset)?,
        Call::LinkAt(name, offset) => show_ask(shown, "link", name, *offset)?,
        Call::Structure(name) => show_file(shown, "structure", name)?,
        Call::LoadedTyped(name) => show_file(shown, "typed", name)?,
    }
    Ok(())
}

fn show_ask(shown: &mut String, word: &str, name: &Text, offset: u32) -> Result<(), AllocError> {
    let name = name.as_str();
    write!(shown, "{word} {name} {offset}")
}

fn show_file(shown: &mut String, word: &str, name: &Text) -> Result<(), AllocError> {
    let name = name.as_str();
    write!(shown, "{word} {name}")
}

fn show_line(shown: &mut String, line: &Line) -> Result<(), AllocError> {
    let Line {
        level,
        check,
        turn,
        ..
    } = line;
    if *level > 0 || *check > 0 || *turn > 0 {
        write!(shown, "{level}@{check}.{turn} ")?;
    }
    match &line.order {
        Order::Call(call) => show_call(shown, call),
        Order::Cancel(number) => write!(shown, "cancel {number}"),
        Order::Close => shown.push_str("close"),
        Order::Wait(number) => write!(shown, "wait {number}"),
        Order::Idle => shown.push_str("idle"),
    }
}

fn shown_lines(alloc: Global, lines: &Row<Line>) -> Result<String, AllocError> {
    let mut shown = String::new(alloc);
    for line in lines.as_slice() {
        if !shown.is_empty() {
            shown.push_str(" | ")?;
        }
        show_line(&mut shown, line)?;
    }
    Ok(shown)
}

fn schedules(rt: &(impl Abort + AllocGlobal), table: &[Whole]) -> Result<(), Fail> {
    for (text, lines) in table {
        match read_schedule(rt.alloc(), text) {
            Ok(schedule) => {
                let shown = shown_lines(rt.alloc(), &schedule.script.lines)?;
                assert_eq!(rt; shown.as_str(), *lines, "the lines of {text:?}");
            }
            Err(refused) => panic!(rt; "{text:?} is refused: {refused}"),
        }
    }
    Ok(())
}

fn refused_schedules(rt: &(impl Abort + AllocGlobal), table: &[Refused]) -> Result<(), Fail> {
    for (text, line) in table {
        match read_schedule(rt.alloc(), text) {
            Ok(_) => panic!(rt; "{text:?} is read"),
            Err(refused) => assert_eq!(rt; refused, ScriptRefused::BadLine(*line), "{text:?}"),
        }
    }
    Ok(())
}

#[test]
fn nothing_are_read(rt: HostRuntime) -> Result<(), Fail> {
    schedules(&rt, &NOTHING)
}

#[test]
fn reloads_are_read(rt: HostRuntime) -> Result<(), Fail> {
    schedules(&rt, &RELOADS)
}

#[test]
fn calls_are_read(rt: HostRuntime) -> Result<(), Fail> {
    schedules(&rt, &CALLS)
}

#[test]
fn orders_are_read(rt: HostRuntime) -> Result<(), Fail> {
    schedules(&rt, &ORDERS)
}

#[test]
fn under_asks_are_read(rt: HostRuntime) -> Result<(), Fail> {
    schedules(&rt, &UNDER_ASKS)
}

#[test]
fn under_idle_are_read(rt: HostRuntime) -> Result<(), Fail> {
    schedules(&rt, &UNDER_IDLE)
}

#[test]
fn bad_words_are_refused(rt: HostRuntime) -> Result<(), Fail> {
    refused_schedules(&rt, &REFUSED_WORDS)
}

#[test]
fn bad_reloads_are_refused(rt: HostRuntime) -> Result<(), Fail> {
    refused_schedules(&rt, &REFUSED_RELOADS)
}

#[test]
fn bad_asks_are_refused(rt: HostRuntime) -> Result<(), Fail> {
    refused_schedules(&rt, &REFUSED_ASKS)
}

#[test]
fn bad_orders_are_refused(rt: HostRuntime) -> Result<(), Fail> {
    refused_schedules(&rt, &REFUSED_ORDERS)
}

#[test]
fn bad_levels_are_refused(rt: HostRuntime) -> Result<(), Fail> {
    refused_schedules(&rt, &REFUSED_LEVELS)
}

#[test]
fn bad_numbers_are_refused(rt: HostRuntime) -> Result<(), Fail> {
    refused_schedules(&rt, &REFUSED_NUMBERS)
}

#[test]
fn clients_are_read(rt: HostRuntime) -> Result<(), Fail> {
    for (text, lines) in &CLIENTS {
        match read_client(rt.alloc(), text) {
            Ok(script) => {
                let shown = shown_lines(rt.alloc(), &script.lines)?;
                assert_eq!(&rt; shown.as_str(), *lines, "the lines of {text:?}");
            }
            Err(refused) => panic!(&rt; "{text:?} is refused: {refused}"),
        }
    }
    Ok(())
}

#[test]
fn bad_clients_are_refused(rt: HostRuntime) -> Result<(), Fail> {
    for (text, line) in &REFUSED_CLIENTS {
        match read_client(rt.alloc(), text) {
            Ok(_) => panic!(&rt; "{text:?} is read"),
            Err(refused) => assert_eq!(&rt; refused, ScriptRefused::BadLine(*line), "{text:?}"),
        }
    }
    Ok(())
}

#[test]
fn texts_stand_in_the_place_of_paths(rt: HostRuntime) -> Result<(), Fail> {
    let alloc = rt.alloc();
    let script = match read_client(alloc, "reload A a B b C a\nremove a\nreload D d") {
        Ok(script) => script,
        Err(refused) => panic!(&rt; "refused: {refused}"),
    };
    let mut sources = Row::new(alloc);
    sources.push((Text::new(alloc, "b")?, Text::new(alloc, "text b")?))?;
    sources.push((Text::new(alloc, "a")?, Text::new(alloc, "text a")?))?;
    sources.push((Text::new(alloc, "d")?, Text::new(alloc, "")?))?;
    let script = with_texts(alloc, script, &sources)?;
    let shown = shown_lines(alloc, &script.lines)?;
    assert_eq!(&rt;
        shown.as_str(),
        "reload A<text a B<text b C<text a | remove a | reload D<"
    );
    Ok(())
}
