//! What a core does, act by act: asks that wait for one another, mutations under them, and the checks between them.

use crate::calls::{one_name, one_pair};
use crate::player::Player;
use ask_history::{Answer, Call, Effect, Turn};
use pc_terms::{NoMemory, Problem, Text};
use std::alloc::Global;
use std::fmt::Write;
use std::process::Abort;
use std::test::Fail;

/// The kinds of ask.
#[derive(Clone, Copy, Debug)]
enum Kind {
    Type,
    Members,
    Scope,
    Link,
    Structure,
    Typed,
}

/// A mutation.
#[derive(Clone, Copy, Debug)]
enum Change {
    Reload(&'static str, &'static str),
    ReloadTwo(&'static str, &'static str, &'static str, &'static str),
    Remove(&'static str),
    RemoveTwo(&'static str, &'static str),
}

/// One act of a play.
#[derive(Clone, Copy, Debug)]
enum Act {
    /// A mutation is staged and put in force.
    Put(Change),
    /// A mutation is staged and dropped.
    Drop(Change),
    /// A mutation is staged, the engine stops, and the mutation is put in force.
    StopAndPut(Change),
    Ask(u64, Kind, &'static str, u32),
    Turn,
    Settle(u64),
    Stop,
}

// `val x = 1` is 11-20, and `1` is 19-20.
const ONE: &str = "object A { val x = 1 }";

// `val y = 22` is 11-21.
const TWO: &str = "object B { val y = 22 }";

// `val zz = 333` is 11-23.
const OTHER: &str = "object C { val zz = 333 }";

const UNREAD: &str = "object D { val a = b }";

/// An act, and what comes of it.
type Step = (Act, &'static str);

static NESTED: [Step; 12] = [
    (Act::Put(Change::ReloadTwo("A", ONE, "B", TWO)), "done"),
    (Act::Ask(1, Kind::Type, "A", 19), "taken"),
    (Act::Turn, "1 Literal 19-20"),
    (Act::Ask(2, Kind::Type, "B", 0), "taken"),
    (Act::Ask(3, Kind::Type, "B", 11), "taken"),
    (Act::Turn, "3 ValDef 11-21"),
    (Act::Settle(2), "done"),
    (Act::Turn, "3 ValDef 11-21"),
    (Act::Settle(3), "done"),
    (Act::Turn, "1 Literal 19-20"),
    (Act::Settle(1), "done"),
    (Act::Turn, "check A"),
];

static MUTATIONS_UNDER_AN_ASK: [Step; 14] = [
    (Act::Put(Change::Reload("A", ONE)), "done"),
    (Act::Ask(1, Kind::Type, "A", 19), "taken"),
    (Act::Turn, "1 Literal 19-20"),
    (Act::Put(Change::Reload("A", OTHER)), "done"),
    (Act::Turn, "1 ValDef 11-23"),
    (Act::Drop(Change::Reload("A", TWO)), "done"),
    (Act::Turn, "1 ValDef 11-23"),
    (Act::Put(Change::Reload("D", UNREAD)), "done"),
    (Act::Turn, "1 unread"),
    (Act::Put(Change::RemoveTwo("D", "no such file")), "done"),
    (Act::Turn, "1 ValDef 11-23"),
    (Act::Put(Change::Remove("A")), "done"),
    (Act::Turn, "1 no unit"),
    (Act::Settle(1), "done"),
];

static EVERY_KIND: [Step; 25] = [
    (Act::Put(Change::Reload("A", ONE)), "done"),
    (Act::Ask(1, Kind::Type, "A", 0), "taken"),
    (Act::Turn, "1 ObjectDef 0-22"),
    (Act::Ask(2, Kind::Members, "A", 0), "taken"),
    (Act::Turn, "2 unread"),
    (Act::Ask(3, Kind::Scope, "A", 0), "taken"),
    (Act::Turn, "3 unread"),
    (Act::Ask(4, Kind::Link, "A", 0), "taken"),
    (Act::Turn, "4 unread"),
    (Act::Ask(5, Kind::Structure, "A", 0), "taken"),
    (Act::Turn, "5 unread"),
    (Act::Ask(6, Kind::Typed, "A", 0), "taken"),
    (Act::Turn, "6 unread"),
    (Act::Ask(7, Kind::Type, "B", 0), "taken"),
    (Act::Turn, "7 no unit"),
    (Act::Ask(8, Kind::Members, "B", 0), "taken"),
    (Act::Turn, "8 no unit"),
    (Act::Ask(9, Kind::Scope, "B", 0), "taken"),
    (Act::Turn, "9 no unit"),
    (Act::Ask(10, Kind::Link, "B", 0), "taken"),
    (Act::Turn, "10 no unit"),
    (Act::Ask(11, Kind::Structure, "B", 0), "taken"),
    (Act::Turn, "11 no unit"),
    (Act::Ask(12, Kind::Typed, "B", 0), "taken"),
    (Act::Turn, "12 no unit"),
];

static CHECKS: [Step; 20] = [
    (Act::Turn, "idle"),
    (Act::Put(Change::ReloadTwo("B", TWO, "A", ONE)), "done"),
    (Act::Turn, "check B"),
    (Act::Put(Change::Reload("C", OTHER)), "done"),
    (Act::Turn, "check B"),
    (Act::Turn, "check A"),
    (Act::Turn, "check C"),
    (Act::Turn, "idle"),
    (Act::Drop(Change::Reload("A", TWO)), "done"),
    (Act::Turn, "idle"),
    (Act::Put(Change::Reload("A", UNREAD)), "done"),
    (Act::Turn, "check B, P1 0-0 not a statement of the profile"),
    (Act::Ask(1, Kind::Structure, "A", 0), "taken"),
    (Act::Turn, "1 unread"),
    (Act::Settle(1), "done"),
    (Act::Turn, "check A, P1 0-0 not a statement of the profile"),
    (Act::Turn, "check C, P1 0-0 not a statement of the profile"),
    (Act::Turn, "idle"),
    (Act::Turn, "idle"),
    (Act::Stop, "done"),
];

static CHECKS_AFTER_A_REMOVAL: [Step; 12] = [
    (Act::Put(Change::ReloadTwo("A", ONE, "D", UNREAD)), "done"),
    (Act::Put(Change::Reload("C", OTHER)), "done"),
    (Act::Turn, "check A, P1 0-0 not a statement of the profile"),
    (Act::Turn, "check D, P1 0-0 not a statement of the profile"),
    (Act::Put(Change::RemoveTwo("D", "D")), "done"),
    (Act::Turn, "check A"),
    (Act::Turn, "check C"),
    (Act::Turn, "idle"),
    (Act::Put(Change::Reload("D", "")), "done"),
    (Act::Put(Change::Remove("A")), "done"),
    (Act::Turn, "check C"),
    (Act::Turn, "check D"),
];

static STOPPED: [Step; 9] = [
    (Act::Put(Change::Reload("A", ONE)), "done"),
    (Act::Ask(1, Kind::Type, "A", 0), "taken"),
    (Act::Ask(2, Kind::Type, "A", 19), "taken"),
    (Act::StopAndPut(Change::Reload("B", TWO)), "done"),
    (Act::Turn, "check A"),
    (Act::Ask(3, Kind::Type, "B", 0), "taken"),
    (Act::Turn, "3 ObjectDef 0-23"),
    (Act::Stop, "done"),
    (Act::Turn, "check B"),
];

// ---- the calls

fn change_call(alloc: Global, change: Change) -> Result<Call, NoMemory> {
    match change {
        Change::Reload(name, text) => Ok(Call::Reload(one_pair(alloc, name, text)?)),
        Change::ReloadTwo(first, text, second, other) => {
            let mut pairs = one_pair(alloc, first, text)?;
            pairs.push((Text::new(alloc, second)?, Text::new(alloc, other)?))?;
            Ok(Call::Reload(pairs))
        }
        Change::Remove(name) => Ok(Call::Remove(one_name(alloc, name)?)),
        Change::RemoveTwo(first, second) => {
            let mut names = one_name(alloc, first)?;
            names.push(Text::new(alloc, second)?)?;
            Ok(Call::Remove(names))
        }
    }
}

fn ask_call(alloc: Global, kind: Kind, file: &str, offset: u32) -> Result<Call, NoMemory> {
    let file = Text::new(alloc, file)?;
    Ok(match kind {
        Kind::Type => Call::TypeAt(file, offset),
        Kind::Members => Call::MembersAt(file, offset),
        Kind::Scope => Call::ScopeAt(file, offset),
        Kind::Link => Call::LinkAt(file, offset),
        Kind::Structure => Call::Structure(file),
        Kind::Typed => Call::LoadedTyped(file),
    })
}

// ---- what comes of an act, as the rows have it

fn shown_answer(alloc: Global, answer: &Answer) -> Result<String, NoMemory> {
    let mut shown = String::new(alloc);
    match answer {
        Answer::Tree(info) => {
            let (kind, start, end) = (info.kind, info.span.start, info.span.end);
            write!(shown, "{kind:?} {start}-{end}")?;
        }
        Answer::NoUnit => shown.push_str("no unit")?,
        Answer::Unread => shown.push_str("unread")?,
        _ => shown.push_str("another answer")?,
    }
    Ok(shown)
}

fn shown_check(alloc: Global, file: &Text, problems: &[Problem]) -> Result<String, NoMemory> {
    let mut shown = String::new(alloc);
    write!(shown, "check {}", file.as_str())?;
    for problem in problems {
        let (code, start, end) = (problem.code, problem.span.start, problem.span.end);
        write!(shown, ", {code:?} {start}-{end} {}", problem.text.as_str())?;
    }
    Ok(shown)
}

fn shown_turn(alloc: Global, turn: &Turn) -> Result<String, NoMemory> {
    match turn {
        Turn::Ready(ticket, answer) => {
            let answer = shown_answer(alloc, answer)?;
            let mut shown = String::new(alloc);
            write!(shown, "{ticket} {}", answer.as_str())?;
            Ok(shown)
        }
        Turn::Checked(file, problems) => shown_check(alloc, file, problems.as_slice()),
        Turn::Idle => Ok(String::from_str(alloc, "idle")?),
        Turn::Safe => Ok(String::from_str(alloc, "safe")?),
        Turn::NoMemory(_) | Turn::CheckNoMemory(_) => Err(NoMemory {}),
    }
}

fn word_if(made: bool, word: &'static str) -> &'static str {
    if made { word } else { "refused" }
}

fn changed(
    alloc: Global,
    player: &mut Player,
    change: Change,
    stops: bool,
    effect: Effect,
) -> Result<&'static str, NoMemory> {
    let call = change_call(alloc, change)?;
    Ok(word_if(player.change(&call, stops, effect)?, "done"))
}

fn fed(
    alloc: Global,
    player: &mut Player,
    ticket: u64,
    kind: Kind,
    file: &str,
    offset: u32,
) -> Result<&'static str, NoMemory> {
    let call = ask_call(alloc, kind, file, offset)?;
    Ok(word_if(player.feed(ticket, &call)?, "taken"))
}

// What comes of an act other than a turn.
fn acted(alloc: Global, player: &mut Player, act: Act) -> Result<&'static str, NoMemory> {
    match act {
        Act::Put(change) => changed(alloc, player, change, false, Effect::Applies),
        Act::Drop(change) => changed(alloc, player, change, false, Effect::Dropped),
        Act::StopAndPut(change) => changed(alloc, player, change, true, Effect::Applies),
        Act::Ask(ticket, kind, file, offset) => fed(alloc, player, ticket, kind, file, offset),
        Act::Settle(ticket) => Ok(word_if(player.settle(ticket), "done")),
        Act::Stop => {
            player.stop();
            Ok("done")
        }
        Act::Turn => Ok("a turn"),
    }
}

fn turned(alloc: Global, player: &mut Player) -> Result<String, NoMemory> {
    let turn = player.turn();
    shown_turn(alloc, &turn)
}

fn agree(rt: &(impl Abort + AllocGlobal), player: &mut Player, step: &Step) -> Result<(), Fail> {
    let (act, wanted) = *step;
    if matches!(act, Act::Turn) {
        assert_eq!(rt; turned(rt.alloc(), player)?.as_str(), wanted, "{act:?}");
    } else {
        assert_eq!(rt; acted(rt.alloc(), player, act)?, wanted, "{act:?}");
    }
    Ok(())
}

fn play_on(
    rt: &(impl Abort + AllocGlobal),
    player: &mut Player,
    steps: &[Step],
) -> Result<(), Fail> {
    for step in steps {
        agree(rt, player, step)?;
    }
    Ok(())
}

fn play(rt: &(impl Abort + AllocGlobal), steps: &[Step]) -> Result<(), Fail> {
    let mut player = Player::new(rt.alloc())?;
    play_on(rt, &mut player, steps)
}

#[test]
fn the_last_fed_is_on_top(rt: HostRuntime) -> Result<(), Fail> {
    play(&rt, &NESTED)
}

#[test]
fn an_ask_sees_the_mutations_under_it(rt: HostRuntime) -> Result<(), Fail> {
    play(&rt, &MUTATIONS_UNDER_AN_ASK)
}

#[test]
fn every_kind_of_ask_is_answered(rt: HostRuntime) -> Result<(), Fail> {
    play(&rt, &EVERY_KIND)
}

#[test]
fn checks_run_in_load_order(rt: HostRuntime) -> Result<(), Fail> {
    play(&rt, &CHECKS)
}

#[test]
fn a_file_taken_out_is_not_checked(rt: HostRuntime) -> Result<(), Fail> {
    play(&rt, &CHECKS_AFTER_A_REMOVAL)
}

#[test]
fn a_stop_leaves_what_is_staged(rt: HostRuntime) -> Result<(), Fail> {
    play(&rt, &STOPPED)
}
