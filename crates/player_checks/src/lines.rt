//! The lines of a schedule, with texts in the places of paths, and one turn number in all inner lines.

ghost use Rattle.std.specs.Prelude.{◌≡◌, ◌<◌, ◌^◌, true, length, IfOk};
ghost use Rattle.std.specs.Bool.{OnTrue};
ghost use Rattle.std.specs.List.{list_all};
ghost use Rattle.ask_history.specs.Engine.{has_file_names, is_file_name};
ghost use Rattle.work_queue.specs.Reloads.{reloaded_by};
ghost use Rattle.schedule_player.specs.Owed.{CanPlay, CanPlayAll};

use ask_history::{Call, Line, Order, Script};
use pc_terms::{NoMemory, Row, Text};
use script_text::{read_schedule, with_texts};
use std::alloc::Global;

/// The paths of the schedules, each with its text. The asks are about these parts: in the first text `val x = 1` at
/// 11-20 with its name at 15, and `1` at 19-20; in the second `"s"` at 19-22; in the last two the last `b`, at 30-31
/// and 31-32.
const TEXTS: [(&str, &str); 6] = [
    ("a.txt", "object A { val x = 1 }"),
    ("a2.txt", "object A { val x = \"s\" }"),
    ("b.txt", "object B { val a = b; val b = 1 }"),
    ("b2.txt", "object B { val a = b; val b = \"s\" }"),
    ("c.txt", "object B { val b = 1; val a = b }"),
    ("c2.txt", "object B { val b = \"\"; val a = b }"),
];

fn is_name(name: &str) -> bool
    ensures { result ≡ is_file_name name.now }
{
    match name.as_bytes() {
        [] => false,
        [first, ..] => *first != b'<',
    }
}

fn has_pair_names(pairs: &[(Text, Text)]) -> bool
    ensures { OnTrue result (list_all (λ pair. is_file_name pair.0) pairs.now ≡ true) }
{
    for pair in pairs {
        if !is_name(pair.0.as_str()) {
            return false;
        }
    }
    true
}

fn has_names(names: &[Text]) -> bool
    ensures { OnTrue result (list_all is_file_name names.now ≡ true) }
{
    for name in names {
        if !is_name(name.as_str()) {
            return false;
        }
    }
    true
}

fn can_post(call: &Call) -> bool
    ensures names { OnTrue result (has_file_names call.now ≡ true) }
    ensures few { OnTrue result (length (reloaded_by call.now) < 2 ^ 32) }
{
    match call {
        Call::Reload(pairs) => {
            let pairs = pairs.as_slice();
            pairs.len() < 1000 && has_pair_names(pairs)
        }
        Call::Remove(names) => has_names(names.as_slice()),
        Call::TypeAt(file, _) | Call::MembersAt(file, _) | Call::ScopeAt(file, _) => is_name(
            file.as_str(),
        ),
        Call::LinkAt(file, _) | Call::Structure(file) | Call::LoadedTyped(file) => is_name(
            file.as_str(),
        ),
    }
}

fn can_play(order: &Order) -> bool
    ensures { OnTrue result (CanPlay order.now) }
{
    match order {
        Order::Call(call) => can_post(call),
        _ => true,
    }
}

// The line with this turn number, where it is an inner one.
fn with_turn(line: Line, turn: u32) -> Result<Line, NoMemory>
    ensures { IfOk result (λ line. CanPlay line.order) }
{
    let Line {
        level,
        check,
        turn: own,
        order,
    } = line;
    if !can_play(&order) {
        return Err(NoMemory {});
    }
    Ok(Line {
        level,
        check,
        turn: if level > 0 { turn } else { own },
        order,
    })
}

#[tactic(auto, using(crate::proofs::Playable::push_can_play))]
fn with_turns(alloc: Global, lines: Row<Line>, turn: u32) -> Result<Row<Line>, NoMemory>
    ensures { IfOk result CanPlayAll }
{
    let mut made = Row::new(alloc);
    for line in lines.into_vec() {
        made.push(with_turn(line, turn)?)?;
    }
    Ok(made)
}

fn texts(alloc: Global) -> Result<Row<(Text, Text)>, NoMemory> {
    let mut texts = Row::new(alloc);
    for text in TEXTS {
        texts.push((Text::new(alloc, text.0)?, Text::new(alloc, text.1)?))?;
    }
    Ok(texts)
}

fn read(alloc: Global, schedule: &str) -> Result<Script, NoMemory> {
    match read_schedule(alloc, schedule) {
        Ok(schedule) => Ok(schedule.script),
        Err(_) => Err(NoMemory {}),
    }
}

/// The lines of a schedule with this turn number in all inner ones. One that cannot be read or played is refused.
pub fn lines_of(alloc: Global, schedule: &str, turn: u32) -> Result<Row<Line>, NoMemory>
    ensures { IfOk result CanPlayAll }
{
    let texts = texts(alloc)?;
    let script = with_texts(alloc, read(alloc, schedule)?, &texts)?;
    with_turns(alloc, script.lines, turn)
}
