//! Tells a user how a run ended.

ghost use Rattle.std.specs.Prelude.{◌≡◌, ◌++◌, ◌⊎◌, true, [], IfOk};
ghost use Rattle.std.specs.Option.{option_map};
ghost use Rattle.session_run.specs.Run as spec;
ghost use Rattle.session_run.specs.Telling.{IsOrNoMemory};
ghost use Rattle.session_run.specs.declared.ending.Ending.TheVariants as ending;

use crate::Ending;
use pc_outside::Sink;
use pc_terms::{NoMemory, Text};
use session_input::{Limit, Refusal};
use std::alloc::Global;

fn limit_name(limit: Limit) -> &'static str
    ensures { result.now ≡ spec.limit_name limit }
{
    match limit {
        Limit::Clients => "Clients",
        Limit::FileBytes => "FileBytes",
        Limit::ScriptBytes => "ScriptBytes",
        Limit::Calls => "Calls",
        Limit::Text => "Text",
        Limit::Names => "Names",
        Limit::Map => "Map",
    }
}

fn refusal_status(why: &Refusal) -> u8
    ensures { result ≡ spec.refusal_status why.now }
{
    match why {
        Refusal::ReadFault(_) => 3,
        Refusal::BadScript(_, _) => 4,
        Refusal::Limit(_, _) => 8,
        Refusal::NotUtf8(_, _) => 9,
    }
}

/// The status that a run which ended so gives to the system.
pub fn status_of(ending: &Ending) -> u8
    ensures { result ≡ spec.status_of ending.now }
{
    match ending {
        Ending::Done => 0,
        Ending::Usage => 2,
        Ending::Refused(why) => refusal_status(why),
        Ending::WriteFault => 5,
        Ending::SpawnFault => 6,
        Ending::NoMemory => 7,
    }
}

fn usage_line() -> &'static str
    ensures { result.now ≡ spec.line_text ending.Usage }
{
    "usage: batch NAME... or step SCHEDULE or replay CLIENT...\n"
}

fn write_fault_line() -> &'static str
    ensures { result.now ≡ spec.line_text ending.WriteFault }
{
    "write fault\n"
}

fn spawn_fault_line() -> &'static str
    ensures { result.now ≡ spec.line_text ending.SpawnFault }
{
    "spawn fault\n"
}

fn no_memory_line() -> &'static str
    ensures { result.now ≡ spec.line_text ending.NoMemory }
{
    "no memory\n"
}

fn bad_script_line(alloc: Global, name: &Text, line: u64) -> Result<Text, NoMemory>
    ensures { IfOk result (λ text. text ≡ spec.bad_script_text name.now line) }
{
    let mut text = Text::new(alloc, "bad script: ")?;
    text.push_str(name.as_str())?;
    text.push_str(" line ")?;
    text.push_number(alloc, line)?;
    text.push_str("\n")?;
    Ok(text)
}

fn limit_line(alloc: Global, limit: Limit, value: u64) -> Result<Text, NoMemory>
    ensures { IfOk result (λ text. text ≡ spec.limit_text limit value) }
{
    let mut text = Text::new(alloc, "limit ")?;
    text.push_str(limit_name(limit))?;
    text.push_str(" ")?;
    text.push_number(alloc, value)?;
    text.push_str("\n")?;
    Ok(text)
}

fn not_utf8_line(alloc: Global, name: &Text, byte: u64) -> Result<Text, NoMemory>
    ensures { IfOk result (λ text. text ≡ spec.not_utf8_text name.now byte) }
{
    let mut text = Text::new(alloc, "not UTF-8: ")?;
    text.push_str(name.as_str())?;
    text.push_str(" byte ")?;
    text.push_number(alloc, byte)?;
    text.push_str("\n")?;
    Ok(text)
}

fn read_fault_line(alloc: Global, name: &Text) -> Result<Text, NoMemory>
    ensures { IfOk result (λ text. text ≡ spec.read_fault_text name.now) }
{
    let mut text = Text::new(alloc, "read fault: ")?;
    text.push_str(name.as_str())?;
    text.push_str("\n")?;
    Ok(text)
}

fn refusal_line(alloc: Global, why: &Refusal) -> Result<Text, NoMemory>
    ensures { IfOk result (λ text. text ≡ spec.refusal_text why.now) }
{
    match why {
        Refusal::ReadFault(name) => read_fault_line(alloc, name),
        Refusal::BadScript(name, line) => bad_script_line(alloc, name, *line),
        Refusal::Limit(limit, value) => limit_line(alloc, *limit, *value),
        Refusal::NotUtf8(name, byte) => not_utf8_line(alloc, name, *byte),
    }
}

// Puts a line on the sink. Whether it took the line is not asked.
fn put_line<E: Sink>(err: &mut E, line: &str)
    ensures { E.whole err.new ≡ true → E.written err.new ≡ option_map (λ bytes. bytes ++ line.now) (E.written err.old) }
{
    match err.put(line.as_bytes()) {
        Ok(()) => {}
        Err(_) => {}
    }
}

/// Tells how a run ended. Where there is no memory for the line of a refusal, the run ends out of memory.
pub fn tell<E: Sink>(alloc: Global, err: &mut E, ending: Ending) -> Ending
    ensures told { E.whole err.new ≡ true → E.written err.new ≡ option_map (λ bytes. bytes ++ spec.line_text result) (E.written err.old) }
    ensures same { IsOrNoMemory ending result }
{
    match ending {
        Ending::Done => Ending::Done,
        Ending::Usage => {
            put_line(err, usage_line());
            Ending::Usage
        }
        Ending::WriteFault => {
            put_line(err, write_fault_line());
            Ending::WriteFault
        }
        Ending::SpawnFault => {
            put_line(err, spawn_fault_line());
            Ending::SpawnFault
        }
        Ending::NoMemory => {
            put_line(err, no_memory_line());
            Ending::NoMemory
        }
        Ending::Refused(why) => match refusal_line(alloc, &why) {
            Ok(line) => {
                put_line(err, line.as_str());
                Ending::Refused(why)
            }
            Err(NoMemory {}) => {
                put_line(err, no_memory_line());
                Ending::NoMemory
            }
        },
    }
}
