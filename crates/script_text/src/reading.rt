//! Reads a text to its end.

ghost use Rattle.std.specs.Prelude.{◌≡◌, ◌≤◌, ◌+◌, length, IfOk, IfErr};
ghost use Rattle.script_text.specs.Grammar.{IsScript};
ghost use Rattle.script_text.specs.Refusing.{IsReading, IsRefused};
ghost use Rattle.script_text.specs.Reading.{lines_read};
ghost use Rattle.script_text.specs.declared.kinds.ScriptKind.TheVariants as kind;

use crate::above::Above;
use crate::kinds::ScriptKind;
use crate::pieces::{cut, is_passed};
use crate::refused::ScriptRefused;
use ask_history::{Line, Schedule, Script};
use pc_terms::Row;
use std::alloc::Global;

// The lines of a text.
#[tactic(auto, using(crate::proofs::WrittenLines::read_stands))]
fn lines_of(alloc: Global, kind: ScriptKind, text: &str) -> Result<Row<Line>, ScriptRefused>
    ensures reading { IsReading (λ lines. lines) (lines_read kind text.now) result }
    ensures few { IfOk result (λ lines. length lines ≤ length text.now + 1) }
{
    let mut above = Above::new(alloc);
    let mut number: u64 = 1;
    let mut left = Some(text.as_bytes());
    while let Some(rest) = left {
        let (bytes, behind) = cut(rest, b'\n');
        if !is_passed(bytes) {
            match above.line_read(alloc, kind, bytes)? {
                Some(line) => above.note(kind, line)?,
                None => return Err(ScriptRefused::BadLine(number)),
            }
        }
        number += 1;
        left = behind;
    }
    let Above { lines, .. } = above;
    Ok(lines)
}

/// Reads a schedule to its end. In what it gives each path stands in the place of its text.
#[tactic(auto, using(crate::proofs::GrammarLemmas::reading_rules))]
pub fn read_schedule(alloc: Global, text: &str) -> Result<Schedule, ScriptRefused>
    ensures lines { IfOk result (λ schedule. IsScript kind.Schedule text.now schedule.script.lines) }
    ensures refused { IfErr result (IsRefused kind.Schedule text.now) }
    ensures reading { IsReading (λ schedule. schedule.script.lines) (lines_read kind.Schedule text.now) result }
    ensures few { IfOk result (λ schedule. length schedule.script.lines ≤ length text.now + 1) }
{
    match lines_of(alloc, ScriptKind::Schedule, text) {
        Ok(lines) => Ok(Schedule {
            script: Script { lines },
        }),
        Err(refused) => Err(refused),
    }
}

/// Reads a client's script to its end. In what it gives each path stands in the place of its text.
#[tactic(auto, using(crate::proofs::GrammarLemmas::reading_rules))]
pub fn read_client(alloc: Global, text: &str) -> Result<Script, ScriptRefused>
    ensures lines { IfOk result (λ script. IsScript kind.Client text.now script.lines) }
    ensures refused { IfErr result (IsRefused kind.Client text.now) }
    ensures reading { IsReading (λ script. script.lines) (lines_read kind.Client text.now) result }
    ensures few { IfOk result (λ script. length script.lines ≤ length text.now + 1) }
{
    match lines_of(alloc, ScriptKind::Client, text) {
        Ok(lines) => Ok(Script { lines }),
        Err(refused) => Err(refused),
    }
}
