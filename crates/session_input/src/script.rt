//! Reads a script.

ghost use Rattle.std.specs.Prelude.{◌≡◌, ◌≤◌, ℕ, true, List, length, IfOk};
ghost use Rattle.std.specs.List.{list_all};
ghost use Rattle.session_input.specs.Faults.{CountsFaults};
ghost use Rattle.session_input.specs.Limits as limits;
ghost use Rattle.session_input.specs.Reads.{ComesTo};
ghost use Rattle.session_input.specs.Sources.{lines_or_bad, script_reading, pairs_in, names_files};
ghost use Rattle.script_text.specs.Reading.{lines_read};
ghost use Rattle.script_text.specs.declared.kinds.ScriptKind.TheVariants as kind;

use crate::texts::read_text;
use crate::{Limit, NoInput, Refusal};
use ask_history::{Line, Schedule, Script};
use pc_outside::Files;
use pc_terms::{Row, Text};
use script_text::{ScriptRefused, read_schedule};
use std::alloc::Global;

// The lines of a schedule's text.
#[tactic(auto, using(crate::proofs::PairLemmas::script_rules))]
fn lines_of(alloc: Global, name: &Text, text: &Text) -> Result<Row<Line>, NoInput>
    ensures comes { (content : List ℕ → _) → ComesTo content (lines_or_bad name.now (lines_read kind.Schedule text.now)) result }
    ensures few { IfOk result (λ lines. length (pairs_in lines) ≤ length text.now) }
    ensures names { IfOk result (λ lines. list_all names_files lines ≡ true) }
{
    match read_schedule(alloc, text.as_str()) {
        Ok(schedule) => {
            let Schedule { script } = schedule;
            let Script { lines } = script;
            Ok(lines)
        }
        Err(ScriptRefused::BadLine(line)) => {
            Err(NoInput::Refused(Refusal::BadScript(name.clone()?, line)))
        }
        Err(ScriptRefused::NoMemory) => Err(NoInput::NoMemory),
    }
}

/// The lines of a schedule, in which paths stand in the place of texts.
pub fn read_lines<F: Files>(
    alloc: Global,
    files: &mut F,
    schedule: &Text,
) -> Result<Row<Line>, NoInput>
    ensures comes { ComesTo (F.content files.old) (script_reading kind.Schedule schedule.now) result }
    ensures few { IfOk result (λ lines. length (pairs_in lines) ≤ limits.most_of Limit.ScriptBytes) }
    ensures names { IfOk result (λ lines. list_all names_files lines ≡ true) }
    ensures content { (other : List ℕ) → F.content files.new other ≡ F.content files.old other }
    ensures counts { CountsFaults result (F.faults files.old) (F.faults files.new) (F.last_failed files.new) }
{
    match read_text(alloc, files, schedule, Limit::ScriptBytes) {
        Ok(text) => lines_of(alloc, schedule, &text),
        Err(none) => Err(none),
    }
}
