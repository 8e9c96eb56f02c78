//! Reads the input of a session.

ghost use Rattle.std.specs.Prelude.{◌≡◌, ◌≤◌, ℕ, true, List, length, map, IfOk};
ghost use Rattle.std.specs.List.{list_all};
ghost use Rattle.script_text.specs.Texts.{line_with};
ghost use Rattle.session_input.specs.Counts.{HaveTexts};
ghost use Rattle.session_input.specs.Faults.{CountsFaults};
ghost use Rattle.session_input.specs.Input.{within_limits, schedule_reading};
ghost use Rattle.session_input.specs.Limits as limits;
ghost use Rattle.session_input.specs.Reads.{ComesTo};
ghost use Rattle.session_input.specs.Sources.{pairs_in, names_files};

use crate::counts::passed_by;
use crate::script::read_lines;
use crate::sources::read_sources;
use crate::{Limit, NoInput, Refusal};
use ask_history::{Line, Script};
use indexmap::IndexMap;
use pc_outside::Files;
use pc_terms::{NoMemory, Row, Text};
use script_text::with_texts;
use std::alloc::Global;

// The lines with the texts of their paths.
fn lines_with(
    alloc: Global,
    lines: Row<Line>,
    sources: IndexMap<Text, Text>,
) -> Result<Row<Line>, NoMemory>
    ensures { IfOk result (λ found. found ≡ map (line_with sources.entries) lines) }
{
    let sources = Row::from_vec(sources.into_iter().collect(alloc)?);
    let Script { lines } = with_texts(alloc, Script { lines }, &sources)?;
    Ok(lines)
}

// The lines with their texts, unless they pass a limit.
#[tactic(auto, using(crate::proofs::PairLemmas::text_rules))]
fn lines_within(
    alloc: Global,
    lines: Row<Line>,
    sources: IndexMap<Text, Text>,
) -> Result<Row<Line>, NoInput>
    requires few { length (pairs_in lines) ≤ limits.most_of Limit.ScriptBytes }
    requires texts { HaveTexts sources.entries (pairs_in lines) }
    ensures comes { (content : List ℕ → _) → ComesTo content (within_limits (map (line_with sources.entries) lines)) result }
    ensures few { IfOk result (λ found. length (pairs_in found) ≤ length (pairs_in lines)) }
    ensures names { IfOk result (λ found. list_all names_files found ≡ list_all names_files lines) }
{
    match passed_by(alloc, &sources, lines.as_slice())? {
        Some((limit, value)) => Err(NoInput::Refused(Refusal::Limit(limit, value))),
        None => Ok(lines_with(alloc, lines, sources)?),
    }
}

/// The lines of a schedule, with the texts of the sources that it names. Each file is read once, and one byte more is
/// asked for than it may have.
pub fn read_schedule_input<F: Files>(
    alloc: Global,
    files: &mut F,
    schedule: &Text,
) -> Result<Row<Line>, NoInput>
    ensures comes { ComesTo (F.content files.old) (schedule_reading schedule.now) result }
    ensures few { IfOk result (λ lines. length (pairs_in lines) ≤ limits.most_of Limit.ScriptBytes) }
    ensures names { IfOk result (λ lines. list_all names_files lines ≡ true) }
    ensures content { (other : List ℕ) → F.content files.new other ≡ F.content files.old other }
    ensures counts { CountsFaults result (F.faults files.old) (F.faults files.new) (F.last_failed files.new) }
{
    let lines = match read_lines(alloc, files, schedule) {
        Ok(lines) => lines,
        Err(none) => return Err(none),
    };
    match read_sources(alloc, files, lines.as_slice()) {
        Ok(sources) => lines_within(alloc, lines, sources),
        Err(none) => Err(none),
    }
}
