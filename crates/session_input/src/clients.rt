//! Reads the input of a session of clients.

ghost use Rattle.std.specs.Prelude.{◌≡◌, ◌≤◌, ◌<◌, ◌^◌, ℕ, List, length, map, string_bytes, IfOk};
ghost use Rattle.script_text.specs.Texts.{script_with};
ghost use Rattle.session_input.specs.Clients.{scripts_within, clients_reading};
ghost use Rattle.session_input.specs.Counts.{HaveTexts, most_pairs};
ghost use Rattle.session_input.specs.Faults.{CountsFaults};
ghost use Rattle.session_input.specs.Reads.{ComesTo};
ghost use Rattle.session_input.specs.Sources.{pairs_in, lines_in};

use crate::counts::passed_by_all;
use crate::limits::most_of;
use crate::scripts::read_scripts;
use crate::sources::read_all_sources;
use crate::{Limit, NoInput, Refusal};
use ask_history::Script;
use indexmap::IndexMap;
use pc_outside::Files;
use pc_terms::{NoMemory, Row, Text};
use script_text::all_with_texts;
use std::alloc::Global;

// The scripts with the texts of their paths.
fn scripts_with(
    alloc: Global,
    scripts: Row<Script>,
    sources: IndexMap<Text, Text>,
) -> Result<Row<Script>, NoMemory>
    ensures { IfOk result (λ found. found ≡ map (script_with sources.entries) scripts) }
{
    let sources = Row::from_vec(sources.into_iter().collect(alloc)?);
    all_with_texts(alloc, scripts, &sources)
}

// The scripts with their texts, unless all together pass a limit.
fn scripts_within(
    alloc: Global,
    scripts: Row<Script>,
    sources: IndexMap<Text, Text>,
) -> Result<Row<Script>, NoInput>
    requires few { length (pairs_in (lines_in scripts)) ≤ most_pairs }
    requires lines { length (lines_in scripts) < 2 ^ 64 }
    requires texts { HaveTexts sources.entries (pairs_in (lines_in scripts)) }
    ensures { (content : List ℕ → _) → ComesTo content (scripts_within (map (script_with sources.entries) scripts)) result }
{
    match passed_by_all(alloc, &sources, scripts.as_slice())? {
        Some((limit, value)) => Err(NoInput::Refused(Refusal::Limit(limit, value))),
        None => Ok(scripts_with(alloc, scripts, sources)?),
    }
}

/// The scripts of clients, with the texts of the sources that they name, each of which is read once. They are refused
/// where there are too many clients, before any of them is read.
pub fn read_clients_input<F: Files>(
    alloc: Global,
    files: &mut F,
    names: &[String],
) -> Result<Row<Script>, NoInput>
    ensures comes { ComesTo (F.content files.old) (clients_reading (map string_bytes names.now)) result }
    ensures content { (other : List ℕ) → F.content files.new other ≡ F.content files.old other }
    ensures counts { CountsFaults result (F.faults files.old) (F.faults files.new) (F.last_failed files.new) }
{
    let count = names.len() as u64;
    if count > most_of(Limit::Clients) {
        return Err(NoInput::Refused(Refusal::Limit(Limit::Clients, count)));
    }
    let scripts = match read_scripts(alloc, files, names) {
        Ok(scripts) => scripts,
        Err(none) => return Err(none),
    };
    match read_all_sources(alloc, files, scripts.as_slice()) {
        Ok(sources) => scripts_within(alloc, scripts, sources),
        Err(none) => Err(none),
    }
}
