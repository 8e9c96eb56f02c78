//! Reads the scripts of clients: first the texts of all, and then their lines.

ghost use Rattle.std.specs.Prelude.{◌≡◌, ◌≤◌, ◌∷◌, [], ℕ, List, map, string_bytes, MatchResult};
ghost use Rattle.session_input.specs.Clients.{texts_reading, scripts_reading, named_scripts};
ghost use Rattle.session_input.specs.Faults.{CountsFaults};
ghost use Rattle.session_input.specs.Leads.{Leads, Ends};
ghost use Rattle.session_input.specs.Reads.{ComesTo};
ghost use Rattle.session_input.specs.Sources.{lines_or_bad};
ghost use Rattle.script_text.specs.Reading.{lines_read};
ghost use Rattle.script_text.specs.declared.kinds.ScriptKind.TheVariants as kind;

use crate::texts::read_text;
use crate::{Limit, NoInput, Refusal};
use ask_history::{Line, Script};
use pc_outside::Files;
use pc_terms::{NoMemory, Row, Text};
use script_text::{ScriptRefused, read_client};
use std::alloc::Global;

// Reads the text of one script more.
fn read_named<F: Files>(
    alloc: Global,
    files: &mut F,
    texts: &mut Row<(Text, Text)>,
    name: &str,
) -> Result<(), NoInput>
    ensures comes { MatchResult result
        (λ done. Leads texts_reading (F.content files.old) texts.old texts.new (name.now ∷ []))
        (λ none. Ends texts_reading (F.content files.old) texts.old (name.now ∷ []) none) }
    ensures content { (other : List ℕ) → F.content files.new other ≡ F.content files.old other }
    ensures counts { CountsFaults result (F.faults files.old) (F.faults files.new) (F.last_failed files.new) }
{
    let name = Text::new(alloc, name)?;
    match read_text(alloc, files, &name, Limit::ScriptBytes) {
        Ok(text) => match texts.push((name, text)) {
            Ok(()) => Ok(()),
            Err(NoMemory {}) => Err(NoInput::NoMemory),
        },
        Err(none) => Err(none),
    }
}

// The texts of scripts, each with its name.
fn read_texts<F: Files>(
    alloc: Global,
    files: &mut F,
    names: &[String],
) -> Result<Row<(Text, Text)>, NoInput>
    ensures comes { ComesTo (F.content files.old) (texts_reading [] (map string_bytes names.now)) result }
    ensures content { (other : List ℕ) → F.content files.new other ≡ F.content files.old other }
    ensures counts { CountsFaults result (F.faults files.old) (F.faults files.new) (F.last_failed files.new) }
{
    let mut texts = Row::new(alloc);
    for name in names {
        match read_named(alloc, files, &mut texts, name.as_str()) {
            Ok(()) => {}
            Err(none) => return Err(none),
        }
    }
    Ok(texts)
}

// The lines of a client's text.
fn lines_of(alloc: Global, name: &Text, text: &Text) -> Result<Row<Line>, NoInput>
    ensures { (content : List ℕ → _) → ComesTo content (lines_or_bad name.now (lines_read kind.Client text.now)) result }
{
    match read_client(alloc, text.as_str()) {
        Ok(script) => {
            let Script { lines } = script;
            Ok(lines)
        }
        Err(ScriptRefused::BadLine(line)) => {
            Err(NoInput::Refused(Refusal::BadScript(name.clone()?, line)))
        }
        Err(ScriptRefused::NoMemory) => Err(NoInput::NoMemory),
    }
}

// One script more, from its text.
fn add_script(alloc: Global, scripts: &mut Row<Script>, named: &(Text, Text)) -> Result<(), NoInput>
    ensures { (content : List ℕ → _) → MatchResult result
        (λ done. Leads scripts_reading content scripts.old scripts.new (named.now ∷ []))
        (λ none. Ends scripts_reading content scripts.old (named.now ∷ []) none) }
{
    let (name, text) = named;
    match lines_of(alloc, name, text) {
        Ok(lines) => match scripts.push(Script { lines }) {
            Ok(()) => Ok(()),
            Err(NoMemory {}) => Err(NoInput::NoMemory),
        },
        Err(none) => Err(none),
    }
}

// The scripts of texts.
fn scripts_of(alloc: Global, texts: &[(Text, Text)]) -> Result<Row<Script>, NoInput>
    ensures { (content : List ℕ → _) → ComesTo content (scripts_reading [] texts.now) result }
{
    let mut scripts = Row::new(alloc);
    for named in texts {
        match add_script(alloc, &mut scripts, named) {
            Ok(()) => {}
            Err(none) => return Err(none),
        }
    }
    Ok(scripts)
}

/// The scripts of these names, in which paths stand in the place of texts.
pub fn read_scripts<F: Files>(
    alloc: Global,
    files: &mut F,
    names: &[String],
) -> Result<Row<Script>, NoInput>
    ensures comes { ComesTo (F.content files.old) (named_scripts (map string_bytes names.now)) result }
    ensures content { (other : List ℕ) → F.content files.new other ≡ F.content files.old other }
    ensures counts { CountsFaults result (F.faults files.old) (F.faults files.new) (F.last_failed files.new) }
{
    match read_texts(alloc, files, names) {
        Ok(texts) => scripts_of(alloc, texts.as_slice()),
        Err(none) => Err(none),
    }
}
