//! Reads the sources that lines name.

ghost use Rattle.std.specs.Prelude.{◌≡◌, ◌∷◌, ◌++◌, [], ℕ, List, MatchResult, OnOk, Ok, Err, true, false};
ghost use Rattle.ask_history.specs.Sources.{is_loaded};
ghost use Rattle.session_input.specs.Faults.{CountsFaults};
ghost use Rattle.session_input.specs.Leads.{LeadsOn, EndsAt};
ghost use Rattle.session_input.specs.Reads.{ComesTo};
ghost use Rattle.session_input.specs.Sources.{pairs_of, pairs_in, lines_in, sources_reading};

use crate::texts::read_text;
use crate::{Limit, NoInput};
use ask_history::{Call, Line, Order, Script};
use indexmap::IndexMap;
use pc_outside::Files;
use pc_terms::{NoMemory, Text};
use std::alloc::Global;

// What a line reloads.
pub fn pairs_of(order: &Order) -> &[(Text, Text)]
    ensures { result.now ≡ pairs_of order.now }
{
    match order {
        Order::Call(Call::Reload(pairs)) => pairs.as_slice(),
        _ => &[],
    }
}

// Keeps the text of a path that has none yet.
fn keep(sources: &mut IndexMap<Text, Text>, path: &Text, text: Text) -> Result<(), NoMemory>
    requires { is_loaded sources.old.entries path.now ≡ false }
    ensures { OnOk result (sources.new.entries ≡ sources.old.entries ++ (path.now, text) ∷ []) }
{
    sources.insert(path.clone()?, text)?;
    Ok(())
}

// Whether the source of a path was read.
fn is_loaded(sources: &IndexMap<Text, Text>, path: &Text) -> bool
    ensures { result ≡ is_loaded sources.now.entries path.now }
{
    sources.contains_key(path)
}

// Reads the source of a path, unless it was read.
fn read_source<F: Files>(
    alloc: Global,
    files: &mut F,
    sources: &mut IndexMap<Text, Text>,
    pair: &(Text, Text),
) -> Result<(), NoInput>
    ensures comes { MatchResult result
        (λ done. LeadsOn (F.content files.old) sources.old.entries sources.new.entries (pair.now ∷ []))
        (λ none. EndsAt (F.content files.old) sources.old.entries (pair.now ∷ []) none) }
    ensures content { (other : List ℕ) → F.content files.new other ≡ F.content files.old other }
    ensures counts { CountsFaults result (F.faults files.old) (F.faults files.new) (F.last_failed files.new) }
{
    let (_, path) = pair;
    if is_loaded(sources, path) {
        return Ok(());
    }
    match read_text(alloc, files, path, Limit::FileBytes) {
        Ok(text) => match keep(sources, path, text) {
            Ok(()) => Ok(()),
            Err(NoMemory {}) => Err(NoInput::NoMemory),
        },
        Err(none) => Err(none),
    }
}

// Reads the sources of one line's pairs.
fn read_sources_of<F: Files>(
    alloc: Global,
    files: &mut F,
    sources: &mut IndexMap<Text, Text>,
    pairs: &[(Text, Text)],
) -> Result<(), NoInput>
    ensures comes { MatchResult result
        (λ done. LeadsOn (F.content files.old) sources.old.entries sources.new.entries pairs.now)
        (λ none. EndsAt (F.content files.old) sources.old.entries pairs.now none) }
    ensures content { (other : List ℕ) → F.content files.new other ≡ F.content files.old other }
    ensures counts { CountsFaults result (F.faults files.old) (F.faults files.new) (F.last_failed files.new) }
{
    for pair in pairs {
        match read_source(alloc, files, sources, pair) {
            Ok(()) => {}
            Err(none) => return Err(none),
        }
    }
    Ok(())
}

// Reads the sources of lines.
fn read_sources_in<F: Files>(
    alloc: Global,
    files: &mut F,
    sources: &mut IndexMap<Text, Text>,
    lines: &[Line],
) -> Result<(), NoInput>
    ensures comes { MatchResult result
        (λ done. LeadsOn (F.content files.old) sources.old.entries sources.new.entries (pairs_in lines.now))
        (λ none. EndsAt (F.content files.old) sources.old.entries (pairs_in lines.now) none) }
    ensures content { (other : List ℕ) → F.content files.new other ≡ F.content files.old other }
    ensures counts { CountsFaults result (F.faults files.old) (F.faults files.new) (F.last_failed files.new) }
{
    for line in lines {
        match read_sources_of(alloc, files, sources, pairs_of(&line.order)) {
            Ok(()) => {}
            Err(none) => return Err(none),
        }
    }
    Ok(())
}

/// The texts of the paths that the lines name, in the order in which they are named first. Each is read once.
pub fn read_sources<F: Files>(
    alloc: Global,
    files: &mut F,
    lines: &[Line],
) -> Result<IndexMap<Text, Text>, NoInput>
    ensures comes { MatchResult result
        (λ sources. ComesTo (F.content files.old) (sources_reading [] (pairs_in lines.now)) (Ok sources.entries))
        (λ none. ComesTo (F.content files.old) (sources_reading [] (pairs_in lines.now)) (Err none)) }
    ensures content { (other : List ℕ) → F.content files.new other ≡ F.content files.old other }
    ensures counts { CountsFaults result (F.faults files.old) (F.faults files.new) (F.last_failed files.new) }
{
    let mut sources = IndexMap::new(alloc);
    match read_sources_in(alloc, files, &mut sources, lines) {
        Ok(()) => Ok(sources),
        Err(none) => Err(none),
    }
}

/// The texts of the paths that several scripts name, as `read_sources` gives those of one.
pub fn read_all_sources<F: Files>(
    alloc: Global,
    files: &mut F,
    scripts: &[Script],
) -> Result<IndexMap<Text, Text>, NoInput>
    ensures comes { MatchResult result
        (λ sources. ComesTo (F.content files.old) (sources_reading [] (pairs_in (lines_in scripts.now))) (Ok sources.entries))
        (λ none. ComesTo (F.content files.old) (sources_reading [] (pairs_in (lines_in scripts.now))) (Err none)) }
    ensures content { (other : List ℕ) → F.content files.new other ≡ F.content files.old other }
    ensures counts { CountsFaults result (F.faults files.old) (F.faults files.new) (F.last_failed files.new) }
{
    let mut sources = IndexMap::new(alloc);
    for script in scripts {
        match read_sources_in(alloc, files, &mut sources, script.lines.as_slice()) {
            Ok(()) => {}
            Err(none) => return Err(none),
        }
    }
    Ok(sources)
}
