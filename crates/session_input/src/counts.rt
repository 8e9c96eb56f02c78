//! Counts what lines take up.

ghost use Rattle.std.specs.Prelude.{◌≡◌, ◌≤◌, ◌<◌, ◌^◌, ◌∷◌, [], length, map, count_by, OnOk, IfOk};
ghost use Rattle.script_text.specs.Standing.{is_call_line};
ghost use Rattle.script_text.specs.Texts.{text_at, pair_with, line_with, script_with};
ghost use Rattle.session_input.specs.Counts.{AreCounted, HasRoom, CountsMore, HaveTexts, most_pairs};
ghost use Rattle.session_input.specs.Counts as spec;
ghost use Rattle.session_input.specs.Limits as limits;
ghost use Rattle.session_input.specs.Sources.{pairs_in, lines_in};
ghost use Rattle.work_queue.specs.Reloads as queue;

use crate::Limit;
use crate::limits::most_of;
use crate::sources::pairs_of;
use ask_history::{Line, Order, Script};
use indexmap::IndexMap;
use pc_terms::{NoMemory, Text};
use std::alloc::Global;
use work_queue::Usage;

// What the reloads of lines take up, with the length of the longest text of each name.
#[derive(Drop)]
pub struct Counts {
    usage: Usage,
    longest: IndexMap<Text, u64>,
}

// The length of the text of a path.
fn text_len(sources: &IndexMap<Text, Text>, path: &Text) -> usize
    ensures { result ≡ length (text_at sources.now.entries path.now) }
{
    match sources.get(path) {
        Some(text) => text.len(),
        None => path.len(),
    }
}

fn count_pair(
    counts: &mut Counts,
    sources: &IndexMap<Text, Text>,
    pair: &(Text, Text),
) -> Result<(), NoMemory>
    requires room { HasRoom 1 counts.old.usage }
    requires texts { HaveTexts sources.now.entries (pair.now ∷ []) }
    ensures { OnOk result (CountsMore (pair_with sources.now.entries pair.now ∷ []) counts.old counts.new) }
{
    let (name, path) = pair;
    let len = text_len(sources, path) as u64;
    let most = counts.longest.get(name).copied();
    counts.usage = counts.usage.with_text(most, len);
    counts
        .longest
        .insert(name.clone()?, most.unwrap_or(0).max(len))?;
    Ok(())
}

fn count_pairs(
    counts: &mut Counts,
    sources: &IndexMap<Text, Text>,
    pairs: &[(Text, Text)],
) -> Result<(), NoMemory>
    requires room { HasRoom (length pairs.now) counts.old.usage }
    requires texts { HaveTexts sources.now.entries pairs.now }
    ensures { OnOk result (CountsMore (map (pair_with sources.now.entries) pairs.now) counts.old counts.new) }
{
    for pair in pairs {
        count_pair(counts, sources, pair)?;
    }
    Ok(())
}

fn count_lines(
    counts: &mut Counts,
    sources: &IndexMap<Text, Text>,
    lines: &[Line],
) -> Result<(), NoMemory>
    requires room { HasRoom (length (pairs_in lines.now)) counts.old.usage }
    requires texts { HaveTexts sources.now.entries (pairs_in lines.now) }
    ensures { OnOk result (CountsMore (map (pair_with sources.now.entries) (pairs_in lines.now)) counts.old counts.new) }
{
    for line in lines {
        count_pairs(counts, sources, pairs_of(&line.order))?;
    }
    Ok(())
}

// Nothing is counted.
fn no_counts(alloc: Global) -> Counts
    ensures usage { result.usage ≡ queue.usage_of [] }
    ensures longest { result.longest.entries ≡ [] }
{
    Counts {
        usage: Usage {
            text: 0,
            names: 0,
            map: 0,
        },
        longest: IndexMap::new(alloc),
    }
}

// What the reloads of lines with these sources take up.
fn usage_of(
    alloc: Global,
    sources: &IndexMap<Text, Text>,
    lines: &[Line],
) -> Result<Usage, NoMemory>
    requires few { length (pairs_in lines.now) ≤ limits.most_of Limit.ScriptBytes }
    requires texts { HaveTexts sources.now.entries (pairs_in lines.now) }
    ensures { IfOk result (λ usage. usage ≡ queue.usage_of (pairs_in (map (line_with sources.now.entries) lines.now))) }
{
    let mut counts = no_counts(alloc);
    count_lines(&mut counts, sources, lines)?;
    Ok(counts.usage)
}

// What the reloads of several scripts with these sources take up.
fn usage_of_all(
    alloc: Global,
    sources: &IndexMap<Text, Text>,
    scripts: &[Script],
) -> Result<Usage, NoMemory>
    requires few { length (pairs_in (lines_in scripts.now)) ≤ most_pairs }
    requires texts { HaveTexts sources.now.entries (pairs_in (lines_in scripts.now)) }
    ensures { IfOk result (λ usage. usage ≡ queue.usage_of (pairs_in (lines_in (map (script_with sources.now.entries) scripts.now)))) }
{
    let mut counts = no_counts(alloc);
    for script in scripts {
        count_lines(&mut counts, sources, script.lines.as_slice())?;
    }
    Ok(counts.usage)
}

fn is_call_line(line: &Line) -> bool
    ensures { result ≡ is_call_line line.now }
{
    matches!(&line.order, Order::Call(_))
}

fn count_calls(lines: &[Line]) -> usize
    ensures { result ≡ count_by is_call_line lines.now }
{
    let mut calls = 0;
    for line in lines {
        if is_call_line(line) {
            calls += 1;
        }
    }
    calls
}

fn count_all_calls(scripts: &[Script]) -> usize
    requires { length (lines_in scripts.now) < 2 ^ 64 }
    ensures { result ≡ count_by is_call_line (lines_in scripts.now) }
{
    let mut calls = 0;
    for script in scripts {
        calls += count_calls(script.lines.as_slice());
    }
    calls
}

// The number, with its limit, where it is above it.
fn passed(limit: Limit, number: u64) -> Option<(Limit, u64)>
    ensures { result ≡ spec.passed limit number }
{
    if number > most_of(limit) {
        Some((limit, number))
    } else {
        None
    }
}

// The first limit that is passed by so many call lines, whose reloads take up so much.
fn first_passed(calls: u64, usage: &Usage) -> Option<(Limit, u64)>
    ensures { result ≡ spec.first_passed calls usage.now }
{
    passed(Limit::Calls, calls)
        .or(passed(Limit::Text, usage.text))
        .or(passed(Limit::Names, usage.names))
        .or(passed(Limit::Map, usage.map))
}

/// The first limit that lines pass with the texts of these sources, and the number that passes it.
pub fn passed_by(
    alloc: Global,
    sources: &IndexMap<Text, Text>,
    lines: &[Line],
) -> Result<Option<(Limit, u64)>, NoMemory>
    requires few { length (pairs_in lines.now) ≤ limits.most_of Limit.ScriptBytes }
    requires texts { HaveTexts sources.now.entries (pairs_in lines.now) }
    ensures { IfOk result (λ found. found ≡ spec.passed_by (map (line_with sources.now.entries) lines.now)) }
{
    let calls = count_calls(lines) as u64;
    let usage = usage_of(alloc, sources, lines)?;
    Ok(first_passed(calls, &usage))
}

/// The first limit that several scripts pass together, as `passed_by` gives that of one.
pub fn passed_by_all(
    alloc: Global,
    sources: &IndexMap<Text, Text>,
    scripts: &[Script],
) -> Result<Option<(Limit, u64)>, NoMemory>
    requires few { length (pairs_in (lines_in scripts.now)) ≤ most_pairs }
    requires lines { length (lines_in scripts.now) < 2 ^ 64 }
    requires texts { HaveTexts sources.now.entries (pairs_in (lines_in scripts.now)) }
    ensures { IfOk result (λ found. found ≡ spec.passed_by (lines_in (map (script_with sources.now.entries) scripts.now))) }
{
    let calls = count_all_calls(scripts) as u64;
    let usage = usage_of_all(alloc, sources, scripts)?;
    Ok(first_passed(calls, &usage))
}
