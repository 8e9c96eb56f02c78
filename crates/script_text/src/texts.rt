//! Puts texts into a script.

ghost use Rattle.std.specs.Prelude.{◌≡◌, ◌∷◌, ◌++◌, [], List, map, IfOk, OnOk};
ghost use Rattle.script_text.specs.Words.{Bytes};
ghost use Rattle.script_text.specs.Texts as spec;
ghost use Rattle.script_text.specs.Known.{Knows};

use ask_history::{Call, Line, Order, Script};
use indexmap::IndexMap;
use pc_terms::{NoMemory, Row, Text};
use std::alloc::Global;

// Of several texts of one path the first counts.
#[tactic(auto, using(crate::proofs::TextLemmas::known_rules))]
fn keep_first(known: &mut IndexMap<Text, Text>, source: &(Text, Text)) -> Result<(), NoMemory>
    ensures { OnOk result ((before : List (Bytes × Bytes)) → Knows known.old before → Knows known.new (before ++ source.now ∷ [])) }
{
    let (path, text) = source;
    if known.contains_key(path) {
        return Ok(());
    }
    known.insert(path.clone()?, text.clone()?)?;
    Ok(())
}

// The texts by their paths.
fn known_texts(alloc: Global, sources: &[(Text, Text)]) -> Result<IndexMap<Text, Text>, NoMemory>
    ensures { IfOk result (λ known. Knows known sources.now) }
{
    let mut known = IndexMap::new(alloc);
    for source in sources {
        keep_first(&mut known, source)?;
    }
    Ok(known)
}

fn text_at(
    known: &IndexMap<Text, Text>,
    sources: &[(Text, Text)],
    path: Text,
) -> Result<Text, NoMemory>
    requires { Knows known.now sources.now }
    ensures { IfOk result (λ text. text ≡ spec.text_at sources.now path) }
{
    match known.get(&path) {
        Some(text) => Ok(text.clone()?),
        None => Ok(path),
    }
}

fn pairs_with(
    alloc: Global,
    known: &IndexMap<Text, Text>,
    sources: &[(Text, Text)],
    pairs: Row<(Text, Text)>,
) -> Result<Row<(Text, Text)>, NoMemory>
    requires { Knows known.now sources.now }
    ensures { IfOk result (λ with_texts. with_texts ≡ map (spec.pair_with sources.now) pairs) }
{
    let mut with_texts = Row::new(alloc);
    for (name, path) in pairs.into_vec() {
        with_texts.push((name, text_at(known, sources, path)?))?;
    }
    Ok(with_texts)
}

fn line_with(
    alloc: Global,
    known: &IndexMap<Text, Text>,
    sources: &[(Text, Text)],
    line: Line,
) -> Result<Line, NoMemory>
    requires { Knows known.now sources.now }
    ensures { IfOk result (λ found. found ≡ spec.line_with sources.now line) }
{
    let Line {
        level,
        check,
        turn,
        order,
    } = line;
    let order = match order {
        Order::Call(Call::Reload(pairs)) => {
            Order::Call(Call::Reload(pairs_with(alloc, known, sources, pairs)?))
        }
        other => other,
    };
    Ok(Line {
        level,
        check,
        turn,
        order,
    })
}

fn script_with(
    alloc: Global,
    known: &IndexMap<Text, Text>,
    sources: &[(Text, Text)],
    script: Script,
) -> Result<Script, NoMemory>
    requires { Knows known.now sources.now }
    ensures { IfOk result (λ found. found.lines ≡ map (spec.line_with sources.now) script.lines) }
{
    let Script { lines } = script;
    let mut with_texts = Row::new(alloc);
    for line in lines.into_vec() {
        with_texts.push(line_with(alloc, known, sources, line)?)?;
    }
    Ok(Script { lines: with_texts })
}

/// The script with the text that `sources` has for each path in the path's place. Of several texts of one path the first
/// counts; a path that `sources` lacks stays.
pub fn with_texts(
    alloc: Global,
    script: Script,
    sources: &Row<(Text, Text)>,
) -> Result<Script, NoMemory>
    ensures { IfOk result (λ found. found.lines ≡ map (spec.line_with sources.now) script.lines) }
{
    let sources = sources.as_slice();
    let known = known_texts(alloc, sources)?;
    script_with(alloc, &known, sources, script)
}

/// Several scripts with the texts of their paths, as `with_texts` gives each.
pub fn all_with_texts(
    alloc: Global,
    scripts: Row<Script>,
    sources: &Row<(Text, Text)>,
) -> Result<Row<Script>, NoMemory>
    ensures { IfOk result (λ found. found ≡ map (spec.script_with sources.now) scripts) }
{
    let sources = sources.as_slice();
    let known = known_texts(alloc, sources)?;
    let mut all = Row::new(alloc);
    for script in scripts.into_vec() {
        all.push(script_with(alloc, &known, sources, script)?)?;
    }
    Ok(all)
}
