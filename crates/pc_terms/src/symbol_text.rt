//! How symbols are printed.

ghost use Rattle.std.specs.Prelude.{◌≡◌, ◌++◌, [], OnOk, IfOk, codes};
ghost use Rattle.pc_terms.specs.Show as spec;

use crate::{NoMemory, SymKind, SymPath, SymStep, Text};
use std::alloc::Global;

/// A symbol: its kind, and its path.
pub fn show_symbol(alloc: Global, sym: &SymPath) -> Result<Text, NoMemory>
    ensures { IfOk result (λ text. text ≡ spec.symbol_text sym.now.steps) }
{
    let path = sym.steps.as_slice();
    let mut text = Text::new(alloc, last_kind_word(path))?;
    text.push_str(" ")?;
    push_path(alloc, &mut text, path)?;
    Ok(text)
}

/// A path without its kind.
pub fn show_path(alloc: Global, path: &SymPath) -> Result<Text, NoMemory>
    ensures { IfOk result (λ text. text ≡ spec.path_text path.now.steps) }
{
    let mut text = Text::new(alloc, "")?;
    push_path(alloc, &mut text, path.steps.as_slice())?;
    Ok(text)
}

/// The word for a kind of symbol.
pub fn kind_word(kind: SymKind) -> &'static str
    ensures { result.now ≡ spec.kind_word kind }
{
    match kind {
        SymKind::Package => "package",
        SymKind::Class => "class",
        SymKind::Trait => "trait",
        SymKind::Object => "object",
        SymKind::Val => "val",
        SymKind::Var => "var",
        SymKind::Lazy => "lazy",
        SymKind::Def => "def",
        SymKind::Alias => "alias",
        SymKind::TypeParam => "tparam",
        SymKind::Param => "param",
        SymKind::Local => "local",
    }
}

fn last_kind_word(path: &[SymStep]) -> &'static str
    ensures { result.now ≡ spec.kind_word_of (spec.last_step path.now) }
{
    match path.last() {
        Some(step) => kind_word(step.kind),
        None => "",
    }
}

pub(crate) fn last_name(path: &[SymStep]) -> &str
    ensures { result.now ≡ spec.last_name path.now }
{
    match path.last() {
        Some(step) => step.name.as_str(),
        None => "",
    }
}

fn separator(kind: SymKind) -> &'static str
    ensures { result.now ≡ spec.separator kind }
{
    match kind {
        SymKind::Class | SymKind::Trait => "#",
        _ => ".",
    }
}

fn is_local(kind: SymKind) -> bool
    ensures { result ≡ spec.is_local kind }
{
    matches!(kind, SymKind::Local)
}

pub(crate) fn is_scala(step: &SymStep) -> bool
    ensures { result ≡ spec.is_scala step.now }
{
    matches!(step.kind, SymKind::Package) && step.name.as_str() == "scala"
}

fn without_scala(path: &[SymStep]) -> &[SymStep]
    ensures { result.now ≡ spec.without_scala path.now }
{
    match path {
        [first, rest @ ..] if is_scala(first) && !rest.is_empty() => rest,
        _ => path,
    }
}

fn push_step(alloc: Global, text: &mut Text, step: &SymStep) -> Result<(), NoMemory>
    ensures { OnOk result (text.new ≡ text.old ++ spec.step_text step.now) }
{
    text.push_str(step.name.as_str())?;
    if matches!(step.kind, SymKind::Def) && step.ordinal != 0 {
        text.push_str("~")?;
        text.push_number(alloc, step.ordinal as u64)?;
    }
    Ok(())
}

fn push_steps(alloc: Global, text: &mut Text, steps: &[SymStep]) -> Result<(), NoMemory>
    ensures { OnOk result (text.new ≡ text.old ++ spec.steps_text [] steps.now) }
{
    let mut before = "";
    for step in steps {
        text.push_str(before)?;
        push_step(alloc, text, step)?;
        before = separator(step.kind);
    }
    Ok(())
}

pub(crate) fn push_path(alloc: Global, text: &mut Text, path: &[SymStep]) -> Result<(), NoMemory>
    ensures { OnOk result (text.new ≡ text.old ++ spec.path_text path.now) }
{
    match path.last() {
        Some(step) if is_local(step.kind) => {
            text.push_str(step.name.as_str())?;
            text.push_str("@")?;
            text.push_number(alloc, step.ordinal as u64)
        }
        Some(_) => push_steps(alloc, text, without_scala(path)),
        None => Ok(()),
    }
}
