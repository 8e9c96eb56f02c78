//! The parts of lines that events and answers share.

ghost use Rattle.std.specs.List.{flat_map};
ghost use Rattle.std.specs.Prelude.{◌≡◌, ◌++◌, OnOk};
ghost use Rattle.transcript.specs.Printed as spec;
ghost use Rattle.pc_terms.specs.Show as symbols;
ghost use Rattle.pc_terms.specs.ShowType as types;

use crate::names::{code_name, tree_name};
use ask_history::TreeInfo;
use pc_terms::{NoMemory, Problem, Span, SymPath, Text, Ty, show, show_symbol};
use std::alloc::Global;

pub fn push_span(alloc: Global, text: &mut Text, span: Span) -> Result<(), NoMemory>
    ensures { OnOk result (text.new ≡ text.old ++ spec.span_text span) }
{
    text.push_number(alloc, span.start as u64)?;
    text.push_str("-")?;
    text.push_number(alloc, span.end as u64)
}

pub fn push_type(alloc: Global, text: &mut Text, ty: &Ty) -> Result<(), NoMemory>
    ensures { OnOk result (text.new ≡ text.old ++ types.type_text ty.now) }
{
    let shown = show(alloc, ty)?;
    text.push_str(shown.as_str())
}

pub fn push_symbol(alloc: Global, text: &mut Text, sym: &SymPath) -> Result<(), NoMemory>
    ensures { OnOk result (text.new ≡ text.old ++ symbols.symbol_text sym.now.steps) }
{
    let shown = show_symbol(alloc, sym)?;
    text.push_str(shown.as_str())
}

fn push_type_or_dash(alloc: Global, text: &mut Text, ty: &Option<Ty>) -> Result<(), NoMemory>
    ensures { OnOk result (text.new ≡ text.old ++ spec.type_or_dash ty.now) }
{
    match ty {
        Some(ty) => push_type(alloc, text, ty),
        None => text.push_str("-"),
    }
}

fn push_symbol_or_dash(
    alloc: Global,
    text: &mut Text,
    sym: &Option<SymPath>,
) -> Result<(), NoMemory>
    ensures { OnOk result (text.new ≡ text.old ++ spec.symbol_or_dash sym.now) }
{
    match sym {
        Some(sym) => push_symbol(alloc, text, sym),
        None => text.push_str("-"),
    }
}

pub fn push_tree(alloc: Global, text: &mut Text, tree: &TreeInfo) -> Result<(), NoMemory>
    ensures { OnOk result (text.new ≡ text.old ++ spec.tree_text tree.now) }
{
    text.push_str(tree_name(tree.kind))?;
    text.push_str("\t")?;
    push_span(alloc, text, tree.span)?;
    text.push_str("\t")?;
    push_type_or_dash(alloc, text, &tree.ty)?;
    text.push_str("\t")?;
    push_symbol_or_dash(alloc, text, &tree.sym)
}

fn push_problem(alloc: Global, text: &mut Text, problem: &Problem) -> Result<(), NoMemory>
    ensures { OnOk result (text.new ≡ text.old ++ spec.problem_line problem.now) }
{
    text.push_str("\t")?;
    push_span(alloc, text, problem.span)?;
    text.push_str("\t")?;
    text.push_str(code_name(problem.code))?;
    text.push_str("\t")?;
    text.push_str(problem.text.as_str())?;
    text.push_str("\n")
}

pub fn push_problems(alloc: Global, text: &mut Text, problems: &[Problem]) -> Result<(), NoMemory>
    ensures { OnOk result (text.new ≡ text.old ++ flat_map spec.problem_line problems.now) }
{
    for problem in problems {
        push_problem(alloc, text, problem)?;
    }
    Ok(())
}

// A word and a number.
pub fn push_count(alloc: Global, text: &mut Text, word: &str, count: usize) -> Result<(), NoMemory>
    ensures { OnOk result (text.new ≡ text.old ++ spec.count_line word.now count) }
{
    text.push_str(word)?;
    text.push_str("\t")?;
    text.push_number(alloc, count as u64)?;
    text.push_str("\n")
}
