//! The answers of calls.

ghost use Rattle.std.specs.List.{flat_map};
ghost use Rattle.std.specs.Prelude.{◌≡◌, ◌++◌, length, codes, OnOk};
ghost use Rattle.transcript.specs.Printed as spec;

use crate::fields::{push_count, push_problems, push_span, push_symbol, push_tree, push_type};
use crate::names::tree_name;
use ask_history::{Answer, MemberInfo, OutlineInfo, ScopeInfo, TreeInfo};
use pc_terms::{NoMemory, Problem, Span, SymPath, Text, kind_word, show_path};
use std::alloc::Global;

fn push_found_tree(alloc: Global, text: &mut Text, tree: &TreeInfo) -> Result<(), NoMemory>
    ensures { OnOk result (text.new ≡ text.old ++ spec.found_tree_line tree.now) }
{
    text.push_str("tree\t")?;
    push_tree(alloc, text, tree)?;
    text.push_str("\n")
}

fn push_member(alloc: Global, text: &mut Text, member: &MemberInfo) -> Result<(), NoMemory>
    ensures { OnOk result (text.new ≡ text.old ++ spec.member_line member.now) }
{
    text.push_str("\t")?;
    text.push_str(member.name.as_str())?;
    text.push_str("\t")?;
    text.push_str(kind_word(member.kind))?;
    text.push_str("\t")?;
    push_type(alloc, text, &member.ty)?;
    text.push_str("\t")?;
    let owner = show_path(alloc, &member.owner)?;
    text.push_str(owner.as_str())?;
    text.push_str("\n")
}

fn push_members(alloc: Global, text: &mut Text, members: &[MemberInfo]) -> Result<(), NoMemory>
    ensures { OnOk result (text.new ≡ text.old ++ (spec.count_line (codes "members") (length members.now) ++ flat_map spec.member_line members.now)) }
{
    push_count(alloc, text, "members", members.len())?;
    for member in members {
        push_member(alloc, text, member)?;
    }
    Ok(())
}

fn push_scope_name(alloc: Global, text: &mut Text, name: &ScopeInfo) -> Result<(), NoMemory>
    ensures { OnOk result (text.new ≡ text.old ++ spec.scope_line name.now) }
{
    text.push_str("\t")?;
    text.push_str(name.name.as_str())?;
    text.push_str("\t")?;
    push_symbol(alloc, text, &name.sym)?;
    text.push_str("\n")
}

fn push_scope(alloc: Global, text: &mut Text, names: &[ScopeInfo]) -> Result<(), NoMemory>
    ensures { OnOk result (text.new ≡ text.old ++ (spec.count_line (codes "scope") (length names.now) ++ flat_map spec.scope_line names.now)) }
{
    push_count(alloc, text, "scope", names.len())?;
    for name in names {
        push_scope_name(alloc, text, name)?;
    }
    Ok(())
}

fn push_link(
    alloc: Global,
    text: &mut Text,
    file: &Text,
    span: Span,
    sym: &SymPath,
) -> Result<(), NoMemory>
    ensures { OnOk result (text.new ≡ text.old ++ spec.link_line file.now span sym.now) }
{
    text.push_str("link\t")?;
    text.push_str(file.as_str())?;
    text.push_str("\t")?;
    push_span(alloc, text, span)?;
    text.push_str("\t")?;
    push_symbol(alloc, text, sym)?;
    text.push_str("\n")
}

fn push_outlined(alloc: Global, text: &mut Text, definition: &OutlineInfo) -> Result<(), NoMemory>
    ensures { OnOk result (text.new ≡ text.old ++ spec.outline_line definition.now) }
{
    text.push_str("\t")?;
    text.push_number(alloc, definition.depth as u64)?;
    text.push_str("\t")?;
    text.push_str(tree_name(definition.kind))?;
    text.push_str("\t")?;
    text.push_str(definition.name.as_str())?;
    text.push_str("\t")?;
    push_span(alloc, text, definition.span)?;
    text.push_str("\n")
}

fn push_outline(alloc: Global, text: &mut Text, definitions: &[OutlineInfo]) -> Result<(), NoMemory>
    ensures { OnOk result (text.new ≡ text.old ++ (spec.count_line (codes "outline") (length definitions.now) ++ flat_map spec.outline_line definitions.now)) }
{
    push_count(alloc, text, "outline", definitions.len())?;
    for definition in definitions {
        push_outlined(alloc, text, definition)?;
    }
    Ok(())
}

fn push_definition(alloc: Global, text: &mut Text, tree: &TreeInfo) -> Result<(), NoMemory>
    ensures { OnOk result (text.new ≡ text.old ++ spec.definition_line tree.now) }
{
    text.push_str("\t")?;
    push_tree(alloc, text, tree)?;
    text.push_str("\n")
}

fn push_definitions(alloc: Global, text: &mut Text, trees: &[TreeInfo]) -> Result<(), NoMemory>
    ensures { OnOk result (text.new ≡ text.old ++ flat_map spec.definition_line trees.now) }
{
    for tree in trees {
        push_definition(alloc, text, tree)?;
    }
    Ok(())
}

fn push_typed_counts(
    alloc: Global,
    text: &mut Text,
    definitions: usize,
    problems: usize,
) -> Result<(), NoMemory>
    ensures { OnOk result (text.new ≡ text.old ++ spec.typed_line definitions problems) }
{
    text.push_str("typed\t")?;
    text.push_number(alloc, definitions as u64)?;
    text.push_str("\t")?;
    text.push_number(alloc, problems as u64)?;
    text.push_str("\n")
}

fn push_typed(
    alloc: Global,
    text: &mut Text,
    trees: &[TreeInfo],
    problems: &[Problem],
) -> Result<(), NoMemory>
    ensures { OnOk result (text.new ≡ text.old ++ (spec.typed_line (length trees.now) (length problems.now) ++ flat_map spec.definition_line trees.now ++ flat_map spec.problem_line problems.now)) }
{
    push_typed_counts(alloc, text, trees.len(), problems.len())?;
    push_definitions(alloc, text, trees)?;
    push_problems(alloc, text, problems)
}

pub fn push_answer(alloc: Global, text: &mut Text, answer: &Answer) -> Result<(), NoMemory>
    ensures { OnOk result (text.new ≡ text.old ++ spec.answer_text answer.now) }
{
    match answer {
        Answer::Done => text.push_str("done\n"),
        Answer::Tree(tree) => push_found_tree(alloc, text, tree),
        Answer::Members(members) => push_members(alloc, text, members.as_slice()),
        Answer::Scope(names) => push_scope(alloc, text, names.as_slice()),
        Answer::Link(file, span, sym) => push_link(alloc, text, file, *span, sym),
        Answer::Outline(definitions) => push_outline(alloc, text, definitions.as_slice()),
        Answer::Loaded(trees, problems) => push_typed(
            alloc,
            text,
            trees.as_slice(),
            problems.as_slice(),
        ),
        Answer::NoUnit => text.push_str("nounit\n"),
        Answer::NoTree => text.push_str("notree\n"),
        Answer::NoMembers => text.push_str("nomembers\n"),
        Answer::NoLink => text.push_str("nolink\n"),
        Answer::Unread => text.push_str("unread\n"),
        Answer::Cancelled => text.push_str("cancelled\n"),
        Answer::Closed => text.push_str("closed\n"),
        Answer::NoMemory => text.push_str("nomemory\n"),
    }
}
