//! What is printed of a file: its tokens or its trees, and what is wrong in it.

ghost use Rattle.std.specs.Prelude.{◌≤◌, length};
ghost use Rattle.pc_terms.specs.Bytes.{max_source_bytes};

use pc_terms::{NoMemory, Problem};
use positioned_trees::Tree;
use scan_tokens::{Token, scan};
use std::alloc::Global;
use std::fmt::Write;
use tree_parser::parse_unit;

/// What is shown.
#[derive(Clone, Copy, Debug, PartialEq, Eq)]
pub enum Layer {
    Tokens,
    Tree,
}

// KIND START-END BEFORE
fn push_token(token: Token, shown: &mut String) -> Result<(), NoMemory> {
    let (kind, start, end, before) = (token.kind, token.span.start, token.span.end, token.before);
    write!(shown, "{kind:?} {start}-{end} {before:?}\n")?;
    Ok(())
}

// A label on one line, without TABs.
fn push_label(label: &str, shown: &mut String) -> Result<(), NoMemory> {
    for char in label.chars() {
        match char {
            '\\' => shown.push_str("\\\\")?,
            '\n' => shown.push_str("\\n")?,
            '\t' => shown.push_str("\\t")?,
            plain => shown.push(plain)?,
        }
    }
    Ok(())
}

// DEPTH KIND START-END LABELSTART-LABELEND opaque|added LABEL
fn push_tree_line(tree: &Tree, depth: u64, shown: &mut String) -> Result<(), NoMemory> {
    let (kind, start, end) = (tree.kind, tree.span.start, tree.span.end);
    let (label_start, label_end) = (tree.label_span.start, tree.label_span.end);
    let source = if tree.opaque { "opaque" } else { "added" };
    write!(
        shown,
        "{depth}\t{kind:?}\t{start}-{end}\t{label_start}-{label_end}\t{source}\t"
    )?;
    push_label(tree.label.as_str(), shown)?;
    shown.push_str("\n")?;
    Ok(())
}

fn push_tree(tree: &Tree, depth: u64, shown: &mut String) -> Result<(), NoMemory> {
    push_tree_line(tree, depth, shown)?;
    for kid in tree.kids.as_slice() {
        push_tree(kid, depth.saturating_add(1), shown)?;
    }
    Ok(())
}

// ! START-END CODE TEXT
fn push_problems(problems: &[Problem], shown: &mut String) -> Result<(), NoMemory> {
    for problem in problems {
        let (code, start, end) = (problem.code, problem.span.start, problem.span.end);
        write!(
            shown,
            "!\t{start}-{end}\t{code:?}\t{}\n",
            problem.text.as_str()
        )?;
    }
    Ok(())
}

fn push_tokens(alloc: Global, source: &str, shown: &mut String) -> Result<(), NoMemory>
    requires { length source.now ≤ max_source_bytes }
{
    let tokens = scan(alloc, source)?;
    for token in tokens.tokens.as_slice() {
        push_token(*token, shown)?;
    }
    push_problems(tokens.problems.as_slice(), shown)
}

fn push_unit(alloc: Global, source: &str, shown: &mut String) -> Result<(), NoMemory>
    requires { length source.now ≤ max_source_bytes }
{
    let unit = parse_unit(alloc, source)?;
    push_tree(&unit.root, 0, shown)?;
    push_problems(unit.problems.as_slice(), shown)
}

/// What is printed of a file with this name and text.
pub fn shown(alloc: Global, layer: Layer, name: &str, source: &str) -> Result<String, NoMemory>
    requires { length source.now ≤ max_source_bytes }
{
    let mut shown = String::new(alloc);
    write!(shown, "== {name}\n")?;
    match layer {
        Layer::Tokens => push_tokens(alloc, source, &mut shown)?,
        Layer::Tree => push_unit(alloc, source, &mut shown)?,
    }
    Ok(shown)
}
