//! A table as text.

use base_types::Flags;
use pc_terms::{Item, NoMemory, Row, SymPath, show_symbol};
use std::alloc::Global;
use symbol_table::{Decl, Table};

// More definitions than any of the tables here has.
const MANY: u32 = 100;

fn push_flag(text: &mut String, flag: bool, word: &str) -> Result<(), NoMemory> {
    if flag {
        text.push_str(" ")?;
        text.push_str(word)?;
    }
    Ok(())
}

fn push_flags(text: &mut String, flags: Flags) -> Result<(), NoMemory> {
    push_flag(text, flags.abstract_, "abstract")?;
    push_flag(text, flags.case_, "case")?;
    push_flag(text, flags.final_, "final")?;
    push_flag(text, flags.override_, "override")?;
    push_flag(text, flags.prelude, "prelude")?;
    push_flag(text, flags.private_, "private")?;
    push_flag(text, flags.protected_, "protected")?;
    push_flag(text, flags.sealed_, "sealed")
}

// A definition's symbol, its source, the byte of its label, and its flags.
fn push_decl(alloc: Global, text: &mut String, decl: &Decl) -> Result<(), NoMemory> {
    let symbol = show_symbol(alloc, &decl.path)?;
    let file = decl.file;
    let start = decl.label_span.start;
    let head = format!(in alloc; " {file}:{start}")?;
    text.push_str(symbol.as_str())?;
    text.push_str(head.as_str())?;
    push_flags(text, decl.flags)?;
    text.push_str("\n")?;
    Ok(())
}

// The definitions of an owner from the last one on, so that the first is taken first.
fn push_owned<'a>(
    open: &mut Vec<&'a Decl>,
    table: &'a Table,
    owner: &SymPath,
) -> Result<(), NoMemory> {
    for decl in table.owned(owner).iter().rev() {
        open.push(decl)?;
    }
    Ok(())
}

/// The definitions of a table, each owner before what it owns.
pub fn definitions(alloc: Global, table: &Table) -> Result<String, NoMemory> {
    let mut text = String::new(alloc);
    let mut open = Vec::new(alloc);
    let root = SymPath {
        steps: Row::new(alloc),
    };
    push_owned(&mut open, table, &root)?;
    for _ in 0..MANY {
        match open.pop() {
            Some(decl) => {
                push_decl(alloc, &mut text, decl)?;
                push_owned(&mut open, table, &decl.path)?;
            }
            None => break,
        }
    }
    Ok(text)
}

fn push_symbol_item(
    alloc: Global,
    text: &mut String,
    word: &str,
    path: &SymPath,
) -> Result<(), NoMemory> {
    let symbol = show_symbol(alloc, path)?;
    text.push_str(word)?;
    text.push_str(symbol.as_str())?;
    text.push_str("\n")?;
    Ok(())
}

fn push_item(alloc: Global, text: &mut String, item: &Item) -> Result<(), NoMemory> {
    match item {
        Item::Parents(path) => push_symbol_item(alloc, text, "parents ", path),
        Item::Signature(path) => push_symbol_item(alloc, text, "signature ", path),
        Item::Qualifier(file, at) => {
            let file = file.as_str();
            let line = format!(in alloc; "qualifier {file} {at}\n")?;
            text.push_str(line.as_str())?;
            Ok(())
        }
    }
}

/// The items of a table.
pub fn items(alloc: Global, table: &Table) -> Result<String, NoMemory> {
    let mut text = String::new(alloc);
    for item in table.items() {
        push_item(alloc, &mut text, item)?;
    }
    Ok(text)
}
