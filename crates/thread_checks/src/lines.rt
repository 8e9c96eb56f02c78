//! The lines of clients' scripts, as a run reads them and as its journal shows them.

use crate::sources::{File, Source, facts_of, name};
use pc_terms::NoMemory;
use std::alloc::Global;
use std::fmt::Write;

/// A line of a client's script.
#[derive(Clone, Copy, Debug)]
pub enum Line {
    /// The file of this text gets it.
    Reload(Source),
    Remove(File),
    Type(File, u32),
    Structure(File),
    Cancel(usize),
    Wait(usize),
    Close,
}

/// Whether a line is a call.
pub fn is_call(line: Line) -> bool {
    !matches!(line, Line::Cancel(_) | Line::Wait(_) | Line::Close)
}

/// Whether a call changes the sources.
pub fn is_mutation(line: Line) -> bool {
    matches!(line, Line::Reload(_) | Line::Remove(_))
}

/// Prints a call as a journal shows it.
pub fn push_call(text: &mut String, line: Line) -> Result<(), NoMemory> {
    match line {
        Line::Reload(source) => {
            let facts = facts_of(source);
            write!(text, "reload {} {}", name(facts.file), facts.text.len())?;
        }
        Line::Remove(file) => write!(text, "remove {}", name(file))?,
        Line::Type(file, offset) => write!(text, "type {} {offset}", name(file))?,
        Line::Structure(file) => write!(text, "structure {}", name(file))?,
        Line::Cancel(_) | Line::Wait(_) | Line::Close => {}
    }
    Ok(())
}

fn push_line(text: &mut String, line: Line) -> Result<(), NoMemory> {
    match line {
        Line::Reload(source) => {
            let facts = facts_of(source);
            write!(text, "reload {} {}", name(facts.file), facts.path)?;
        }
        Line::Cancel(call) => write!(text, "cancel {call}")?,
        Line::Wait(call) => write!(text, "wait {call}")?,
        Line::Close => text.push_str("close")?,
        call => push_call(text, call)?,
    }
    text.push('\n')?;
    Ok(())
}

/// The text of a script.
pub fn script_text(alloc: Global, lines: &[Line]) -> Result<String, NoMemory> {
    let mut text = String::new(alloc);
    for line in lines {
        push_line(&mut text, *line)?;
    }
    Ok(text)
}
