//! What came of a schedule, in words.

use ask_history::{Answer, Event, Mark, TreeInfo};
use pc_terms::{NoMemory, Problem, Row, Text, show, show_symbol};
use schedule_player::Played;
use std::alloc::Global;
use std::fmt::Write;

// An event with its ticket: `+` accepted, `-` cancelled, `=` settled, `!` settled out of memory; `#` is the shutdown,
// and `?` a check.
fn show_event(out: &mut String, event: &Event) -> Result<(), NoMemory> {
    match event {
        Event::Accept { ticket, .. } => write!(out, " +{ticket}")?,
        Event::Cancel { ticket } => write!(out, " -{ticket}")?,
        Event::Close => write!(out, " #")?,
        Event::Settle {
            ticket,
            mark: Mark::Done,
        } => write!(out, " ={ticket}")?,
        Event::Settle {
            ticket,
            mark: Mark::NoMemory,
        } => write!(out, " !{ticket}")?,
        Event::Checked { file } => write!(out, " ?{}", file.as_str())?,
    }
    Ok(())
}

fn show_tree(alloc: Global, out: &mut String, tree: &TreeInfo) -> Result<(), NoMemory> {
    let ty = match &tree.ty {
        Some(ty) => show(alloc, ty)?,
        None => Text::new(alloc, "-")?,
    };
    let sym = match &tree.sym {
        Some(sym) => show_symbol(alloc, sym)?,
        None => Text::new(alloc, "-")?,
    };
    let (kind, start, end) = (tree.kind, tree.span.start, tree.span.end);
    let (ty, sym) = (ty.as_str(), sym.as_str());
    write!(out, "\n{kind:?} {start}-{end} {ty} {sym}")?;
    Ok(())
}

fn show_answer(alloc: Global, out: &mut String, answer: &Answer) -> Result<(), NoMemory> {
    match answer {
        Answer::Tree(tree) => show_tree(alloc, out, tree)?,
        Answer::Done => write!(out, "\ndone")?,
        Answer::NoUnit => write!(out, "\nnounit")?,
        Answer::NoTree => write!(out, "\nnotree")?,
        Answer::Unread => write!(out, "\nunread")?,
        Answer::Cancelled => write!(out, "\ncancelled")?,
        Answer::Closed => write!(out, "\nclosed")?,
        Answer::NoMemory => write!(out, "\nnomemory")?,
        _ => write!(out, "\nanother answer")?,
    }
    Ok(())
}

fn show_found(out: &mut String, found: &[Row<Problem>]) -> Result<(), NoMemory> {
    if !found.is_empty() {
        write!(out, "\nproblems")?;
    }
    for problems in found {
        write!(out, " {}", problems.len())?;
    }
    Ok(())
}

fn show_played(alloc: Global, out: &mut String, played: &Played) -> Result<(), NoMemory> {
    if !played.whole {
        write!(out, "cut short\n")?;
    }
    write!(out, "journal")?;
    for event in played.journal.events.as_slice() {
        show_event(out, event)?;
    }
    for answer in played.answers.as_slice() {
        show_answer(alloc, out, answer)?;
    }
    show_found(out, played.problems.as_slice())
}

/// The journal in one line, each answer in a line, and the numbers of problems that the checks found in a last line.
pub fn shown(alloc: Global, played: Played) -> Result<String, NoMemory> {
    let mut out = String::new(alloc);
    show_played(alloc, &mut out, &played)?;
    Ok(out)
}
