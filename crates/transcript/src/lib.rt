//! What is printed of a session: a line for each event of its journal, and for each client what became of each line of
//! its script.
#![tactic(auto)]

ghost use Rattle.std.specs.Prelude.{◌≡◌, IfOk};
ghost use Rattle.transcript.specs.Transcript.{session_text};

mod answers;
mod calls;
mod client_lines;
mod fields;
mod journal;
mod names;
mod outcomes;

use ask_history::{Answer, Journal, Script};
use client_lines::push_clients;
use fields::push_count;
pub use journal::print_checked;
use journal::push_events;
use outcomes::Outcomes;
use pc_terms::{NoMemory, Problem, Row, Text};
use std::alloc::Global;

/// Prints a session: `journal` and its number of events, a line for each, and then for each script `client` and its
/// number, from 0, and what became of each of its lines; at last `end`.
///
/// `answers` has a row for each client: the answers of its calls that were accepted and are settled, in the order of its
/// script. A call without an answer there prints nothing. `problems` has a row for each check in order; a check without
/// one has no problems.
pub fn print_session(
    alloc: Global,
    scripts: &Row<Script>,
    journal: &Journal,
    answers: &Row<Row<Answer>>,
    problems: &Row<Row<Problem>>,
) -> Result<Text, NoMemory>
    ensures { IfOk result (λ text. text ≡ session_text scripts.now journal.now.events answers.now problems.now) }
{
    let events = journal.events.as_slice();
    let outcomes = Outcomes::of_journal(alloc, events)?;
    let mut text = Text::new(alloc, "")?;
    push_count(alloc, &mut text, "journal", events.len())?;
    push_events(alloc, &mut text, problems.as_slice(), events)?;
    push_clients(
        alloc,
        &mut text,
        &outcomes,
        answers.as_slice(),
        scripts.as_slice(),
    )?;
    text.push_str("end\n")?;
    Ok(text)
}
