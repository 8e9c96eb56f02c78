//! The events of a journal.

ghost use Rattle.std.specs.Prelude.{◌≡◌, ◌++◌, OnOk, IfOk};
ghost use Rattle.transcript.specs.Printed as spec;

use crate::calls::push_call;
use crate::fields::push_problems;
use ask_history::{Call, Event, Mark};
use pc_terms::{NoMemory, Problem, Row, Text};
use std::alloc::Global;

fn push_accept(
    alloc: Global,
    text: &mut Text,
    ticket: u64,
    client: u64,
    tag: u64,
    call: &Call,
) -> Result<(), NoMemory>
    ensures { OnOk result (text.new ≡ text.old ++ spec.accept_text ticket client tag call.now) }
{
    text.push_str("accept\t")?;
    text.push_number(alloc, ticket)?;
    text.push_str("\t")?;
    text.push_number(alloc, client)?;
    text.push_str("\t")?;
    text.push_number(alloc, tag)?;
    text.push_str("\t")?;
    push_call(alloc, text, call)?;
    text.push_str("\n")
}

fn push_cancel(alloc: Global, text: &mut Text, ticket: u64) -> Result<(), NoMemory>
    ensures { OnOk result (text.new ≡ text.old ++ spec.cancel_text ticket) }
{
    text.push_str("cancel\t")?;
    text.push_number(alloc, ticket)?;
    text.push_str("\n")
}

fn mark_name(mark: Mark) -> &'static str
    ensures { result.now ≡ spec.mark_name mark }
{
    match mark {
        Mark::Done => "done",
        Mark::NoMemory => "nomemory",
    }
}

fn push_settle(alloc: Global, text: &mut Text, ticket: u64, mark: Mark) -> Result<(), NoMemory>
    ensures { OnOk result (text.new ≡ text.old ++ spec.settle_text ticket mark) }
{
    text.push_str("settle\t")?;
    text.push_number(alloc, ticket)?;
    text.push_str("\t")?;
    text.push_str(mark_name(mark))?;
    text.push_str("\n")
}

fn first_found(problems: &[Row<Problem>]) -> &[Problem]
    ensures { result.now ≡ spec.first_found problems.now }
{
    match problems {
        [found, ..] => found.as_slice(),
        [] => &[],
    }
}

fn push_checked(
    alloc: Global,
    text: &mut Text,
    file: &Text,
    found: &[Problem],
) -> Result<(), NoMemory>
    ensures { OnOk result (text.new ≡ text.old ++ spec.checked_text file.now found.now) }
{
    text.push_str("checked\t")?;
    text.push_str(file.as_str())?;
    text.push_str("\t")?;
    text.push_number(alloc, found.len() as u64)?;
    text.push_str("\n")?;
    push_problems(alloc, text, found)
}

/// Prints a check as its event is printed, without a journal index: `checked`, the file and the number of its problems, and
/// a line for each.
pub fn print_checked(alloc: Global, file: &Text, found: &[Problem]) -> Result<Text, NoMemory>
    ensures { IfOk result (λ text. text ≡ spec.checked_text file.now found.now) }
{
    let mut text = Text::new(alloc, "")?;
    push_checked(alloc, &mut text, file, found)?;
    Ok(text)
}

fn push_event(
    alloc: Global,
    text: &mut Text,
    problems: &[Row<Problem>],
    event: &Event,
) -> Result<(), NoMemory>
    ensures { OnOk result (text.new ≡ text.old ++ spec.event_text problems.now event.now) }
{
    match event {
        Event::Accept {
            ticket,
            client,
            tag,
            call,
        } => push_accept(alloc, text, *ticket, *client, *tag, call),
        Event::Cancel { ticket } => push_cancel(alloc, text, *ticket),
        Event::Close => text.push_str("close\n"),
        Event::Settle { ticket, mark } => push_settle(alloc, text, *ticket, *mark),
        Event::Checked { file } => push_checked(alloc, text, file, first_found(problems)),
    }
}

fn problems_after<'a>(event: &Event, problems: &'a [Row<Problem>]) -> &'a [Row<Problem>]
    ensures { result.now ≡ spec.problems_after event.now problems.now }
{
    match (event, problems) {
        (Event::Checked { .. }, [_, after @ ..]) => after,
        _ => problems,
    }
}

fn push_line(
    alloc: Global,
    text: &mut Text,
    index: usize,
    problems: &[Row<Problem>],
    event: &Event,
) -> Result<(), NoMemory>
    ensures { OnOk result (text.new ≡ text.old ++ spec.event_line index problems.now event.now) }
{
    text.push_number(alloc, index as u64)?;
    text.push_str("\t")?;
    push_event(alloc, text, problems, event)
}

pub fn push_events(
    alloc: Global,
    text: &mut Text,
    problems: &[Row<Problem>],
    events: &[Event],
) -> Result<(), NoMemory>
    ensures { OnOk result (text.new ≡ text.old ++ spec.events_text 0 problems.now events.now) }
{
    let mut left = problems;
    for (index, event) in events.iter().enumerate() {
        push_line(alloc, text, index, left, event)?;
        left = problems_after(event, left);
    }
    Ok(())
}
