//! What became of each line of a client.

ghost use Rattle.std.specs.Prelude.{◌≡◌, ◌++◌, ◌+◌, ◌<◌, ◌≤◌, ◌^◌, ℕ, List, length, OnOk};
ghost use Rattle.ask_history.specs.declared.events.Event.{Event};
ghost use Rattle.ask_history.specs.Nested.{number_after};
ghost use Rattle.transcript.specs.Outcomes.{IsTableOf};
ghost use Rattle.transcript.specs.Printed.{without_first};
ghost use Rattle.transcript.specs.Transcript as spec;

use crate::answers::push_answer;
use crate::fields::push_count;
use crate::outcomes::Outcomes;
use ask_history::{Answer, Line, Order, Script};
use pc_terms::{NoMemory, Row, Text};
use std::alloc::Global;

fn push_answered(
    alloc: Global,
    text: &mut Text,
    number: u64,
    answers: &[Answer],
) -> Result<(), NoMemory>
    ensures { OnOk result (text.new ≡ text.old ++ spec.answered_text number answers.now) }
{
    match answers {
        [first, ..] => {
            text.push_number(alloc, number)?;
            text.push_str("\t")?;
            push_answer(alloc, text, first)
        }
        [] => Ok(()),
    }
}

fn push_refused(
    alloc: Global,
    text: &mut Text,
    number: u64,
    closed: Option<u64>,
) -> Result<(), NoMemory>
    ensures { OnOk result (text.new ≡ text.old ++ spec.refused_text number closed) }
{
    match closed {
        Some(index) => {
            text.push_number(alloc, number)?;
            text.push_str("\trefused\tclosed\t")?;
            text.push_number(alloc, index)?;
            text.push_str("\n")
        }
        None => Ok(()),
    }
}

fn push_call(
    alloc: Global,
    text: &mut Text,
    outcomes: &Outcomes,
    number: u64,
    answers: &[Answer],
    ticket: Option<u64>,
) -> Result<(), NoMemory>
    ensures { OnOk result ((journal : List Event) → IsTableOf journal outcomes.now → text.new ≡ text.old ++ spec.call_text journal number answers.now ticket) }
{
    match ticket {
        Some(ticket) => {
            if outcomes.settle_index(ticket).is_some() {
                push_answered(alloc, text, number, answers)
            } else {
                Ok(())
            }
        }
        None => push_refused(alloc, text, number, outcomes.closed),
    }
}

fn push_indices(
    alloc: Global,
    text: &mut Text,
    cancel: Option<u64>,
    settle: Option<u64>,
) -> Result<(), NoMemory>
    ensures { OnOk result (text.new ≡ text.old ++ spec.cancel_outcome cancel settle) }
{
    match (cancel, settle) {
        (Some(cancel), _) => {
            text.push_str("marked\t")?;
            text.push_number(alloc, cancel)
        }
        (None, Some(settle)) => {
            text.push_str("late\t")?;
            text.push_number(alloc, settle)
        }
        (None, None) => text.push_str("none"),
    }
}

fn push_outcome(
    alloc: Global,
    text: &mut Text,
    outcomes: &Outcomes,
    ticket: Option<u64>,
) -> Result<(), NoMemory>
    ensures { OnOk result ((journal : List Event) → IsTableOf journal outcomes.now → text.new ≡ text.old ++ spec.outcome_of journal ticket) }
{
    match ticket {
        Some(ticket) => push_indices(
            alloc,
            text,
            outcomes.cancel_index(ticket),
            outcomes.settle_index(ticket),
        ),
        None => text.push_str("none"),
    }
}

fn push_cancel(
    alloc: Global,
    text: &mut Text,
    outcomes: &Outcomes,
    number: u64,
    ticket: Option<u64>,
) -> Result<(), NoMemory>
    ensures { OnOk result ((journal : List Event) → IsTableOf journal outcomes.now → text.new ≡ text.old ++ spec.cancel_text number (spec.outcome_of journal ticket)) }
{
    text.push_str("cancel\t")?;
    text.push_number(alloc, number)?;
    text.push_str("\t")?;
    push_outcome(alloc, text, outcomes, ticket)?;
    text.push_str("\n")
}

fn push_close(alloc: Global, text: &mut Text, closed: Option<u64>) -> Result<(), NoMemory>
    ensures { OnOk result (text.new ≡ text.old ++ spec.close_text closed) }
{
    match closed {
        Some(index) => {
            text.push_str("close\t")?;
            text.push_number(alloc, index)?;
            text.push_str("\n")
        }
        None => Ok(()),
    }
}

fn push_client_line(
    alloc: Global,
    text: &mut Text,
    outcomes: &Outcomes,
    client: u64,
    number: u64,
    answers: &[Answer],
    order: &Order,
) -> Result<(), NoMemory>
    ensures { OnOk result ((journal : List Event) → IsTableOf journal outcomes.now → text.new ≡ text.old ++ spec.line_printed journal client number answers.now order.now) }
{
    match order {
        Order::Call(_) => push_call(
            alloc,
            text,
            outcomes,
            number,
            answers,
            outcomes.ticket(client, number),
        ),
        Order::Cancel(tag) => push_cancel(
            alloc,
            text,
            outcomes,
            *tag as u64,
            outcomes.ticket(client, *tag as u64),
        ),
        Order::Close => push_close(alloc, text, outcomes.closed),
        Order::Wait(_) | Order::Idle => Ok(()),
    }
}

fn answers_left<'a>(outcomes: &Outcomes, answers: &'a [Answer], ticket: Option<u64>) -> &'a [Answer]
    ensures { (journal : List Event) → IsTableOf journal outcomes.now → result.now ≡ spec.answers_left journal answers.now ticket }
{
    match (ticket, answers) {
        (Some(ticket), [_, rest @ ..]) => {
            if outcomes.settle_index(ticket).is_some() {
                rest
            } else {
                answers
            }
        }
        _ => answers,
    }
}

fn answers_after<'a>(
    outcomes: &Outcomes,
    client: u64,
    number: u64,
    answers: &'a [Answer],
    order: &Order,
) -> &'a [Answer]
    ensures { (journal : List Event) → IsTableOf journal outcomes.now → result.now ≡ spec.answers_after journal client number answers.now order.now }
{
    match order {
        Order::Call(_) => answers_left(outcomes, answers, outcomes.ticket(client, number)),
        _ => answers,
    }
}

fn number_after(order: &Order, number: u64) -> u64
    requires { number < 2 ^ 63 }
    ensures value { result ≡ number_after order.now number }
    ensures most { result ≤ number + 1 }
{
    match order {
        Order::Call(_) => number + 1,
        _ => number,
    }
}

fn push_client_lines(
    alloc: Global,
    text: &mut Text,
    outcomes: &Outcomes,
    client: u64,
    answers: &[Answer],
    lines: &[Line],
) -> Result<(), NoMemory>
    requires { length lines.now < 2 ^ 62 }
    ensures { OnOk result ((journal : List Event) → IsTableOf journal outcomes.now → text.new ≡ text.old ++ spec.lines_printed journal client 1 answers.now lines.now) }
{
    let mut left = answers;
    let mut number = 1;
    for line in lines {
        push_client_line(alloc, text, outcomes, client, number, left, &line.order)?;
        left = answers_after(outcomes, client, number, left, &line.order);
        number = number_after(&line.order, number);
    }
    Ok(())
}

fn first_answers(rows: &[Row<Answer>]) -> &[Answer]
    ensures { result.now ≡ spec.first_answers rows.now }
{
    match rows {
        [answers, ..] => answers.as_slice(),
        [] => &[],
    }
}

fn without_first(rows: &[Row<Answer>]) -> &[Row<Answer>]
    ensures { result.now ≡ without_first rows.now }
{
    match rows {
        [_, rest @ ..] => rest,
        [] => rows,
    }
}

pub fn push_clients(
    alloc: Global,
    text: &mut Text,
    outcomes: &Outcomes,
    rows: &[Row<Answer>],
    scripts: &[Script],
) -> Result<(), NoMemory>
    ensures { OnOk result ((journal : List Event) → IsTableOf journal outcomes.now → text.new ≡ text.old ++ spec.clients_text journal 0 rows.now scripts.now) }
{
    let mut left = rows;
    for (client, script) in scripts.iter().enumerate() {
        push_count(alloc, text, "client", client)?;
        push_client_lines(
            alloc,
            text,
            outcomes,
            client as u64,
            first_answers(left),
            script.lines.as_slice(),
        )?;
        left = without_first(left);
    }
    Ok(())
}
