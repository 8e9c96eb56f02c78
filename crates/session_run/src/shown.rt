//! What is printed of a session.

ghost use Rattle.std.specs.Prelude.{◌≡◌, map, ◌∷◌, [], IfOk};
ghost use Rattle.session_run.specs.Printed.{session_of};
ghost use Rattle.session_run.specs.Shown as spec;

use ask_history::{Answer, Call, Journal, Line, Order, Script};
use pc_terms::{NoMemory, Problem, Row, Text};
use std::alloc::Global;
use transcript::print_session;

fn shown_order(alloc: Global, order: &Order) -> Order
    ensures { result ≡ spec.shown_order order.now }
{
    match order {
        Order::Call(_) => Order::Call(Call::Remove(Row::new(alloc))),
        Order::Cancel(number) => Order::Cancel(*number),
        Order::Close => Order::Close,
        Order::Wait(number) => Order::Wait(*number),
        Order::Idle => Order::Idle,
    }
}

fn shown_line(alloc: Global, line: &Line) -> Line
    ensures { result ≡ spec.shown_line line.now }
{
    Line {
        level: 0,
        check: 0,
        turn: 0,
        order: shown_order(alloc, &line.order),
    }
}

/// What of lines is printed with the answers.
pub fn shown_lines(alloc: Global, lines: &[Line]) -> Result<Row<Line>, NoMemory>
    ensures { IfOk result (λ shown. shown ≡ map spec.shown_line lines.now) }
{
    let mut shown = Row::new(alloc);
    for line in lines {
        shown.push(shown_line(alloc, line))?;
    }
    Ok(shown)
}

// The script of the one client.
fn one_script(alloc: Global, lines: Row<Line>) -> Result<Row<Script>, NoMemory>
    ensures { IfOk result (λ scripts. scripts ≡ record { lines = lines } ∷ []) }
{
    let mut scripts = Row::new(alloc);
    scripts.push(Script { lines })?;
    Ok(scripts)
}

// The answers of the one client.
fn one_row(alloc: Global, answers: Row<Answer>) -> Result<Row<Row<Answer>>, NoMemory>
    ensures { IfOk result (λ rows. rows ≡ answers ∷ []) }
{
    let mut rows = Row::new(alloc);
    rows.push(answers)?;
    Ok(rows)
}

/// Prints a session of one client.
pub fn print_played(
    alloc: Global,
    lines: Row<Line>,
    journal: &Journal,
    answers: Row<Answer>,
    problems: &Row<Row<Problem>>,
) -> Result<Text, NoMemory>
    ensures { IfOk result (λ text. text ≡ session_of lines journal.now.events answers problems.now) }
{
    let scripts = one_script(alloc, lines)?;
    let rows = one_row(alloc, answers)?;
    print_session(alloc, &scripts, journal, &rows, problems)
}
