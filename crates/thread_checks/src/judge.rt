//! Whether the events of a journal may come in their order in a session of these scripts, and what is then printed of it.
//! It knows the rules of sessions and of scripts, as docs/SESSIONS.md has them, and no definition of any crate.

use crate::lines::{Line, is_call, is_mutation, push_call};
use crate::sources::{
    File, Source, is_loaded, is_unread, name, outline_of, reload, remove, tree_at,
};
use crate::steps::Step;
use ask_history::Mark;
use pc_terms::NoMemory;
use std::alloc::Global;
use std::fmt::Write;

/// A call that was accepted, and what became of it, with the journal indices of its cancel and its settling.
#[derive(Clone, Copy)]
struct Accepted {
    client: usize,
    tag: usize,
    line: Line,
    cancelled: Option<usize>,
    settled: Option<usize>,
    answer: &'static str,
}

/// How many lines of its script a client has played, and the tickets of its calls.
#[derive(Drop)]
struct Client {
    played: usize,
    tickets: Vec<usize>,
}

/// A session of clients with these scripts, as far as its events have come.
#[derive(Drop)]
struct Session<'a> {
    scripts: &'a [Vec<Line>],
    clients: Vec<Client>,
    calls: Vec<Accepted>,
    closed: Option<usize>,
    loaded: Vec<Source>,
    /// The files that were checked since a mutation last took effect.
    checked: Vec<File>,
}

impl Session<'_> {
    fn call_of(&self, client: usize, tag: usize) -> Option<Accepted> {
        let ticket = self.clients.get(client)?.tickets.get(tag.checked_sub(1)?)?;
        self.calls.get(*ticket).copied()
    }

    // Whether a client has played a line that makes no event any more.
    fn is_over(&self, client: usize, line: Line) -> bool {
        let call = match line {
            Line::Wait(tag) | Line::Cancel(tag) => self.call_of(client, tag),
            _ => None,
        };
        match (line, call) {
            (Line::Wait(_), Some(call)) => call.settled.is_some(),
            (Line::Cancel(_), Some(call)) => call.settled.is_some() || call.cancelled.is_some(),
            _ => self.closed.is_some(),
        }
    }

    // The first line that a client has still to play, with its index.
    fn next_line(&self, client: usize) -> Option<(usize, Line)> {
        let played = self.clients.get(client)?.played;
        let lines = self.scripts.get(client)?;
        for (index, line) in lines.iter().enumerate() {
            if index >= played && !self.is_over(client, *line) {
                return Some((index, *line));
            }
        }
        None
    }

    fn played(&mut self, client: usize, index: usize) {
        if let Some(client) = self.clients.get_mut(client) {
            client.played = index.saturating_add(1);
        }
    }

    fn accept(&mut self, client: usize) -> Result<bool, NoMemory> {
        let Some((index, line)) = self.next_line(client) else {
            return Ok(false);
        };
        let ticket = self.calls.len();
        let Some(own) = self.clients.get_mut(client) else {
            return Ok(false);
        };
        if self.closed.is_some() || !is_call(line) {
            return Ok(false);
        }
        own.tickets.push(ticket)?;
        let tag = own.tickets.len();
        self.played(client, index);
        self.calls.push(Accepted {
            client,
            tag,
            line,
            cancelled: None,
            settled: None,
            answer: "",
        })?;
        Ok(true)
    }

    fn cancel(&mut self, ticket: usize, place: usize) -> bool {
        let Some(call) = self.calls.get(ticket).copied() else {
            return false;
        };
        let Some((index, Line::Cancel(tag))) = self.next_line(call.client) else {
            return false;
        };
        if self.closed.is_some() || call.settled.is_some() || tag != call.tag {
            return false;
        }
        self.played(call.client, index);
        if let Some(call) = self.calls.get_mut(ticket) {
            call.cancelled = Some(place);
        }
        true
    }

    fn is_settled(&self) -> bool {
        self.calls.iter().all(|call| call.settled.is_some())
    }

    // Whether a client has come to its `close`; where no script has one, whether all have come to their ends.
    fn may_close(&self) -> bool {
        let mut has_close = false;
        let mut has_come = false;
        let mut have_ended = true;
        for (client, lines) in self.scripts.iter().enumerate() {
            let next = self.next_line(client);
            has_close |= lines.iter().any(|line| matches!(line, Line::Close));
            has_come |= matches!(next, Some((_, Line::Close)));
            have_ended &= next.is_none();
        }
        if has_close {
            has_come
        } else {
            have_ended && self.is_settled()
        }
    }

    fn close(&mut self, place: usize) -> bool {
        if self.closed.is_some() || !self.may_close() {
            return false;
        }
        self.closed = Some(place);
        true
    }

    // The shutdown settles what is open in the order of the tickets.
    fn may_settle(&self, ticket: usize, mark: Mark) -> bool {
        let mut earlier = self.calls.iter().take(ticket);
        if self.closed.is_some() {
            mark == Mark::Done && earlier.all(|call| call.settled.is_some())
        } else {
            earlier.all(|call| call.settled.is_some() || !is_mutation(call.line))
        }
    }

    fn answer(&self, call: &Accepted, mark: Mark) -> &'static str {
        if self.closed.is_some() {
            return "closed";
        }
        if call.cancelled.is_some() {
            return "cancelled";
        }
        if mark == Mark::NoMemory {
            return "nomemory";
        }
        match call.line {
            Line::Type(file, offset) => tree_at(&self.loaded, file, offset),
            Line::Structure(file) => outline_of(&self.loaded, file),
            _ => "done",
        }
    }

    fn take_effect(&mut self, line: Line) -> Result<(), NoMemory> {
        match line {
            Line::Reload(source) => reload(&mut self.loaded, source)?,
            Line::Remove(file) => remove(&mut self.loaded, file),
            _ => return Ok(()),
        }
        self.checked.clear();
        Ok(())
    }

    fn settle(&mut self, ticket: usize, mark: Mark, place: usize) -> Result<bool, NoMemory> {
        let Some(call) = self.calls.get(ticket).copied() else {
            return Ok(false);
        };
        if call.settled.is_some() || !self.may_settle(ticket, mark) {
            return Ok(false);
        }
        let answer = self.answer(&call, mark);
        if answer == "done" {
            self.take_effect(call.line)?;
        }
        if let Some(call) = self.calls.get_mut(ticket) {
            call.settled = Some(place);
            call.answer = answer;
        }
        Ok(true)
    }

    fn check(&mut self, file: File) -> Result<bool, NoMemory> {
        if self.closed.is_some() || !is_loaded(&self.loaded, file) || self.checked.contains(&file) {
            return Ok(false);
        }
        self.checked.push(file)?;
        Ok(true)
    }

    // Takes one event more, unless it may not stand there.
    fn step(&mut self, step: Step, place: usize) -> Result<bool, NoMemory> {
        match step {
            Step::Accept(client) => self.accept(client),
            Step::Cancel(ticket) => Ok(self.cancel(ticket, place)),
            Step::Settle(ticket, mark) => self.settle(ticket, mark, place),
            Step::Close => Ok(self.close(place)),
            Step::Checked(file) => self.check(file),
            Step::Stray => Ok(false),
        }
    }

    fn print_accepted(&self, text: &mut String) -> Result<(), NoMemory> {
        let Some(call) = self.calls.last() else {
            return Ok(());
        };
        let ticket = self.calls.len().saturating_sub(1);
        write!(text, "accept\t{ticket}\t{}\t{}\t", call.client, call.tag)?;
        push_call(text, call.line)
    }

    fn print_checked(&self, text: &mut String, file: File) -> Result<(), NoMemory> {
        write!(text, "checked\t{}\t", name(file))?;
        if is_unread(&self.loaded) {
            text.push_str("1\n\t0-0\tP1\tnot a statement of the profile")?;
        } else {
            text.push_str("0")?;
        }
        Ok(())
    }

    fn print_step(&self, text: &mut String, step: Step, place: usize) -> Result<(), NoMemory> {
        write!(text, "{place}\t")?;
        match step {
            Step::Accept(_) => self.print_accepted(text)?,
            Step::Cancel(ticket) => write!(text, "cancel\t{ticket}")?,
            Step::Settle(ticket, Mark::Done) => write!(text, "settle\t{ticket}\tdone")?,
            Step::Settle(ticket, Mark::NoMemory) => write!(text, "settle\t{ticket}\tnomemory")?,
            Step::Close => text.push_str("close")?,
            Step::Checked(file) => self.print_checked(text, file)?,
            Step::Stray => {}
        }
        text.push('\n')?;
        Ok(())
    }

    fn print_answer(&self, text: &mut String, client: usize, tag: usize) -> Result<(), NoMemory> {
        match (self.call_of(client, tag), self.closed) {
            (Some(call), _) => writeln!(text, "{tag}\t{}", call.answer)?,
            (None, Some(place)) => writeln!(text, "{tag}\trefused\tclosed\t{place}")?,
            (None, None) => {}
        }
        Ok(())
    }

    fn print_cancel(&self, text: &mut String, client: usize, tag: usize) -> Result<(), NoMemory> {
        let Some(call) = self.call_of(client, tag) else {
            writeln!(text, "cancel\t{tag}\tnone")?;
            return Ok(());
        };
        match (call.cancelled, call.settled) {
            (Some(place), _) => writeln!(text, "cancel\t{tag}\tmarked\t{place}")?,
            (None, Some(place)) => writeln!(text, "cancel\t{tag}\tlate\t{place}")?,
            (None, None) => {}
        }
        Ok(())
    }

    fn print_close(&self, text: &mut String) -> Result<(), NoMemory> {
        if let Some(place) = self.closed {
            writeln!(text, "close\t{place}")?;
        }
        Ok(())
    }

    fn print_client(
        &self,
        text: &mut String,
        client: usize,
        lines: &[Line],
    ) -> Result<(), NoMemory> {
        writeln!(text, "client\t{client}")?;
        let mut tag: usize = 0;
        for line in lines {
            match *line {
                Line::Wait(_) => {}
                Line::Close => self.print_close(text)?,
                Line::Cancel(of) => self.print_cancel(text, client, of)?,
                _ => {
                    tag = tag.saturating_add(1);
                    self.print_answer(text, client, tag)?;
                }
            }
        }
        Ok(())
    }

    fn print_clients(&self, text: &mut String) -> Result<(), NoMemory> {
        for (client, lines) in self.scripts.iter().enumerate() {
            self.print_client(text, client, lines)?;
        }
        text.push_str("end\n")?;
        Ok(())
    }

    // Prints the session, up to the first event that may not stand there.
    fn play(&mut self, text: &mut String, steps: &[Step]) -> Result<Option<usize>, NoMemory> {
        writeln!(text, "journal\t{}", steps.len())?;
        for (place, step) in steps.iter().enumerate() {
            if !self.step(*step, place)? {
                return Ok(Some(place));
            }
            self.print_step(text, *step, place)?;
        }
        self.print_clients(text)?;
        if self.closed.is_some() && self.is_settled() {
            Ok(None)
        } else {
            Ok(Some(steps.len()))
        }
    }
}

fn clients_of(alloc: Global, count: usize) -> Result<Vec<Client>, NoMemory> {
    let mut clients = Vec::new(alloc);
    for _ in 0..count {
        clients.push(Client {
            played: 0,
            tickets: Vec::new(alloc),
        })?;
    }
    Ok(clients)
}

/// Prints a whole session of clients with these scripts whose events come in this order. It gives the journal index of the first
/// event that may not stand there; the number of the events where the session is not shut down, or a call is left open.
pub fn judge(
    alloc: Global,
    scripts: &[Vec<Line>],
    steps: &[Step],
    text: &mut String,
) -> Result<Option<usize>, NoMemory> {
    let mut session = Session {
        scripts,
        clients: clients_of(alloc, scripts.len())?,
        calls: Vec::new(alloc),
        closed: None,
        loaded: Vec::new(alloc),
        checked: Vec::new(alloc),
    };
    session.play(text, steps)
}
