//! Sessions as tables, and what is printed of them.

use super::found::{Finding, Found};
use super::making::{Make, made, made_each};
use ask_history::{Call, Event, Journal, Line, Mark, Order, Script};
use pc_terms::{NoMemory, Row, Text};
use std::alloc::Global;
use std::process::Abort;
use std::test::Fail;
use transcript::print_session;

pub const A: &str = "object A { val x = 1 }";

pub const B: &str = "object B { val a = b; val b = 1 }";

/// A line of a client. What a call asks for is not printed with its answer.
pub enum Wanted {
    Call,
    Cancel(u32),
    Close,
    Idle,
    Wait(u32),
}

/// A name and a text.
pub struct Pair(pub &'static str, pub &'static str);

pub struct FileName(pub &'static str);

/// What a call asks for.
pub enum Asked {
    Reload(&'static [Pair]),
    Remove(&'static [FileName]),
    TypeAt(&'static str, u32),
    MembersAt(&'static str, u32),
    ScopeAt(&'static str, u32),
    LinkAt(&'static str, u32),
    Structure(&'static str),
    LoadedTyped(&'static str),
}

pub enum Happened {
    /// Ticket, client and tag.
    Accept(u64, u64, u64, Asked),
    Cancel(u64),
    Close,
    Done(u64),
    NoMemory(u64),
    Checked(&'static str),
}

/// A session with the lines of each client, its answers, and the problems of each check.
#[derive(Clone, Copy)]
pub struct Session {
    pub scripts: &'static [&'static [Wanted]],
    pub events: &'static [Happened],
    pub answers: &'static [&'static [Found]],
    pub problems: &'static [&'static [Finding]],
}

impl Make for Wanted {
    type Made = Line;

    fn make(&self, alloc: Global) -> Result<Line, NoMemory> {
        let order = match self {
            Wanted::Call => Order::Call(Call::Remove(Row::new(alloc))),
            Wanted::Cancel(number) => Order::Cancel(*number),
            Wanted::Close => Order::Close,
            Wanted::Idle => Order::Idle,
            Wanted::Wait(number) => Order::Wait(*number),
        };
        Ok(Line {
            level: 0,
            check: 0,
            turn: 0,
            order,
        })
    }
}

impl Make for Pair {
    type Made = (Text, Text);

    fn make(&self, alloc: Global) -> Result<(Text, Text), NoMemory> {
        Ok((Text::new(alloc, self.0)?, Text::new(alloc, self.1)?))
    }
}

impl Make for FileName {
    type Made = Text;

    fn make(&self, alloc: Global) -> Result<Text, NoMemory> {
        Text::new(alloc, self.0)
    }
}

impl Make for Asked {
    type Made = Call;

    fn make(&self, alloc: Global) -> Result<Call, NoMemory> {
        match self {
            Asked::Reload(pairs) => Ok(Call::Reload(made(alloc, pairs)?)),
            Asked::Remove(names) => Ok(Call::Remove(made(alloc, names)?)),
            Asked::TypeAt(file, offset) => Ok(Call::TypeAt(Text::new(alloc, file)?, *offset)),
            Asked::MembersAt(file, offset) => Ok(Call::MembersAt(Text::new(alloc, file)?, *offset)),
            Asked::ScopeAt(file, offset) => Ok(Call::ScopeAt(Text::new(alloc, file)?, *offset)),
            Asked::LinkAt(file, offset) => Ok(Call::LinkAt(Text::new(alloc, file)?, *offset)),
            Asked::Structure(file) => Ok(Call::Structure(Text::new(alloc, file)?)),
            Asked::LoadedTyped(file) => Ok(Call::LoadedTyped(Text::new(alloc, file)?)),
        }
    }
}

fn settled(ticket: u64, mark: Mark) -> Event {
    Event::Settle { ticket, mark }
}

impl Make for Happened {
    type Made = Event;

    fn make(&self, alloc: Global) -> Result<Event, NoMemory> {
        match self {
            Happened::Accept(ticket, client, tag, asked) => {
                let call = asked.make(alloc)?;
                Ok(Event::Accept {
                    ticket: *ticket,
                    client: *client,
                    tag: *tag,
                    call,
                })
            }
            Happened::Cancel(ticket) => Ok(Event::Cancel { ticket: *ticket }),
            Happened::Close => Ok(Event::Close),
            Happened::Done(ticket) => Ok(settled(*ticket, Mark::Done)),
            Happened::NoMemory(ticket) => Ok(settled(*ticket, Mark::NoMemory)),
            Happened::Checked(file) => {
                let file = Text::new(alloc, file)?;
                Ok(Event::Checked { file })
            }
        }
    }
}

fn scripts(alloc: Global, clients: &[&[Wanted]]) -> Result<Row<Script>, NoMemory> {
    let mut scripts = Row::new(alloc);
    for lines in clients {
        let lines = made(alloc, lines)?;
        scripts.push(Script { lines })?;
    }
    Ok(scripts)
}

fn printed(alloc: Global, session: &Session) -> Result<Text, NoMemory> {
    let scripts = scripts(alloc, session.scripts)?;
    let events = made(alloc, session.events)?;
    let answers = made_each(alloc, session.answers)?;
    let problems = made_each(alloc, session.problems)?;
    print_session(alloc, &scripts, &Journal { events }, &answers, &problems)
}

pub fn agree(
    rt: &(impl Abort + AllocGlobal),
    session: &Session,
    expected: &str,
) -> Result<(), Fail> {
    let text = printed(rt.alloc(), session)?;
    assert_eq!(rt; text.as_str(), expected);
    Ok(())
}
