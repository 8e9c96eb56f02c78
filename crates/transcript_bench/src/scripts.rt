//! Scripts of so many calls.

use crate::calls::ask;
use ask_history::{Line, Order, Script};
use pc_terms::{NoMemory, Row};
use std::alloc::Global;

fn line(level: u32, order: Order) -> Line {
    Line {
        level,
        check: 0,
        turn: 0,
        order,
    }
}

fn push_call(alloc: Global, lines: &mut Row<Line>, level: u32) -> Result<(), NoMemory> {
    lines.push(line(level, Order::Call(ask(alloc)?)))
}

/// Calls that stand side by side.
pub fn level(alloc: Global, calls: u32) -> Result<Script, NoMemory> {
    let mut lines = Row::new(alloc);
    for _ in 0..calls {
        push_call(alloc, &mut lines, 0)?;
    }
    Ok(Script { lines })
}

/// All calls but the first stand under the first.
pub fn under_one(alloc: Global, calls: u32) -> Result<Script, NoMemory> {
    let mut lines = Row::new(alloc);
    for number in 0..calls {
        push_call(alloc, &mut lines, number.min(1))?;
    }
    Ok(Script { lines })
}

/// Each call stands under the one above it.
pub fn stairs(alloc: Global, calls: u32) -> Result<Script, NoMemory> {
    let mut lines = Row::new(alloc);
    for number in 0..calls {
        push_call(alloc, &mut lines, number)?;
    }
    Ok(Script { lines })
}

/// Each call has a cancel under it.
pub fn cancels(alloc: Global, calls: u32) -> Result<Script, NoMemory> {
    let mut lines = Row::new(alloc);
    for number in 0..calls {
        push_call(alloc, &mut lines, 0)?;
        lines.push(line(1, Order::Cancel(number + 1)))?;
    }
    Ok(Script { lines })
}

/// A shutdown, and then calls.
pub fn after_close(alloc: Global, calls: u32) -> Result<Script, NoMemory> {
    let mut lines = Row::new(alloc);
    lines.push(line(0, Order::Close))?;
    for _ in 0..calls {
        push_call(alloc, &mut lines, 0)?;
    }
    Ok(Script { lines })
}
