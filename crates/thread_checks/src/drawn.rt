//! Scripts that are drawn by number.

use crate::lines::{Line, is_call};
use crate::sources::{File, OFFSETS, SOURCES};
use pc_terms::NoMemory;
use std::alloc::Global;

/// How many calls a client leaves open at most before it waits.
const MOST_OPEN: usize = 4;

/// A client that draws its lines.
#[derive(Clone, Copy, Debug)]
struct Drawing {
    state: u64,
    calls: usize,
    /// The last call that it waited for, and the last that it cancelled.
    waited: usize,
    cancelled: usize,
}

impl Drawing {
    // A number below 65,536, by the generator of Knuth's MMIX.
    fn draw(&mut self) -> usize {
        self.state = self
            .state
            .wrapping_mul(6_364_136_223_846_793_005)
            .wrapping_add(1_442_695_040_888_963_407);
        (self.state >> 48) as usize
    }

    fn file(&mut self) -> File {
        match self.draw() % 4 {
            0 => File::A,
            1 => File::B,
            2 => File::C,
            _ => File::D,
        }
    }

    fn ask(&mut self) -> Line {
        let file = self.file();
        match self.draw() % 5 {
            0 => Line::Structure(file),
            offset => Line::Type(file, OFFSETS[offset - 1]),
        }
    }

    // Of the texts that are read more often than of the one that is not.
    fn reload(&mut self) -> Line {
        let drawn = self.draw() % (4 * SOURCES.len());
        Line::Reload(SOURCES[drawn % SOURCES.len()])
    }

    fn line(&mut self) -> Line {
        if self.calls.saturating_sub(self.waited) >= MOST_OPEN {
            return Line::Wait(self.calls);
        }
        match self.draw() % 16 {
            0 | 1 => self.reload(),
            2 => Line::Remove(self.file()),
            3 | 4 if self.cancelled < self.calls => Line::Cancel(self.calls),
            5 | 6 if self.calls > 0 => Line::Wait(self.calls),
            _ => self.ask(),
        }
    }

    // The next line, which the client has then drawn.
    fn next(&mut self) -> Line {
        let line = self.line();
        match line {
            Line::Wait(call) => self.waited = call,
            Line::Cancel(call) => self.cancelled = call,
            _ => self.calls = self.calls.saturating_add(usize::from(is_call(line))),
        }
        line
    }
}

/// So many lines of a client, of which this one shuts the session down.
pub fn drawn_lines(
    alloc: Global,
    seed: u64,
    count: usize,
    closing: Option<usize>,
) -> Result<Vec<Line>, NoMemory> {
    let mut drawing = Drawing {
        state: seed,
        calls: 0,
        waited: 0,
        cancelled: 0,
    };
    let mut lines = Vec::new(alloc);
    for index in 0..count {
        let line = if closing == Some(index) {
            Line::Close
        } else {
            drawing.next()
        };
        lines.push(line)?;
    }
    Ok(lines)
}
