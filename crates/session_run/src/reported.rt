//! Plays lines with a reporter attached.

ghost use Rattle.std.specs.Prelude.{◌≡◌, [], false};
ghost use Rattle.ask_history.specs.Engine.{fresh_state};
ghost use Rattle.ask_history.specs.Journal.{findings};
ghost use Rattle.report_hub.specs.Hub.{IsToldMost};
ghost use Rattle.schedule_player.specs.Owed.{CanPlayAll, PlayOwes};

use ask_history::{Engine, Journal, Line};
use pc_terms::{NoMemory, Row};
use report_hub::{Hub, Reporter};
use schedule_player::{Played, play};
use std::alloc::Global;

// Nothing was played.
fn nothing(alloc: Global) -> Played
    ensures { result ≡ record { journal = record { events = [] }; answers = []; problems = []; whole = false } }
{
    Played {
        journal: Journal {
            events: Row::new(alloc),
        },
        answers: Row::new(alloc),
        problems: Row::new(alloc),
        whole: false,
    }
}

/// Plays the lines of a schedule, with the reporter attached, and gives it back.
pub fn play_reported<N: Engine>(
    alloc: Global,
    engine: &mut N,
    lines: Row<Line>,
    reporter: Box<dyn Reporter + Send>,
) -> (Played, Box<dyn Reporter + Send>)
    requires fresh { N.state engine.old ≡ fresh_state }
    requires can { CanPlayAll lines }
    ensures owed { PlayOwes N.answer_of N.problems_of lines result.0 (N.state engine.new) }
    ensures told { IsToldMost told faults (findings N.problems_of result.0.journal.events) reporter result.1 }
{
    let mut hub = match Hub::new(alloc) {
        Ok(hub) => hub,
        Err(NoMemory {}) => return (nothing(alloc), reporter),
    };
    let number = match hub.attach(reporter) {
        Ok(number) => number,
        Err(reporter) => return (nothing(alloc), reporter),
    };
    let played = play(alloc, engine, &mut hub, lines);
    match hub.detach(number) {
        Some(reporter) => (played, reporter),
        None => unreachable!(),
    }
}
