//! Plays a session, and writes what is printed of it.

ghost use Rattle.std.specs.Prelude.{◌≡◌, ℕ, List, [], IfOk};
ghost use Rattle.ask_history.specs.Engine.{fresh_state};
ghost use Rattle.report_hub.specs.Hub.{IsSameBox};
ghost use Rattle.schedule_player.specs.Owed.{CanPlayAll};
ghost use Rattle.session_run.specs.Printed.{session_of, Wrote};
ghost use Rattle.session_run.specs.Reading.{HasWriteFault};
ghost use Rattle.session_run.specs.Run.{EndsSession, IsSessionEnding};
ghost use Rattle.session_run.specs.Session.{SessionOwes};

use crate::Ending;
use crate::reported::play_reported;
use crate::shown::{print_played, shown_lines};
use ask_history::{Engine, Journal, Line};
use pc_outside::{PutRefused, Sink};
use pc_terms::{NoMemory, Row, Text};
use report_hub::Reporter;
use schedule_player::Played;
use std::alloc::Global;

/// How a run ended, the journal that it kept, and the reporter.
#[derive(Drop)]
pub struct Kept {
    pub ending: Ending,
    pub journal: Journal,
    pub reporter: Box<dyn Reporter + Send>,
}

/// Writes what is printed of a session, where there was memory for it.
pub fn write_printed<O: Sink>(out: &mut O, printed: Result<Text, NoMemory>) -> Ending
    ensures ends { IsSessionEnding result }
    ensures wrote { (text : List ℕ) → IfOk printed (λ given. given ≡ text) → Wrote text result (O.written out.old) (O.written out.new) }
    ensures counts { HasWriteFault result (O.faults out.old) (O.faults out.new) }
{
    match printed {
        Err(NoMemory {}) => Ending::NoMemory,
        Ok(text) => match out.put(text.as_str().as_bytes()) {
            Ok(()) => Ending::Done,
            Err(PutRefused::Failed) => Ending::WriteFault,
            Err(PutRefused::NoMemory) => Ending::NoMemory,
        },
    }
}

// Writes what is printed of a session of these lines, where they were all played.
fn write_session<O: Sink>(
    alloc: Global,
    out: &mut O,
    lines: Row<Line>,
    played: Played,
) -> (Ending, Journal)
    ensures journal { result.1 ≡ played.journal }
    ensures ends { EndsSession played.whole result.0 }
    ensures wrote { Wrote (session_of lines played.journal.events played.answers played.problems) result.0 (O.written out.old) (O.written out.new) }
    ensures counts { HasWriteFault result.0 (O.faults out.old) (O.faults out.new) }
{
    let Played {
        journal,
        answers,
        problems,
        whole,
    } = played;
    if !whole {
        return (Ending::NoMemory, journal);
    }
    let printed = print_played(alloc, lines, &journal, answers, &problems);
    let ending = write_printed(out, printed);
    (ending, journal)
}

/// A run that comes to no session.
pub fn unbegun(alloc: Global, ending: Ending, reporter: Box<dyn Reporter + Send>) -> Kept
    ensures ending { result.ending ≡ ending }
    ensures journal { result.journal.events ≡ [] }
    ensures reporter { result.reporter ≡ reporter }
{
    Kept {
        ending,
        journal: Journal {
            events: Row::new(alloc),
        },
        reporter,
    }
}

/// Plays the lines of a schedule, with the reporter attached, and writes what is printed of the session.
pub fn run_lines<O: Sink, N: Engine>(
    alloc: Global,
    engine: &mut N,
    out: &mut O,
    lines: Row<Line>,
    reporter: Box<dyn Reporter + Send>,
) -> Kept
    requires fresh { N.state engine.old ≡ fresh_state }
    requires can { CanPlayAll lines }
    ensures owed { SessionOwes N.answer_of N.problems_of lines
        (record {
          put_faults = O.faults out.old;
          put_faults' = O.faults out.new;
          out = O.written out.old;
          out' = O.written out.new;
          engine' = N.state engine.new;
          reporter = record { told = told reporter; faults = (Reporter-box reporter).faults reporter.value };
          reporter' = record { told = told result.reporter; faults = (Reporter-box result.reporter).faults result.reporter.value };
        })
        result.ending result.journal.events }
    ensures given_back { IsSameBox reporter result.reporter }
{
    let shown = match shown_lines(alloc, lines.as_slice()) {
        Ok(shown) => shown,
        Err(NoMemory {}) => return unbegun(alloc, Ending::NoMemory, reporter),
    };
    let (played, reporter) = play_reported(alloc, engine, lines, reporter);
    let (ending, journal) = write_session(alloc, out, shown, played);
    Kept {
        ending,
        journal,
        reporter,
    }
}
