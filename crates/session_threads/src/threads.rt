//! The call that runs clients on threads.
ghost use Rattle.std.specs.Prelude.{◌≡◌, map, string_bytes};
ghost use Rattle.ask_history.specs.Engine.{fresh_state};
ghost use Rattle.report_hub.specs.Hub.{IsSameBox};
ghost use Rattle.session_run.specs.Printed.{Wrote};
ghost use Rattle.session_run.specs.Reading.{HasWriteFault};
ghost use Rattle.session_run.specs.Run.{IsSessionEnding};
ghost use Rattle.session_threads.specs.Owed.{IsClientsRun, ThreadsOwe};
ghost use Rattle.session_threads.specs.Written.{EndsAs, WroteAs};
ghost use Rattle.transcript.specs.Transcript.{session_text};

use crate::fate::Fate;
use crate::reading::read_clients;
use crate::session::{Session, play_session};
use ask_history::{Answer, Engine, Journal, Script};
use pc_outside::{Files, Gate, Sink, Spawner};
use pc_terms::{Problem, Row};
use report_hub::Reporter;
use session_run::{Ending, Kept, Report, status_of, tell, unbegun, write_printed};
use std::alloc::Global;
use std::sync::Wait;
use std::thread::Threads;
use transcript::print_session;

// Writes what is printed of a session that was played.
fn write_played<O: Sink>(
    alloc: Global,
    out: &mut O,
    scripts: &Row<Script>,
    journal: &Journal,
    answers: &Row<Row<Answer>>,
    found: &Row<Row<Problem>>,
) -> Ending
    ensures ends { IsSessionEnding result }
    ensures wrote { Wrote (session_text scripts.now journal.now.events answers.now found.now) result (O.written out.old) (O.written out.new) }
    ensures counts { HasWriteFault result (O.faults out.old) (O.faults out.new) }
{
    let printed = print_session(alloc, scripts, journal, answers, found);
    write_printed(out, printed)
}

// How a session ends, of which is written what is printed, where it was played to its end.
fn ending_of<O: Sink>(
    alloc: Global,
    out: &mut O,
    fate: &Fate,
    journal: &Journal,
    found: &Row<Row<Problem>>,
) -> Ending
    ensures ends { EndsAs fate.now result }
    ensures wrote { WroteAs fate.now journal.now.events found.now result (O.written out.old) (O.written out.new) }
    ensures counts { HasWriteFault result (O.faults out.old) (O.faults out.new) }
{
    match fate {
        Fate::Played { scripts, answers } => {
            write_played(alloc, out, scripts, journal, answers, found)
        }
        Fate::CutShort => Ending::NoMemory,
        Fate::Unbegun => Ending::SpawnFault,
        Fate::Unopened => Ending::NoMemory,
    }
}

// Writes what is printed of a session, where it was played to its end.
fn write_session<O: Sink>(alloc: Global, out: &mut O, session: Session) -> Kept
    ensures journal { result.journal ≡ session.journal }
    ensures reporter { result.reporter ≡ session.reporter }
    ensures ends { EndsAs session.fate result.ending }
    ensures wrote { WroteAs session.fate session.journal.events session.found result.ending (O.written out.old) (O.written out.new) }
    ensures counts { HasWriteFault result.ending (O.faults out.old) (O.faults out.new) }
{
    let Session {
        journal,
        fate,
        found,
        reporter,
    } = session;
    let ending = ending_of(alloc, out, &fate, &journal, &found);
    Kept {
        ending,
        journal,
        reporter,
    }
}

// Does what the words ask for.
fn run_words<
    R: Threads + Wait + Sync,
    F: Files,
    O: Sink,
    S: Spawner,
    G: Gate + Send,
    N: Engine + Send,
>(
    rt: &R,
    alloc: Global,
    words: &[String],
    files: &mut F,
    out: &mut O,
    engine: &mut N,
    spawner: &mut S,
    gate: &mut G,
    reporter: Box<dyn Reporter + Send>,
) -> Kept
    requires fresh { N.state engine.old ≡ fresh_state }
    ensures run { IsClientsRun N.answer_of N.problems_of (F.content files.old) (map string_bytes words.now)
        (record {
          read_faults = F.faults files.old;
          read_faults' = F.faults files.new;
          last_failed' = F.last_failed files.new;
          put_faults = O.faults out.old;
          put_faults' = O.faults out.new;
          spawn_faults = S.faults spawner.old;
          spawn_faults' = S.faults spawner.new;
          out = O.written out.old;
          out' = O.written out.new;
          reporter = record { told = told reporter; faults = (Reporter-box reporter).faults reporter.value };
          reporter' = record { told = told result.reporter; faults = (Reporter-box result.reporter).faults result.reporter.value };
        })
        result.ending result.journal.events }
    ensures given_back { IsSameBox reporter result.reporter }
{
    let scripts = match read_clients(alloc, words, files) {
        Ok(scripts) => scripts,
        Err(ending) => return unbegun(alloc, ending, reporter),
    };
    let session = play_session(rt, alloc, scripts, engine, spawner, gate, reporter);
    write_session(alloc, out, session)
}

/// Runs the clients of these words, each in a thread of its own where one can be made, beside an engine to which nothing was fed.
/// The gate is called at its safe points. The reporter is told what checks find, and is given back. What it promises it promises
/// where it returns: it waits for what clients do.
pub fn run_threads<
    R: Threads + Wait + Sync,
    F: Files,
    O: Sink,
    E: Sink,
    S: Spawner,
    G: Gate + Send,
    N: Engine + Send,
>(
    rt: &R,
    alloc: Global,
    words: &[String],
    files: &mut F,
    out: &mut O,
    err: &mut E,
    engine: &mut N,
    spawner: &mut S,
    gate: &mut G,
    reporter: Box<dyn Reporter + Send>,
) -> Report
    requires fresh { N.state engine.old ≡ fresh_state }
    ensures owed { ThreadsOwe N.answer_of N.problems_of (F.content files.old) (map string_bytes words.now)
        (record {
          read_faults = F.faults files.old;
          read_faults' = F.faults files.new;
          last_failed' = F.last_failed files.new;
          put_faults = O.faults out.old;
          put_faults' = O.faults out.new;
          spawn_faults = S.faults spawner.old;
          spawn_faults' = S.faults spawner.new;
          out = O.written out.old;
          out' = O.written out.new;
          reporter = record { told = told reporter; faults = (Reporter-box reporter).faults reporter.value };
          reporter' = record { told = told result.reporter; faults = (Reporter-box result.reporter).faults result.reporter.value };
        })
        (record { err = E.written err.old; err' = E.written err.new; whole' = E.whole err.new })
        (record { status = result.status; ending = result.ending; journal = result.journal.events }) }
    ensures given_back { IsSameBox reporter result.reporter }
{
    let Kept {
        ending,
        journal,
        reporter,
    } = run_words(
        rt, alloc, words, files, out, engine, spawner, gate, reporter,
    );
    let ending = tell(alloc, err, ending);
    Report {
        status: status_of(&ending),
        ending,
        journal,
        reporter,
    }
}
