//! The call that runs on one thread.

ghost use Rattle.std.specs.Prelude.{map, string_bytes};
ghost use Rattle.std.specs.Prelude.{◌≡◌};
ghost use Rattle.ask_history.specs.Engine.{fresh_state};
ghost use Rattle.report_hub.specs.Hub.{IsSameBox};
ghost use Rattle.session_run.specs.Owed.{IsRun, RunOwes};

use crate::Report;
use crate::reading::read_input;
use crate::session::{Kept, run_lines, unbegun};
use crate::telling::{status_of, tell};
use ask_history::Engine;
use pc_outside::{Files, Sink};
use report_hub::Reporter;
use std::alloc::Global;

// Does what the words ask for.
fn run_words<F: Files, O: Sink, N: Engine>(
    alloc: Global,
    words: &[String],
    files: &mut F,
    out: &mut O,
    engine: &mut N,
    reporter: Box<dyn Reporter + Send>,
) -> Kept
    requires fresh { N.state engine.old ≡ fresh_state }
    ensures run { IsRun N.answer_of N.problems_of (F.content files.old) (map string_bytes words.now)
        (record {
          read_faults = F.faults files.old;
          read_faults' = F.faults files.new;
          last_failed' = F.last_failed files.new;
          put_faults = O.faults out.old;
          put_faults' = O.faults out.new;
          out = O.written out.old;
          out' = O.written out.new;
          engine = N.state engine.old;
          engine' = N.state engine.new;
          reporter = record { told = told reporter; faults = (Reporter-box reporter).faults reporter.value };
          reporter' = record { told = told result.reporter; faults = (Reporter-box result.reporter).faults result.reporter.value };
        })
        result.ending result.journal.events }
    ensures given_back { IsSameBox reporter result.reporter }
{
    match read_input(alloc, words, files) {
        Ok(lines) => run_lines(alloc, engine, out, lines, reporter),
        Err(ending) => unbegun(alloc, ending, reporter),
    }
}

/// Runs the command of these words on one thread, with an engine to which nothing was fed. The reporter is told what checks
/// find, and is given back. It waits for nobody.
pub fn run_alone<F: Files, O: Sink, E: Sink, N: Engine>(
    alloc: Global,
    words: &[String],
    files: &mut F,
    out: &mut O,
    err: &mut E,
    engine: &mut N,
    reporter: Box<dyn Reporter + Send>,
) -> Report
    requires fresh { N.state engine.old ≡ fresh_state }
    ensures owed { RunOwes N.answer_of N.problems_of (F.content files.old) (map string_bytes words.now)
        (record {
          read_faults = F.faults files.old;
          read_faults' = F.faults files.new;
          last_failed' = F.last_failed files.new;
          put_faults = O.faults out.old;
          put_faults' = O.faults out.new;
          out = O.written out.old;
          out' = O.written out.new;
          engine = N.state engine.old;
          engine' = N.state engine.new;
          reporter = record { told = told reporter; faults = (Reporter-box reporter).faults reporter.value };
          reporter' = record { told = told result.reporter; faults = (Reporter-box result.reporter).faults result.reporter.value };
        })
        (record { err = E.written err.old; err' = E.written err.new; whole' = E.whole err.new })
        (record { status = result.status; ending = result.ending; journal = result.journal.events }) }
    ensures given_back { IsSameBox reporter result.reporter }
{
    let Kept {
        ending,
        journal,
        reporter,
    } = run_words(alloc, words, files, out, engine, reporter);
    let ending = tell(alloc, err, ending);
    Report {
        status: status_of(&ending),
        ending,
        journal,
        reporter,
    }
}
