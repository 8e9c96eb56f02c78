//! Runs of clients over the forms in memory.
ghost use Rattle.std.specs.Prelude.{◌≡◌};
ghost use Rattle.ask_history.specs.Engine.{fresh_state};

use crate::judge::judge;
use crate::lines::{Line, script_text};
use crate::listener::{Listener, log_of};
use crate::sources::{SOURCES, facts_of};
use crate::steps::{Step, steps_of};
use ask_history::{Engine, Journal};
use compiler_loop::Core;
use pc_outside::{Files, Gate, MemoryFiles, MemorySink, MemorySpawner, OpenGate, Sink};
use pc_terms::NoMemory;
use session_run::Report;
use session_threads::run_threads;
use std::alloc::Global;
use std::process::Abort;
use std::sync::atomic::{AtomicU64, Ordering};
use std::sync::{Arc, Wait};
use std::test::Fail;
use std::thread::Threads;

/// The numbers of the calls on the forms in memory that are to fail. The first call on each has the number 1.
#[derive(Clone, Copy)]
pub struct Failing {
    pub reads: &'static [u64],
    pub puts: &'static [u64],
    pub threads: &'static [u64],
    pub reports: &'static [u64],
}

pub const NONE: Failing = Failing {
    reads: &[],
    puts: &[],
    threads: &[],
    reports: &[],
};

/// How a run ended: its status, its journal, and the log of its reporter.
#[derive(Drop)]
pub struct Ended {
    pub status: u8,
    pub journal: Journal,
    pub log: u64,
}

/// What a run left: how it ended, the order of its journal's events, and what is on its sinks.
#[derive(Drop)]
pub struct Left {
    pub status: u8,
    pub steps: Vec<Step>,
    pub out: MemorySink,
    pub err: MemorySink,
    pub log: u64,
}

/// A run of these words with an engine to which nothing was fed.
pub fn run_engine<R: Threads + Wait + Sync, F: Files, O: Sink, G: Gate + Send, N: Engine + Send>(
    rt: &R,
    alloc: Global,
    words: &[String],
    files: &mut F,
    out: &mut O,
    err: &mut MemorySink,
    engine: &mut N,
    gate: &mut G,
    failing: &Failing,
) -> Result<Ended, NoMemory>
    requires fresh { N.state engine.old ≡ fresh_state }
{
    let log = Arc::new(alloc, AtomicU64::new(0))?;
    let listener = Listener::new(alloc, failing.reports.to_vec(alloc)?, log.clone()?);
    let reporter = Box::new(alloc, listener)?;
    let mut spawner = MemorySpawner::new(failing.threads.to_vec(alloc)?);
    let report = run_threads(
        rt,
        alloc,
        words,
        files,
        out,
        err,
        engine,
        &mut spawner,
        gate,
        reporter,
    );
    let Report {
        status,
        ending: _,
        journal,
        reporter: _,
    } = report;
    Ok(Ended {
        status,
        journal,
        log: log.load(Ordering::SeqCst),
    })
}

/// A run of these words with the program's engine and gate.
pub fn run_words<R: Threads + Wait + Sync, F: Files, O: Sink>(
    rt: &R,
    alloc: Global,
    words: &[String],
    files: &mut F,
    out: &mut O,
    err: &mut MemorySink,
    failing: &Failing,
) -> Result<Ended, NoMemory> {
    let mut gate = OpenGate {};
    let mut engine = Core::new(alloc)?;
    run_engine(
        rt,
        alloc,
        words,
        files,
        out,
        err,
        &mut engine,
        &mut gate,
        failing,
    )
}

/// A run of these words over these files.
pub fn run<R: Threads + Wait + Sync>(
    rt: &R,
    alloc: Global,
    words: &[String],
    files: &mut MemoryFiles,
    failing: &Failing,
) -> Result<Left, NoMemory> {
    let mut out = MemorySink::new(alloc, failing.puts.to_vec(alloc)?);
    let mut err = MemorySink::new(alloc, Vec::new(alloc));
    let ended = run_words(rt, alloc, words, files, &mut out, &mut err, failing)?;
    Ok(Left {
        status: ended.status,
        steps: steps_of(alloc, &ended.journal)?,
        out,
        err,
        log: ended.log,
    })
}

/// These words, each owned.
pub fn words_of(alloc: Global, words: &[&str]) -> Result<Vec<String>, NoMemory> {
    let mut owned = Vec::new(alloc);
    for word in words {
        owned.push(String::from_str(alloc, word)?)?;
    }
    Ok(owned)
}

fn insert(alloc: Global, files: &mut MemoryFiles, name: &str, text: &str) -> Result<(), NoMemory> {
    files.insert(name, Vec::from_slice(alloc, text.as_bytes())?)
}

/// All texts at their paths. The reads of these numbers fail.
pub fn files_of(alloc: Global, failing: &Failing) -> Result<MemoryFiles, NoMemory> {
    let mut files = MemoryFiles::new(alloc, failing.reads.to_vec(alloc)?);
    for source in SOURCES {
        let facts = facts_of(source);
        insert(alloc, &mut files, facts.path, facts.text)?;
    }
    Ok(files)
}

/// The words of a run of these scripts, each of which gets a file of its own.
pub fn clients_of(
    alloc: Global,
    files: &mut MemoryFiles,
    scripts: &[Vec<Line>],
) -> Result<Vec<String>, NoMemory> {
    let mut words = Vec::new(alloc);
    words.push(String::from_str(alloc, "replay")?)?;
    for (client, lines) in scripts.iter().enumerate() {
        let word = format!(in alloc; "c{client}")?;
        insert(
            alloc,
            files,
            word.as_str(),
            script_text(alloc, lines)?.as_str(),
        )?;
        words.push(word)?;
    }
    Ok(words)
}

/// A run of clients with these scripts.
pub fn play<R: Threads + Wait + Sync>(
    rt: &R,
    alloc: Global,
    scripts: &[Vec<Line>],
    failing: &Failing,
) -> Result<Left, NoMemory> {
    let mut files = files_of(alloc, failing)?;
    let words = clients_of(alloc, &mut files, scripts)?;
    run(rt, alloc, &words, &mut files, failing)
}

/// Holds a run of clients with these scripts against what it must come to: its journal may be one of theirs, and is printed, with
/// the answers that follow from it.
pub fn agree<R: Abort + AllocGlobal + Threads + Wait + Sync>(
    rt: &R,
    scripts: &[Vec<Line>],
    failing: &Failing,
) -> Result<Left, Fail> {
    let left = play(rt, rt.alloc(), scripts, failing)?;
    let mut text = String::new(rt.alloc());
    let stray = judge(rt.alloc(), scripts, &left.steps, &mut text)?;
    assert_eq!(rt; left.status, 0);
    assert_eq!(rt; stray, None, "{}", text.as_str());
    assert_eq!(rt; left.out.bytes(), text.as_bytes());
    assert!(rt; left.err.bytes().is_empty());
    assert_eq!(rt; left.log, log_of(&left.steps, failing.reports));
    Ok(left)
}
