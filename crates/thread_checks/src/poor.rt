//! Runs whose files or whose output find no memory.

use crate::contents::{Content, add};
use crate::judge::judge;
use crate::judging::rows;
use crate::lines::Line;
use crate::runs::{Ended, NONE, files_of, run_words, words_of};
use crate::sources::Source;
use crate::steps::steps_of;
use pc_outside::{Files, MemoryFiles, MemorySink, PutRefused, ReadRefused, Sink};
use pc_terms::NoMemory;
use std::alloc::Global;
use std::sync::Wait;
use std::test::Fail;
use std::thread::Threads;

/// Files of which so many reads find memory.
#[derive(Drop)]
struct PoorFiles {
    files: MemoryFiles,
    reads: u64,
}

impl Files for PoorFiles {
    ghost use Rattle.pc_outside.specs.MemoryFiles.{content_of, faults_of, last_failed_of};

    ghost faults = { λ it. faults_of it.files };

    ghost content = { λ it. content_of it.files };

    ghost last_failed = { λ it. last_failed_of it.files };

    fn read(&mut self, alloc: Global, name: &str, most: usize) -> Result<Vec<u8>, ReadRefused> {
        if self.reads == 0 {
            return Err(ReadRefused::NoMemory);
        }
        self.reads -= 1;
        self.files.read(alloc, name, most)
    }
}

/// A sink that never finds memory.
#[derive(Drop)]
struct PoorSink {
    whole: bool,
}

impl Sink for PoorSink {
    ghost use Rattle.std.specs.Prelude.{Some, []};

    ghost faults = { λ it. 0 };

    ghost written = { λ it. Some [] };

    ghost whole = { λ it. it.whole };

    fn put(&mut self, _bytes: &[u8]) -> Result<(), PutRefused> {
        self.whole = false;
        Err(PutRefused::NoMemory)
    }
}

const SCRIPT: &str = "reload A.scala number.txt\nreload B.scala longer.txt\n";

const LINES: &[&[Line]] = &[&[Line::Reload(Source::Number), Line::Reload(Source::Longer)]];

fn run_over<R: Threads + Wait + Sync, O: Sink>(
    rt: &R,
    alloc: Global,
    reads: u64,
    out: &mut O,
    err: &mut MemorySink,
) -> Result<Ended, NoMemory> {
    let words = words_of(alloc, &["replay", "s"])?;
    let mut files = files_of(alloc, &NONE)?;
    add(alloc, &mut files, &[("s", Content::Text(SCRIPT))])?;
    let mut files = PoorFiles { files, reads };
    run_words(rt, alloc, &words, &mut files, out, err, &NONE)
}

fn empty_sink(alloc: Global) -> MemorySink {
    MemorySink::new(alloc, Vec::new(alloc))
}

// The script and the two sources are read in this order.
#[test]
fn a_read_without_memory_ends_the_run(rt: HostRuntime) -> Result<(), Fail> {
    for reads in 0..4 {
        let mut out = empty_sink(rt.alloc());
        let mut err = empty_sink(rt.alloc());
        let ended = run_over(&rt, rt.alloc(), reads, &mut out, &mut err)?;
        let is_enough = reads == 3;
        assert_eq!(&rt;
            ended.status,
            if is_enough { 0 } else { 7 },
            "{reads} reads"
        );
        assert_eq!(&rt;
            err.bytes(),
            if is_enough {
                b"".as_slice()
            } else {
                b"no memory\n".as_slice()
            }
        );
        assert_eq!(&rt; ended.journal.events.is_empty(), !is_enough);
        assert_eq!(&rt; out.bytes().is_empty(), !is_enough);
    }
    Ok(())
}

// The session was played to its end all the same.
#[test]
fn a_put_without_memory_ends_the_run(rt: HostRuntime) -> Result<(), Fail> {
    let alloc = rt.alloc();
    let mut err = empty_sink(alloc);
    let ended = run_over(&rt, alloc, 3, &mut PoorSink { whole: true }, &mut err)?;
    let steps = steps_of(alloc, &ended.journal)?;
    let scripts = rows(alloc, LINES)?;
    let mut text = String::new(alloc);
    assert_eq!(&rt; ended.status, 7);
    assert_eq!(&rt; err.bytes(), b"no memory\n".as_slice());
    assert_eq!(&rt; judge(alloc, &scripts, &steps, &mut text)?, None);
    Ok(())
}
