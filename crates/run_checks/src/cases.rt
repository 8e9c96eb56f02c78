//! What a run is made of, and what it must come to.

use crate::contents::{Content, content_of};
use crate::counting::CountingFiles;
use crate::reporters::Listener;
use compiler_loop::Core;
use pc_outside::MemorySink;
use pc_terms::{NoMemory, Row, Text};
use session_run::run_alone;
use std::alloc::Global;
use std::process::Abort;
use std::sync::Arc;
use std::sync::atomic::{AtomicU64, Ordering};
use std::test::Fail;

/// A run, and what it must come to.
#[derive(Clone, Copy)]
pub struct Case {
    pub name: &'static str,
    pub words: &'static [&'static str],
    pub files: &'static [(&'static str, Content)],
    /// The numbers of the reads that fail.
    pub failing: &'static [u64],
    pub out_fails: bool,
    pub err_fails: bool,
    pub status: u8,
    /// What is printed; not looked at where it is `ANYTHING`.
    pub out: &'static str,
    pub err: &'static str,
    /// A digit for each finding that the reporter was told.
    pub told: u64,
}

// What a run left.
#[derive(Drop)]
struct Left {
    status: u8,
    files: CountingFiles,
    out: MemorySink,
    err: MemorySink,
    told: u64,
}

pub const ANYTHING: &str = "anything";

/// A run that prints nothing, and tells the user nothing.
pub const DONE: Case = Case {
    name: "",
    words: &["step", "s"],
    files: &[],
    failing: &[],
    out_fails: false,
    err_fails: false,
    status: 0,
    out: "",
    err: "",
    told: 0,
};

/// A run that tells the user how it is called; what files it has is not looked at.
pub const USAGE: Case = Case {
    files: &[("s", Content::Text(LITERAL)), ("a.txt", Content::Text(A))],
    status: 2,
    err: "usage: batch NAME... or step SCHEDULE or replay CLIENT...\n",
    ..DONE
};

/// 22 bytes: `val x = 1` is 11-20, and `1` is 19-20.
pub const A: &str = "object A { val x = 1 }";

/// 24 bytes: `"s"` is 19-22.
pub const A2: &str = "object A { val x = \"s\" }";

pub const LITERAL: &str = "reload A.scala a.txt\ntype A.scala 19\n";

fn words_of(alloc: Global, words: &[&str]) -> Result<Vec<String>, NoMemory> {
    let mut owned = Vec::new(alloc);
    for word in words {
        owned.push(String::from_str(alloc, word)?)?;
    }
    Ok(owned)
}

fn files_of(alloc: Global, case: &Case) -> Result<CountingFiles, NoMemory> {
    let mut files = CountingFiles::new(alloc, case.failing.to_vec(alloc)?);
    for (name, content) in case.files {
        files.insert(name, content_of(alloc, *content)?)?;
    }
    Ok(files)
}

// A sink whose first put fails, or none.
fn sink(alloc: Global, fails: bool) -> Result<MemorySink, NoMemory> {
    let failing: &[u64] = if fails { &[1] } else { &[] };
    Ok(MemorySink::new(alloc, failing.to_vec(alloc)?))
}

// The status of a run, and what its reporter was told.
fn run_words(
    alloc: Global,
    words: &[String],
    files: &mut CountingFiles,
    out: &mut MemorySink,
    err: &mut MemorySink,
) -> Result<(u8, u64), NoMemory> {
    let log = Arc::new(alloc, AtomicU64::new(0))?;
    let reporter = Box::new(alloc, Listener::new(alloc, log.clone()?))?;
    let mut engine = Core::new(alloc)?;
    let report = run_alone(alloc, words, files, out, err, &mut engine, reporter);
    Ok((report.status, log.load(Ordering::SeqCst)))
}

fn run(alloc: Global, case: &Case) -> Result<Left, NoMemory> {
    let words = words_of(alloc, case.words)?;
    let mut files = files_of(alloc, case)?;
    let mut out = sink(alloc, case.out_fails)?;
    let mut err = sink(alloc, case.err_fails)?;
    let (status, told) = run_words(alloc, &words, &mut files, &mut out, &mut err)?;
    Ok(Left {
        status,
        files,
        out,
        err,
        told,
    })
}

/// The names of the files that a run reads, in order.
pub fn reads(alloc: Global, case: &Case) -> Result<Row<Text>, NoMemory> {
    let Left { files, .. } = run(alloc, case)?;
    Ok(files.into_reads())
}

fn agree_one(rt: &(impl Abort + AllocGlobal), case: &Case, left: &Left) {
    let name = case.name;
    assert_eq!(rt; left.status, case.status, "{name}");
    assert!(rt; !left.files.were_read_again(), "{name}");
    if case.out != ANYTHING {
        assert_eq!(rt; left.out.bytes(), case.out.as_bytes(), "{name}");
    }
    assert_eq!(rt; left.err.bytes(), case.err.as_bytes(), "{name}");
    assert_eq!(rt; left.told, case.told, "{name}");
}

/// Holds each run against what it must come to. No run reads a file twice.
pub fn agree(rt: &(impl Abort + AllocGlobal), cases: &[Case]) -> Result<(), Fail> {
    for case in cases {
        let left = run(rt.alloc(), case)?;
        agree_one(rt, case, &left);
    }
    Ok(())
}
