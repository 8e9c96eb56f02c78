//! Runs whose engine types some trees before its first answer, and is held at its first safe point.

use crate::judge::judge;
use crate::judging::rows;
use crate::lines::Line;
use crate::paced::Paced;
use crate::runs::{Ended, NONE, clients_of, files_of, run_engine};
use crate::sources::{File, Source};
use crate::steps::steps_of;
use compiler_loop::Core;
use pc_outside::{HoldingGate, MemorySink};
use pc_terms::NoMemory;
use std::alloc::Global;
use std::sync::{Barrier, Wait};
use std::test::Fail;
use std::thread::{Threads, join};

fn play_held<R: Threads + Wait + Sync>(
    rt: &R,
    alloc: Global,
    scripts: &[Vec<Line>],
    meetings: &Barrier,
    out: &mut MemorySink,
) -> Result<Ended, NoMemory> {
    let mut files = files_of(alloc, &NONE)?;
    let words = clients_of(alloc, &mut files, scripts)?;
    let mut err = MemorySink::new(alloc, Vec::new(alloc));
    let mut gate = HoldingGate::new(meetings);
    let mut engine = Paced {
        core: Core::new(alloc)?,
        trees: 2,
    };
    run_engine(
        rt,
        alloc,
        &words,
        &mut files,
        out,
        &mut err,
        &mut engine,
        &mut gate,
        &NONE,
    )
}

// Holds the engine from one meeting to the next.
fn hold<R: Wait>(rt: &R, meetings: &Barrier) {
    meetings.wait(rt);
    meetings.wait(rt);
}

fn play_beside<R: Threads + Wait + Sync>(
    rt: &R,
    alloc: Global,
    scripts: &[Vec<Line>],
    out: &mut MemorySink,
) -> Result<Ended, NoMemory> {
    let meetings = Barrier::new(2);
    let ((), ended) = join(
        rt,
        || hold(rt, &meetings),
        || play_held(rt, alloc, scripts, &meetings, out),
    );
    ended
}

// The engine has no memory for the removal, which so takes no effect.
const SCRIPTS: &[&[Line]] = &[
    &[
        Line::Reload(Source::Numbers),
        Line::Structure(File::B),
        Line::Type(File::B, 30),
        Line::Wait(3),
        Line::Remove(File::B),
        Line::Wait(4),
        Line::Type(File::B, 15),
    ],
    &[Line::Type(File::D, 0), Line::Type(File::D, 15)],
];

const END: &str = "client\t0\n\
    1\tdone\n\
    2\tunread\n\
    3\ttree\tIdent\t30-31\tInt\tval B.a\n\
    4\tnomemory\n\
    5\ttree\tValDef\t11-20\tInt\tval B.a\n\
    client\t1\n\
    1\tnounit\n\
    2\tnounit\n\
    end\n";

#[test]
fn an_engine_that_is_held_serves_all_calls_in_the_end(rt: HostRuntime) -> Result<(), Fail> {
    let alloc = rt.alloc();
    let scripts = rows(alloc, SCRIPTS)?;
    let mut out = MemorySink::new(alloc, Vec::new(alloc));
    let ended = play_beside(&rt, alloc, &scripts, &mut out)?;
    let steps = steps_of(alloc, &ended.journal)?;
    let mut text = String::new(alloc);
    let stray = judge(alloc, &scripts, &steps, &mut text)?;
    assert_eq!(&rt; ended.status, 0);
    assert_eq!(&rt; stray, None);
    assert_eq!(&rt; out.bytes(), text.as_bytes());
    assert!(&rt; out.bytes().ends_with(END.as_bytes()));
    Ok(())
}
