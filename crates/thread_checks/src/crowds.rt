//! Runs of 32 clients with scripts of 200 lines each.

use crate::drawn::drawn_lines;
use crate::lines::Line;
use crate::runs::{NONE, agree};
use pc_terms::NoMemory;
use std::alloc::Global;
use std::process::Abort;
use std::sync::Wait;
use std::test::Fail;
use std::thread::Threads;

const CLIENTS: u64 = 32;

const LINES: usize = 200;

/// At which line the last client of a run shuts the session down, where it does.
const CLOSING: usize = 150;

// The scripts of a run. In one run of three its last client shuts the session down before its last lines.
fn scripts_of(alloc: Global, run: u64) -> Result<Vec<Vec<Line>>, NoMemory> {
    let mut scripts = Vec::new(alloc);
    for client in 0..CLIENTS {
        let seed = run.wrapping_mul(CLIENTS).wrapping_add(client);
        let closes = run % 3 == 2 && client == CLIENTS - 1;
        let closing = if closes { Some(CLOSING) } else { None };
        scripts.push(drawn_lines(alloc, seed, LINES, closing)?)?;
    }
    Ok(scripts)
}

fn ten_runs<R: Abort + AllocGlobal + Threads + Wait + Sync>(
    rt: &R,
    first: u64,
) -> Result<(), Fail> {
    for run in 0..10 {
        let scripts = scripts_of(rt.alloc(), first.wrapping_add(run))?;
        let _left = agree(rt, &scripts, &NONE)?;
    }
    Ok(())
}

#[test]
fn runs_from_0(rt: HostRuntime) -> Result<(), Fail> {
    ten_runs(&rt, 0)
}

#[test]
fn runs_from_10(rt: HostRuntime) -> Result<(), Fail> {
    ten_runs(&rt, 10)
}

#[test]
fn runs_from_20(rt: HostRuntime) -> Result<(), Fail> {
    ten_runs(&rt, 20)
}

#[test]
fn runs_from_30(rt: HostRuntime) -> Result<(), Fail> {
    ten_runs(&rt, 30)
}

#[test]
fn runs_from_40(rt: HostRuntime) -> Result<(), Fail> {
    ten_runs(&rt, 40)
}

#[test]
fn runs_from_50(rt: HostRuntime) -> Result<(), Fail> {
    ten_runs(&rt, 50)
}

#[test]
fn runs_from_60(rt: HostRuntime) -> Result<(), Fail> {
    ten_runs(&rt, 60)
}

#[test]
fn runs_from_70(rt: HostRuntime) -> Result<(), Fail> {
    ten_runs(&rt, 70)
}

#[test]
fn runs_from_80(rt: HostRuntime) -> Result<(), Fail> {
    ten_runs(&rt, 80)
}

#[test]
fn runs_from_90(rt: HostRuntime) -> Result<(), Fail> {
    ten_runs(&rt, 90)
}
