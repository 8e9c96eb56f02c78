//! What two reporters are told of the checks of schedules, the same for every turn number.

use crate::journals::{PAUSE, TURNS};
use crate::lines::lines_of;
use crate::listeners::Listener;
use crate::stepper::Stepper;
use pc_terms::{NoMemory, Row};
use report_hub::Hub;
use schedule_player::play;
use std::alloc::Global;
use std::process::Abort;
use std::sync::Arc;
use std::sync::atomic::{AtomicU64, Ordering};
use std::test::Fail;

/// A schedule, and what is told of its checks: 1 and 3 for the file A, told to the first and to the second reporter,
/// and 2 and 4 for another file.
type Case = (&'static str, u64);

static CASES: [Case; 8] = [
    // Two checks, each told to both before the next.
    ("reload A a.txt C c.txt\nidle\nidle\n", 1324),
    // A reload in the second check: what that check had found is not told, and both files are checked again.
    (
        "reload A a.txt C c.txt\nidle\n  @1.0 reload A a2.txt\n",
        131_324,
    ),
    // The same in the first check: nothing was told before.
    (
        "reload A a.txt C c.txt\nidle\n  @0.0 reload A a2.txt\n",
        1324,
    ),
    // A reload under an ask in the second check.
    (
        "reload A a.txt C c.txt\nidle\n  @1.0 type A 19\n    @0 reload A a2.txt\n",
        131_324,
    ),
    // A removal of the file that is checked.
    ("reload A a.txt C c.txt\nidle\n  @0.0 remove A\n", 24),
    // A shutdown in the second check: that check is not told.
    ("reload A a.txt C c.txt\nidle\n  @1.0 close\n", 13),
    // An `idle` inside a check tells of both files, and nothing is left for the outer one.
    ("reload A a.txt C c.txt\nidle\n  @0.0 idle\n", 1324),
    // No check begins under an ask.
    ("reload A a.txt\ntype A 19\n  @0 idle\nidle\n", 13),
];

fn attach(alloc: Global, hub: &mut Hub, digit: u64, log: &Arc<AtomicU64>) -> Result<(), NoMemory> {
    let listener = Listener {
        digit,
        told: Row::new(alloc),
        faults: 0,
        alloc,
        log: log.clone()?,
    };
    match hub.attach(Box::new(alloc, listener)?) {
        Ok(_) => Ok(()),
        Err(_) => Err(NoMemory {}),
    }
}

fn told(alloc: Global, schedule: &str, turn: u32) -> Result<u64, NoMemory> {
    let lines = lines_of(alloc, schedule, turn)?;
    let log = Arc::new(alloc, AtomicU64::new(0))?;
    let mut hub = Hub::new(alloc)?;
    attach(alloc, &mut hub, 1, &log)?;
    attach(alloc, &mut hub, 3, &log)?;
    let mut engine = Stepper::new(alloc, PAUSE)?;
    let _ = play(alloc, &mut engine, &mut hub, lines);
    Ok(log.load(Ordering::SeqCst))
}

fn agree(rt: &(impl Abort + AllocGlobal), case: &Case, turn: u32) -> Result<(), Fail> {
    let told = told(rt.alloc(), case.0, turn)?;
    assert_eq!(rt; told, case.1, "turn {turn} of {}", case.0);
    Ok(())
}

#[test]
fn both_reporters_are_told_of_the_checks_that_stand(rt: HostRuntime) -> Result<(), Fail> {
    for case in &CASES {
        for turn in TURNS {
            agree(&rt, case, turn)?;
        }
    }
    Ok(())
}
