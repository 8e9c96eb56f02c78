//! The journals, answers and problems of schedules, the same for every turn number.

use crate::lines::lines_of;
use crate::shown::shown;
use crate::stepper::Stepper;
use pc_terms::NoMemory;
use report_hub::Hub;
use schedule_player::{Played, play};
use std::alloc::Global;
use std::process::Abort;
use std::test::Fail;

/// A schedule, and what comes of it.
type Case = (&'static str, &'static str);

pub const TURNS: [u32; 5] = [0, 1, 2, 9, 4_294_967_295];

pub const PAUSE: u64 = 3;

static ASKS: [Case; 8] = [
    // An ask after a reload.
    (
        "reload A a.txt\ntype A 19\n",
        "journal +0 =0 +1 =1\ndone\nLiteral 19-20 Int -",
    ),
    // An inner ask is settled first, over a text that is not read yet.
    (
        "reload B b.txt\ntype B 19\n  @0 type B 26\n",
        "journal +0 =0 +1 +2 =2 =1\ndone\nunread\nunread",
    ),
    // The same over a text that is read.
    (
        "reload C c.txt\ntype C 31\n  @0 type C 11\n",
        "journal +0 =0 +1 +2 =2 =1\ndone\nIdent 30-31 Int val B.b\nValDef 11-20 Int val B.b",
    ),
    // The ask answers what an inner reload made of the file, over a text that is not read yet.
    (
        "reload B b.txt\ntype B 19\n  @0 reload B b2.txt\n",
        "journal +0 =0 +1 +2 =2 =1\ndone\nunread\ndone",
    ),
    // The same over a text that is read.
    (
        "reload C c.txt\ntype C 31\n  @0 reload C c2.txt\n",
        "journal +0 =0 +1 +2 =2 =1\ndone\nIdent 31-32 String val B.b\ndone",
    ),
    // A removal and then a reload inside an ask.
    (
        "reload A a.txt\ntype A 19\n  @0 remove A\n  @0 reload A a2.txt\n",
        "journal +0 =0 +1 +2 =2 +3 =3 =1\ndone\nLiteral 19-22 String -\ndone\ndone",
    ),
    // Files that are not loaded, and a removal inside an ask.
    (
        "type A 1\nreload A a.txt\ntype A 1\n  @0 remove A\ntype A 1\n",
        "journal +0 =0 +1 =1 +2 +3 =3 =2 +4 =4\nnounit\ndone\nnounit\ndone\nnounit",
    ),
    // Every kind of ask inside an ask.
    (
        "reload A a.txt\n\
            type A 19\n\
            \x20 @0 members A 19\n\
            \x20 @0 scope A 19\n\
            \x20 @0 link A 19\n\
            \x20 @0 structure A\n\
            \x20 @0 typed A\n",
        "journal +0 =0 +1 +2 =2 +3 =3 +4 =4 +5 =5 +6 =6 =1\n\
            done\n\
            Literal 19-20 Int -\n\
            unread\n\
            unread\n\
            unread\n\
            unread\n\
            unread",
    ),
];

static CALLED_OFF: [Case; 5] = [
    // A cancel while the ask is open.
    (
        "reload A a.txt\ntype A 19\n  @9 cancel 2\n",
        "journal +0 =0 +1 -1 =1\ndone\ncancelled",
    ),
    // A cancel after the ask.
    (
        "reload A a.txt\ntype A 19\ncancel 2\n",
        "journal +0 =0 +1 =1\ndone\nLiteral 19-20 Int -",
    ),
    // The outer ask is cancelled from two asks deep.
    (
        "reload A a.txt\ntype A 19\n  @0 type A 15\n    @0 cancel 2\n  @0 type A 20\n",
        "journal +0 =0 +1 +2 -1 =2 +3 =3 =1\n\
            done\n\
            cancelled\n\
            ValDef 11-20 Int val A.x\n\
            Literal 19-20 Int -",
    ),
    // A shutdown three asks deep settles them all, and what follows is refused.
    (
        "reload A a.txt\ntype A 19\n  @0 type A 15\n    @0 type A 20\n      @0 close\ntype A 19\n",
        "journal +0 =0 +1 +2 +3 # =1 =2 =3\ndone\nclosed\nclosed\nclosed",
    ),
    // Lines under a refused call are played in its place.
    (
        "reload A a.txt\nclose\ntype A 19\n  @0 type A 15\n  @0 idle\nidle\n",
        "journal +0 =0 #\ndone",
    ),
];

static CHECKS: [Case; 13] = [
    // One check, and none the second time.
    (
        "reload A a.txt\nidle\nidle\n",
        "journal +0 =0 ?A\ndone\nproblems 0",
    ),
    // Files are checked in load order.
    (
        "reload A a.txt C c.txt\nidle\n",
        "journal +0 =0 ?A ?C\ndone\nproblems 0 0",
    ),
    // A reload in the second check: the first file is checked again.
    (
        "reload A a.txt C c.txt\nidle\n  @1.0 reload A a2.txt\n",
        "journal +0 =0 ?A +1 =1 ?A ?C\ndone\ndone\nproblems 0 0 0",
    ),
    // The same where a text is not read yet: each check finds one problem.
    (
        "reload A a.txt B b.txt\nidle\n  @1.0 reload A a2.txt\n",
        "journal +0 =0 ?A +1 =1 ?A ?B\ndone\ndone\nproblems 1 1 1",
    ),
    // An ask in the second check.
    (
        "reload A a.txt C c.txt\nidle\n  @1.0 type A 19\n",
        "journal +0 =0 ?A +1 =1 ?C\ndone\nLiteral 19-20 Int -\nproblems 0 0",
    ),
    // Every other kind of ask in a check.
    (
        "reload A a.txt C c.txt\n\
            idle\n\
            \x20 @0.0 members A 19\n\
            \x20 @0.0 scope A 19\n\
            \x20 @0.0 link A 19\n\
            \x20 @0.0 structure A\n\
            \x20 @1.0 typed A\n",
        "journal +0 =0 +1 =1 +2 =2 +3 =3 +4 =4 ?A +5 =5 ?C\n\
            done\n\
            unread\n\
            unread\n\
            unread\n\
            unread\n\
            unread\n\
            problems 0 0",
    ),
    // A reload in the first check, after which all are read.
    (
        "reload A b.txt C c.txt\nidle\n  @0.0 reload A a.txt\n",
        "journal +0 =0 +1 =1 ?A ?C\ndone\ndone\nproblems 0 0",
    ),
    // A removal of what is checked.
    (
        "reload A a.txt C c.txt\nidle\n  @0.0 remove A\n",
        "journal +0 =0 +1 =1 ?C\ndone\ndone\nproblems 0",
    ),
    // Lines of checks that do not take place come last.
    (
        "reload A a.txt\nidle\n  @2.0 type A 19\n  @7.0 reload A a2.txt\nidle\n",
        "journal +0 =0 ?A +1 =1 +2 =2 ?A\ndone\nLiteral 19-20 Int -\ndone\nproblems 0 0",
    ),
    // A cancel in a check, which comes late.
    (
        "reload A a.txt\nidle\n  @0.0 cancel 1\n",
        "journal +0 =0 ?A\ndone\nproblems 0",
    ),
    // A shutdown in a check.
    (
        "reload A a.txt C c.txt\nidle\n  @1.0 close\n  @1.0 type A 19\n",
        "journal +0 =0 ?A #\ndone\nproblems 0",
    ),
    // An idle inside a check checks all, and the outer one has nothing left.
    (
        "reload A a.txt C c.txt\nidle\n  @0.0 idle\n    @1.0 type A 19\n",
        "journal +0 =0 ?A +1 =1 ?C\ndone\nLiteral 19-20 Int -\nproblems 0 0",
    ),
    // No check begins while an ask is open.
    (
        "reload A a.txt\ntype A 19\n  @0 idle\n    @0.0 type A 15\nidle\n",
        "journal +0 =0 +1 +2 =2 =1 ?A\n\
            done\n\
            Literal 19-20 Int -\n\
            ValDef 11-20 Int val A.x\n\
            problems 0",
    ),
];

fn played(alloc: Global, schedule: &str, turn: u32) -> Result<Played, NoMemory> {
    let lines = lines_of(alloc, schedule, turn)?;
    let mut hub = Hub::new(alloc)?;
    let mut engine = Stepper::new(alloc, PAUSE)?;
    Ok(play(alloc, &mut engine, &mut hub, lines))
}

fn agree(rt: &(impl Abort + AllocGlobal), case: &Case, turn: u32) -> Result<(), Fail> {
    let alloc = rt.alloc();
    let shown = shown(alloc, played(alloc, case.0, turn)?)?;
    assert_eq!(rt; shown.as_str(), case.1, "turn {turn} of {}", case.0);
    Ok(())
}

fn agree_all(rt: &(impl Abort + AllocGlobal), cases: &[Case]) -> Result<(), Fail> {
    for case in cases {
        for turn in TURNS {
            agree(rt, case, turn)?;
        }
    }
    Ok(())
}

#[test]
fn asks_keep_their_journal(rt: HostRuntime) -> Result<(), Fail> {
    agree_all(&rt, &ASKS)
}

#[test]
fn cancels_and_shutdowns_keep_their_journal(rt: HostRuntime) -> Result<(), Fail> {
    agree_all(&rt, &CALLED_OFF)
}

#[test]
fn checks_keep_their_journal(rt: HostRuntime) -> Result<(), Fail> {
    agree_all(&rt, &CHECKS)
}
