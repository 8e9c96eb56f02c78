//! After how many turns of the line above it an inner line arrives.

use crate::journals::{PAUSE, TURNS};
use crate::lines::lines_of;
use crate::stepper::Stepper;
use pc_terms::NoMemory;
use report_hub::Hub;
use schedule_player::play;
use std::alloc::Global;
use std::test::Fail;

// A digit for each call that the engine was fed: the turns that it had before.
fn arrivals(alloc: Global, schedule: &str, turn: u32) -> Result<u64, NoMemory> {
    let lines = lines_of(alloc, schedule, turn)?;
    let mut hub = Hub::new(alloc)?;
    let mut engine = Stepper::new(alloc, PAUSE)?;
    let _ = play(alloc, &mut engine, &mut hub, lines);
    Ok(engine.arrivals)
}

// The ask above is ready at its fourth turn.
#[test]
fn a_line_arrives_after_its_turns_or_where_the_ask_is_ready(rt: HostRuntime) -> Result<(), Fail> {
    let schedule = "reload A a.txt\ntype A 19\n  @0 type A 15\n";
    for (turn, turns) in [(0, 0), (1, 1), (2, 2), (9, 4), (4_294_967_295, 4)] {
        assert_eq!(rt; arrivals(rt.alloc(), schedule, turn)?, turns, "turn {turn}");
    }
    Ok(())
}

// A check has one turn at least, and has found what it finds then.
#[test]
fn a_line_arrives_in_a_check_that_has_begun(rt: HostRuntime) -> Result<(), Fail> {
    let schedule = "reload A a.txt\nidle\n  @0.0 type A 19\n";
    for turn in TURNS {
        assert_eq!(rt; arrivals(rt.alloc(), schedule, turn)?, 1, "turn {turn}");
    }
    Ok(())
}
