//! Posts through a desk, from threads.
ghost use Rattle.std.specs.Prelude.{◌≡◌, ◌<◌, ◌≤◌, ◌+◌, length, IfOk, Some};
ghost use Rattle.counting_word.specs.History.{engine_number};
ghost use Rattle.work_queue.specs.Refusal.{IsWithin};

use crate::posting::{LIMITS, ask};
use ask_desk::{Desk, EnginePass, Pass};
use counting_word::{Opened, Room};
use pc_terms::NoMemory;
use std::alloc::Global;
use std::marker::Brand;
use std::sync::Wait;
use std::thread::{Threads, map_vec};
use work_queue::Limits;

/// Posts so many calls, shared by so many threads, and gives the number of those that are accepted.
pub fn session<R: Threads + Wait + Sync>(
    rt: &R,
    alloc: Global,
    threads: u64,
    posts: u64,
) -> Result<u64, NoMemory> {
    let opened = Opened::new(alloc, LIMITS)?;
    session_over::<Brand, R>(rt, alloc, opened, LIMITS, threads.clamp(1, 64), posts)
}

fn session_over<B: Room + Send + Sync, R: Threads + Wait + Sync>(
    rt: &R,
    alloc: Global,
    opened: Opened,
    limits: Limits,
    threads: u64,
    posts: u64,
) -> Result<u64, NoMemory>
    requires within { IsWithin limits }
    requires table { opened.words.shared.table_id ≡ B.table }
    requires carried { opened.limits ≡ B.limits }
    requires limits { limits ≡ B.limits }
    requires some { 0 < threads }
    requires few { threads ≤ 64 }
{
    let (desk, mut engine) = Desk::<B>::start(alloc, opened, limits)?;
    let passes = passes(alloc, &desk, &mut engine, threads)?;
    let share = posts / threads;
    let posted = map_vec(
        rt,
        passes,
        &|pass: Pass<B>| post_all(rt, alloc, &desk, pass, share),
    )?;
    for each in posted {
        each?;
    }
    Ok(desk.look(rt, &mut engine).accepted)
}

fn passes<B: Room>(
    alloc: Global,
    desk: &Desk<B>,
    engine: &mut EnginePass<B>,
    threads: u64,
) -> Result<Vec<Pass<B>>, NoMemory>
    requires engine { engine.old.pass.name.number ≡ Some engine_number }
    requires made { engine.old.pass.name.made ≡ engine.old.made }
    requires none { engine.old.made ≡ 0 }
    requires few { threads ≤ 64 }
    ensures engine { engine.new.pass.name.number ≡ Some engine_number }
{
    let mut passes = Vec::new(alloc);
    for _each in 0..threads {
        passes.push(desk.new_pass(engine))?;
    }
    Ok(passes)
}

fn post_all<B: Room, R: Wait>(
    rt: &R,
    alloc: Global,
    desk: &Desk<B>,
    pass: Pass<B>,
    posts: u64,
) -> Result<(), NoMemory> {
    let mut pass = pass;
    for tag in 0..posts {
        if desk.post(rt, alloc, &mut pass, tag, ask(alloc)?).is_err() {
            return Err(NoMemory {});
        }
    }
    Ok(())
}
