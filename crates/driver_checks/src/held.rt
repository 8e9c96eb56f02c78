//! An engine that is held at its first safe point, beside a caller on another thread.
ghost use Rattle.std.specs.Prelude.{◌≡◌, ◌≤◌, [], IfOk, Some, length, true};
ghost use Rattle.ask_history.specs.Engine.{fresh_state, has_file_names};
ghost use Rattle.compiler_loop.specs.CoreState.{state_of};
ghost use Rattle.counting_word.specs.History.{engine_number};
ghost use Rattle.work_queue.specs.Refusal.{IsWithin};
ghost use Rattle.work_queue.specs.Reloads.{reloaded_by};

use crate::callers::{Caller, Deed, reload, type_at};
use crate::desks::{ALL, serve};
use crate::paced::Paced;
use crate::steps::{Step, steps};
use ask_desk::{Desk, EnginePass, Pass};
use ask_history::{Answer, Call, Journal, Mark};
use compiler_loop::Core;
use counting_word::{Opened, Room};
use pc_outside::HoldingGate;
use pc_terms::{NoMemory, TreeKind};
use report_hub::Hub;
use std::alloc::Global;
use std::marker::Brand;
use std::sync::{Barrier, Wait};
use std::test::Fail;
use std::thread::{Threads, join};
use work_queue::Limits;

/// What a caller was answered: whether it was the literal's tree, while the engine was held and after its own reload.
#[derive(Clone, Copy, Debug, PartialEq, Eq)]
struct Answered {
    held: bool,
    read_back: bool,
}

fn is_literal(answer: &Answer) -> bool {
    match answer {
        Answer::Tree(tree) => tree.kind == TreeKind::Literal,
        _ => false,
    }
}

// Posts a call while the engine is held, lets the engine go, and waits for the answer.
fn ask_held<B: Room, R: Wait>(
    rt: &R,
    alloc: Global,
    desk: &Desk<B>,
    meetings: &Barrier,
    pass: &mut Pass<B>,
) -> bool {
    meetings.wait(rt);
    let Ok(call) = type_at(alloc) else {
        meetings.wait(rt);
        return false;
    };
    let posted = desk.post(rt, alloc, pass, 1, call);
    meetings.wait(rt);
    match posted {
        Ok(ticket) => is_literal(&desk.receive(rt, pass, ticket)),
        Err(_) => false,
    }
}

// Posts a call, and waits for the answer.
fn ask<B: Room, R: Wait>(
    rt: &R,
    alloc: Global,
    desk: &Desk<B>,
    pass: &mut Pass<B>,
    call: Result<Call, NoMemory>,
) -> Option<Answer>
    requires few { IfOk call (λ call. length (reloaded_by call) ≤ 1) }
    requires names { IfOk call (λ call. has_file_names call ≡ true) }
{
    match desk.post(rt, alloc, pass, 1, call.ok()?) {
        Ok(ticket) => Some(desk.receive(rt, pass, ticket)),
        Err(_) => None,
    }
}

// Loads the file again and asks about it.
fn read_back<B: Room, R: Wait>(rt: &R, alloc: Global, desk: &Desk<B>, pass: &mut Pass<B>) -> bool {
    let loaded = ask(rt, alloc, desk, pass, reload(alloc));
    match ask(rt, alloc, desk, pass, type_at(alloc)) {
        Some(answer) => matches!(loaded, Some(Answer::Done)) && is_literal(&answer),
        None => false,
    }
}

// What the caller does: it asks while the engine is held, loads the file again, and shuts the session down.
fn call_beside<B: Room, R: Wait>(
    rt: &R,
    alloc: Global,
    desk: &Desk<B>,
    meetings: &Barrier,
    pass: Pass<B>,
) -> Answered {
    let mut pass = pass;
    let held = ask_held(rt, alloc, desk, meetings, &mut pass);
    let read_back = read_back(rt, alloc, desk, &mut pass);
    desk.close(rt, &mut pass);
    Answered { held, read_back }
}

// The caller in a thread, beside the engine.
fn beside<B: Room + Send + Sync, R: Threads + Wait + Sync>(
    rt: &R,
    alloc: Global,
    desk: &Desk<B>,
    meetings: &Barrier,
    caller: Pass<B>,
    pass: EnginePass<B>,
    engine: &mut Paced<'_, R, B>,
    hub: &mut Hub,
    gate: &mut HoldingGate<'_>,
) -> (Answered, (EnginePass<B>, usize))
    requires number { pass.pass.name.number ≡ Some engine_number }
    requires begins { pass.pass.seen ≡ [] }
    requires fresh { state_of engine.old.core ≡ fresh_state }
{
    join(
        rt,
        || call_beside(rt, alloc, desk, meetings, caller),
        || -> (EnginePass<B>, usize)
            requires { (pass.pass.name.number ≡ Some engine_number) × (pass.pass.seen ≡ []) × (state_of engine.now.core ≡ fresh_state) }
        { serve(rt, alloc, desk, pass, engine, hub, gate) },
    )
}

/// A session in which a caller has loaded a file and asked for the whole of it, before another asks for a tree.
fn session<R: Threads + Wait + Sync>(
    rt: &R,
    alloc: Global,
) -> Result<(Answered, Journal), NoMemory> {
    let mut hub = Hub::new(alloc)?;
    let opened = Opened::new(alloc, ALL)?;
    let core = Core::new(alloc)?;
    session_over::<Brand, R>(rt, alloc, opened, ALL, core, &mut hub)
}

fn session_over<B: Room + Send + Sync, R: Threads + Wait + Sync>(
    rt: &R,
    alloc: Global,
    opened: Opened,
    limits: Limits,
    core: Core,
    hub: &mut Hub,
) -> Result<(Answered, Journal), NoMemory>
    requires within { IsWithin limits }
    requires table { opened.words.shared.table_id ≡ B.table }
    requires carried { opened.limits ≡ B.limits }
    requires limits { limits ≡ B.limits }
    requires fresh { state_of core ≡ fresh_state }
{
    let (desk, mut pass) = Desk::<B>::start(alloc, opened, limits)?;
    let one = desk.new_pass(&mut pass);
    let other = desk.new_pass(&mut pass);
    let mut caller = Caller {
        alloc,
        desk: &desk,
        pass: one,
        deeds: &[],
    };
    caller.act_all(rt, &[Deed::Reload, Deed::Typed]);
    drop(caller);
    let meetings = Barrier::new(2);
    let mut gate = HoldingGate::new(&meetings);
    let mut engine = Paced {
        core,
        trees: 2,
        rt,
        caller: None::<Caller<B>>,
    };
    let (answered, (pass, _)) = beside(
        rt,
        alloc,
        &desk,
        &meetings,
        other,
        pass,
        &mut engine,
        hub,
        &mut gate,
    );
    drop(engine);
    Ok((answered, desk.end(pass)))
}

fn place_of(steps: &[Step], wanted: Step) -> Option<usize> {
    steps.iter().position(|step| *step == wanted)
}

// The engine is held while it types what the first ask wants. A tree that is asked for meanwhile is answered first, and the
// lock is free for that. Then the caller reads its own reload back.
#[test]
fn a_call_of_another_thread_is_served_while_the_engine_types(rt: HostRuntime) -> Result<(), Fail> {
    let alloc = rt.alloc();
    let (answered, journal) = session(&rt, alloc)?;
    let expected = Answered {
        held: true,
        read_back: true,
    };
    assert_eq!(&rt; answered, expected);
    let steps = steps(alloc, &journal)?;
    let inner = place_of(steps.as_slice(), Step::Settle(2, Mark::Done));
    let outer = place_of(steps.as_slice(), Step::Settle(1, Mark::Done));
    assert!(&rt; inner.is_some() && outer.is_some() && inner < outer);
    Ok(())
}
