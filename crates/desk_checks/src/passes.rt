//! What passes see of one history, and of their answers.
ghost use Rattle.std.specs.Prelude.{◌≡◌, ◌+◌, ◌<◌, ◌≤◌, length, IsTrue, Some, is_some, true};
ghost use Rattle.ask_history.specs.Engine.{has_file_names};
ghost use Rattle.counting_word.specs.History.{engine_number};
ghost use Rattle.work_queue.specs.Reloads.{reloaded_by};
ghost use Rattle.work_queue.specs.Refusal.{IsWithin};

use crate::calls::{ALL, type_at};
use crate::waiting::Waiting;
use ask_desk::{Desk, EnginePass, Pass};
use ask_history::{Answer, Call};
use counting_word::{Opened, Room};
use pc_terms::NoMemory;
use std::alloc::Global;
use std::marker::Brand;
use std::sync::Wait;
use std::test::Fail;
use work_queue::{CancelSeen, Limits};

/// The passes of two clients.
fn two_passes<B: Room>(desk: &Desk<B>, engine: &mut EnginePass<B>) -> (Pass<B>, Pass<B>)
    requires engine { engine.old.pass.name.number ≡ Some engine_number }
    requires made { engine.old.pass.name.made ≡ engine.old.made }
    requires few { engine.old.made + 1 < engine_number }
    ensures one { IsTrue (is_some result.0.name.number) }
    ensures other { IsTrue (is_some result.1.name.number) }
{
    let one = desk.new_pass(engine);
    let other = desk.new_pass(engine);
    (one, other)
}

/// What is done with a call of one pass, of which another pass knows.
#[derive(Clone, Copy)]
enum Scene {
    /// No engine settles it, until the other pass shuts the session down.
    Shutdown,
    /// The other pass glances at the start, after the call, after its cancel, and after its own shutdown.
    Glances,
    /// The other pass cancels it, which it knows from meeting its caller.
    CancelOfMet,
}

/// What came of a scene.
#[derive(Drop)]
enum Seen {
    Shutdown {
        close: u64,
        cancel: CancelSeen,
        answer: Option<Answer>,
    },
    Glances([u64; 4]),
    Cancel(CancelSeen),
    /// The call was refused, or had an answer without an engine.
    Nothing,
}

fn shutdown<B: Room, R: Wait>(
    rt: &R,
    desk: &Desk<B>,
    waiting: Waiting<B>,
    other: &mut Pass<B>,
) -> Seen {
    let mut waiting = match waiting.look(rt, desk) {
        Ok(_) => return Seen::Nothing,
        Err(waiting) => waiting,
    };
    let close = desk.close(rt, other);
    let cancel = waiting.cancel(rt, desk);
    let answer = waiting.look(rt, desk).ok();
    Seen::Shutdown {
        close,
        cancel,
        answer,
    }
}

fn glances<B: Room, R: Wait>(
    rt: &R,
    desk: &Desk<B>,
    waiting: &mut Waiting<B>,
    other: &mut Pass<B>,
    start: u64,
) -> Seen {
    let posted = desk.glance(other);
    waiting.cancel(rt, desk);
    let cancelled = desk.glance(other);
    desk.close(rt, other);
    Seen::Glances([start, posted, cancelled, desk.glance(other)])
}

fn cancel_of_met<B: Room, R: Wait>(
    rt: &R,
    desk: &Desk<B>,
    waiting: &mut Waiting<B>,
    other: &mut Pass<B>,
) -> Seen {
    waiting.meet(desk, other);
    Seen::Cancel(desk.cancel(rt, other, &waiting.ticket))
}

fn play_at<B: Room, R: Wait>(
    rt: &R,
    alloc: Global,
    desk: &Desk<B>,
    one: Pass<B>,
    other: &mut Pass<B>,
    call: Call,
    scene: Scene,
) -> Seen
    requires one { IsTrue (is_some one.name.number) }
    requires few { length (reloaded_by call) ≤ 1 }
    requires names { has_file_names call ≡ true }
{
    let start = desk.glance(other);
    let Ok(mut waiting) = Waiting::post(rt, alloc, desk, one, 7, call) else {
        return Seen::Nothing;
    };
    match scene {
        Scene::Shutdown => shutdown(rt, desk, waiting, other),
        Scene::Glances => glances(rt, desk, &mut waiting, other, start),
        Scene::CancelOfMet => cancel_of_met(rt, desk, &mut waiting, other),
    }
}

/// What came of a scene, and how many events the session has.
fn play<R: Wait>(rt: &R, alloc: Global, scene: Scene) -> Result<(Seen, usize), NoMemory> {
    let call = type_at(alloc, "A.scala", 0)?;
    let opened = Opened::new(alloc, ALL)?;
    play_over::<Brand, R>(rt, alloc, opened, ALL, call, scene)
}

fn play_over<B: Room, R: Wait>(
    rt: &R,
    alloc: Global,
    opened: Opened,
    limits: Limits,
    call: Call,
    scene: Scene,
) -> Result<(Seen, usize), NoMemory>
    requires within { IsWithin limits }
    requires table { opened.words.shared.table_id ≡ B.table }
    requires carried { opened.limits ≡ B.limits }
    requires limits { limits ≡ B.limits }
    requires few { length (reloaded_by call) ≤ 1 }
    requires names { has_file_names call ≡ true }
{
    let (desk, mut engine) = Desk::<B>::start(alloc, opened, limits)?;
    let (one, mut other) = two_passes(&desk, &mut engine);
    let seen = play_at(rt, alloc, &desk, one, &mut other, call, scene);
    let journal = desk.end(engine);
    Ok((seen, journal.events.len()))
}

#[test]
fn a_call_of_a_session_that_another_pass_shuts_down_is_answered_closed(
    rt: HostRuntime,
) -> Result<(), Fail> {
    let (seen, events) = play(&rt, rt.alloc(), Scene::Shutdown)?;
    match seen {
        Seen::Shutdown {
            close,
            cancel,
            answer,
        } => {
            assert_eq!(&rt; close, 1);
            assert_eq!(&rt; cancel, CancelSeen::Late(2));
            assert!(&rt; matches!(answer, Some(Answer::Closed)));
        }
        _ => panic!(&rt; "an answer without an engine"),
    }
    assert_eq!(&rt; events, 3);
    Ok(())
}

#[test]
fn a_glance_finds_the_events_of_all_passes(rt: HostRuntime) -> Result<(), Fail> {
    let (seen, _) = play(&rt, rt.alloc(), Scene::Glances)?;
    match seen {
        Seen::Glances(counts) => assert_eq!(&rt; counts, [0, 1, 2, 4]),
        _ => panic!(&rt; "a call was refused"),
    }
    Ok(())
}

#[test]
fn a_pass_cancels_the_call_of_one_that_it_met(rt: HostRuntime) -> Result<(), Fail> {
    let (seen, _) = play(&rt, rt.alloc(), Scene::CancelOfMet)?;
    match seen {
        Seen::Cancel(cancel) => assert_eq!(&rt; cancel, CancelSeen::Marked(1)),
        _ => panic!(&rt; "a call was refused"),
    }
    Ok(())
}
