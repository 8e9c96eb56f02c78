//! A desk that is served on one thread: its caller acts before, and at the safe points of the engine.
ghost use Rattle.std.specs.Prelude.{◌≡◌, [], Some};
ghost use Rattle.ask_history.specs.Engine.{fresh_state};
ghost use Rattle.compiler_loop.specs.CoreState.{state_of};
ghost use Rattle.counting_word.specs.History.{engine_number};
ghost use Rattle.work_queue.specs.Refusal.{IsWithin};

use crate::callers::{Caller, Deed};
use crate::paced::Paced;
use crate::steps::{Step, steps};
use ask_desk::{Desk, EnginePass};
use ask_history::{Engine, Journal, Mark};
use compiler_loop::Core;
use counting_word::{Opened, Room};
use desk_driver::drive;
use pc_outside::Gate;
use pc_terms::{NoMemory, Problem, Row};
use report_hub::Hub;
use std::alloc::Global;
use std::marker::Brand;
use std::process::Abort;
use std::sync::Wait;
use std::test::Fail;
use work_queue::Limits;

pub const ALL: Limits = Limits {
    calls: 65_536,
    text: 268_435_456,
    names: 1_024,
    map: 16_777_216,
    file: 262_144,
};

/// What a caller does before the engine serves and at its safe points, and what the session comes to.
#[derive(Clone, Copy)]
struct Case {
    name: &'static str,
    before: &'static [Deed],
    deeds: &'static [Deed],
    steps: &'static [Step],
    /// How many checks there are.
    checks: usize,
}

/// What comes of a session: its journal, and the number of its checks.
#[derive(Drop)]
struct Outcome {
    journal: Journal,
    checks: usize,
}

/// Serves a desk with an engine to which nothing was fed, and gives the number of checks.
pub fn serve<R: Wait, B: Room, E: Engine, G: Gate>(
    rt: &R,
    alloc: Global,
    desk: &Desk<B>,
    pass: EnginePass<B>,
    engine: &mut E,
    hub: &mut Hub,
    gate: &mut G,
) -> (EnginePass<B>, usize)
    requires number { pass.pass.name.number ≡ Some engine_number }
    requires begins { pass.pass.seen ≡ [] }
    requires fresh { E.state engine.old ≡ fresh_state }
{
    let mut found: Vec<Row<Problem>> = Vec::new(alloc);
    let pass = drive(rt, alloc, desk, pass, engine, hub, gate, &mut found);
    (pass, found.len())
}

/// A session whose caller does some things before the engine serves, and others at its safe points. It is shut down once the
/// engine is idle.
fn session<R: Wait>(rt: &R, alloc: Global, case: &Case) -> Result<Outcome, NoMemory> {
    let mut hub = Hub::new(alloc)?;
    let opened = Opened::new(alloc, ALL)?;
    let core = Core::new(alloc)?;
    session_over::<Brand, R>(rt, alloc, opened, ALL, core, &mut hub, case)
}

fn session_over<B: Room, R: Wait>(
    rt: &R,
    alloc: Global,
    opened: Opened,
    limits: Limits,
    core: Core,
    hub: &mut Hub,
    case: &Case,
) -> Result<Outcome, NoMemory>
    requires within { IsWithin limits }
    requires table { opened.words.shared.table_id ≡ B.table }
    requires carried { opened.limits ≡ B.limits }
    requires limits { limits ≡ B.limits }
    requires fresh { state_of core ≡ fresh_state }
{
    let (desk, mut pass) = Desk::<B>::start(alloc, opened, limits)?;
    let one = desk.new_pass(&mut pass);
    let other = desk.new_pass(&mut pass);
    let mut caller = Caller {
        alloc,
        desk: &desk,
        pass: one,
        deeds: case.deeds,
    };
    caller.act_all(rt, case.before);
    let mut engine = Paced {
        core,
        trees: 2,
        rt,
        caller: Some(Caller {
            alloc,
            desk: &desk,
            pass: other,
            deeds: &[],
        }),
    };
    let (pass, checks) = serve(rt, alloc, &desk, pass, &mut engine, hub, &mut caller);
    drop(engine);
    drop(caller);
    Ok(Outcome {
        journal: desk.end(pass),
        checks,
    })
}

static SESSIONS: [Case; 5] = [
    Case {
        name: "an ask that comes while the engine types is answered before the one below it",
        before: &[Deed::Typed],
        deeds: &[Deed::Type],
        steps: &[
            Step::Accept(0),
            Step::Accept(1),
            Step::Settle(1, Mark::Done),
            Step::Settle(0, Mark::Done),
            Step::Close,
        ],
        checks: 0,
    },
    Case {
        name: "a reload that comes while the engine types is settled before the ask that was there",
        before: &[Deed::Type],
        deeds: &[Deed::Reload],
        steps: &[
            Step::Accept(0),
            Step::Accept(1),
            Step::Settle(1, Mark::Done),
            Step::Settle(0, Mark::Done),
            Step::Checked,
            Step::Close,
        ],
        checks: 1,
    },
    Case {
        name: "nothing is settled behind the shutdown but by it",
        before: &[Deed::Type, Deed::Reload, Deed::Close],
        deeds: &[],
        steps: &[
            Step::Accept(0),
            Step::Accept(1),
            Step::Close,
            Step::Settle(0, Mark::Done),
            Step::Settle(1, Mark::Done),
        ],
        checks: 0,
    },
    Case {
        name: "the engine has no memory for a removal, and the session is shut down while the ask behind it is typed",
        before: &[Deed::Remove, Deed::Type],
        deeds: &[Deed::Close],
        steps: &[
            Step::Accept(0),
            Step::Accept(1),
            Step::Settle(0, Mark::NoMemory),
            Step::Close,
            Step::Settle(1, Mark::Done),
        ],
        checks: 0,
    },
    Case {
        name: "a loaded file is checked once the asks are answered",
        before: &[Deed::Reload, Deed::Type],
        deeds: &[],
        steps: &[
            Step::Accept(0),
            Step::Accept(1),
            Step::Settle(0, Mark::Done),
            Step::Settle(1, Mark::Done),
            Step::Checked,
            Step::Close,
        ],
        checks: 1,
    },
];

fn agree<R: Abort + AllocGlobal + Wait>(rt: &R, case: &Case) -> Result<(), Fail> {
    let Outcome { journal, checks } = session(rt, rt.alloc(), case)?;
    let steps = steps(rt.alloc(), &journal)?;
    let name = case.name;
    assert_eq!(rt; steps.as_slice(), case.steps, "{name}");
    assert_eq!(rt; checks, case.checks, "{name}");
    Ok(())
}

#[test]
fn sessions_come_to_these_events(rt: HostRuntime) -> Result<(), Fail> {
    for case in &SESSIONS {
        agree(&rt, case)?;
    }
    Ok(())
}
