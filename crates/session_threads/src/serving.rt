//! The engine's part of a session: it serves until the session is shut down.
ghost use Rattle.std.specs.Prelude.{◌≡◌};
ghost use Rattle.ask_history.specs.Engine.{fresh_state};
ghost use Rattle.desk_driver.specs.Drives.{findings_in};
ghost use Rattle.report_hub.specs.Hub.{reporters_of, of_box, IsToldMost, OfEach};
ghost use Rattle.session_threads.specs.Passes.{IsEngines};
ghost use Rattle.session_threads.specs.Served.{HasServed};

use ask_desk::{Desk, EnginePass};
use ask_history::Engine;
use counting_word::Room;
use desk_driver::drive;
use pc_outside::Gate;
use pc_terms::{Problem, Row};
use report_hub::Hub;
use std::alloc::Global;
use std::sync::Wait;

/// The engine's part of a session that is shut down: its pass, the hub, and what its checks found.
#[derive(Drop)]
pub(crate) struct Served<B: Room> {
    pub(crate) pass: EnginePass<B>,
    pub(crate) hub: Hub,
    pub(crate) found: Row<Row<Problem>>,
}

/// Serves the clients with an engine to which nothing was fed, until the session is shut down.
pub(crate) fn serve<B: Room, N: Engine, G: Gate, R: Wait>(
    rt: &R,
    alloc: Global,
    desk: &Desk<B>,
    pass: EnginePass<B>,
    hub: Hub,
    engine: &mut N,
    gate: &mut G,
) -> Served<B>
    requires pass { IsEngines pass.pass pass.made pass.made }
    requires fresh { N.state engine.old ≡ fresh_state }
    ensures served { HasServed N.answer_of N.problems_of pass.made result.pass.pass result.found }
    ensures told { OfEach (IsToldMost (of_box told) (of_box faults) (findings_in result.pass.pass.seen)) (reporters_of hub) (reporters_of result.hub) }
{
    let mut hub = hub;
    let mut found: Vec<Row<Problem>> = Vec::new(alloc);
    let pass = drive(rt, alloc, desk, pass, engine, &mut hub, gate, &mut found);
    Served {
        pass,
        hub,
        found: Row::from_vec(found),
    }
}
