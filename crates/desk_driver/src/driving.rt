ghost use Rattle.std.specs.Prelude.{◌≡◌, Some};
ghost use Rattle.counting_word.specs.History.{journal_of, engine_number};
ghost use Rattle.engine_driver.specs.Serving.{CanDrive, IsServed};
ghost use Rattle.report_hub.specs.Hub.{reporters_of, of_box, IsToldMost, OfEach};
ghost use Rattle.desk_driver.specs.Drives.{Drives};

use crate::board::DeskBoard;
use crate::serving::{Begun, Serving};
use ask_desk::{Desk, EnginePass};
use ask_history::Engine;
use counting_word::Room;
use pc_outside::Gate;
use pc_terms::{Problem, Row};
use report_hub::Hub;
use std::alloc::Global;
use std::marker::Brand;
use std::sync::Wait;

/// Serves the calls of a desk with an engine until the session is shut down: it feeds each call in the order of tickets, settles
/// it, and tells and keeps what checks in the background find. It calls the gate at each safe point. Then no call is open in the
/// engine. Gives the pass back.
pub fn drive<R: Wait, B: Room, E: Engine, G: Gate>(
    rt: &R,
    alloc: Global,
    desk: &Desk<B>,
    pass: EnginePass<B>,
    engine: &mut E,
    hub: &mut Hub,
    gate: &mut G,
    found: &mut Vec<Row<Problem>>,
) -> EnginePass<B>
    requires engine { pass.pass.name.number ≡ Some engine_number }
    requires can { CanDrive (journal_of pass.pass.seen) (E.state engine.old) }
    ensures served { IsServed (journal_of result.pass.seen) (E.state engine.new) }
    ensures drives { Drives E.answer_of E.problems_of (λ findings. OfEach (IsToldMost (of_box told) (of_box faults) findings) (reporters_of hub.old) (reporters_of hub.new))
        pass.pass result.pass found.old.items found.new.items }
    ensures made { result.made ≡ pass.made }
{
    drive_begun::<R, B, Brand, E, G>(rt, alloc, desk, pass, engine, hub, gate, found)
}

// The same, where the type names how the pass began.
fn drive_begun<R: Wait, B: Room, M: Begun, E: Engine, G: Gate>(
    rt: &R,
    alloc: Global,
    desk: &Desk<B>,
    pass: EnginePass<B>,
    engine: &mut E,
    hub: &mut Hub,
    gate: &mut G,
    found: &mut Vec<Row<Problem>>,
) -> EnginePass<B>
    requires begun { pass.pass ≡ M.begun }
    requires count { pass.made ≡ M.count }
    requires engine { pass.pass.name.number ≡ Some engine_number }
    requires can { CanDrive (journal_of pass.pass.seen) (E.state engine.old) }
    ensures served { IsServed (journal_of result.pass.seen) (E.state engine.new) }
    ensures drives { Drives E.answer_of E.problems_of (λ findings. OfEach (IsToldMost (of_box told) (of_box faults) findings) (reporters_of hub.old) (reporters_of hub.new))
        pass.pass result.pass found.old.items found.new.items }
    ensures made { result.made ≡ pass.made }
{
    let serving = Serving::<B, M>::begin(rt, desk, pass);
    let mut board = DeskBoard {
        rt,
        alloc,
        desk,
        gate,
        serving,
    };
    engine_driver::drive(rt, alloc, &mut board, engine, hub, found);
    let DeskBoard {
        rt: _,
        alloc: _,
        desk: _,
        gate: _,
        serving,
    } = board;
    serving.into_pass()
}
