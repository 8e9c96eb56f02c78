//! Drives an engine until the session is shut down.
ghost use Rattle.std.specs.Prelude.{IsTrue};
ghost use Rattle.ask_history.specs.Legal.{is_legal};
ghost use Rattle.report_hub.specs.Hub.{reporters_of, of_box, IsToldMost, OfEach};
ghost use Rattle.engine_driver.specs.History.{journal_of};
ghost use Rattle.engine_driver.specs.Serving.{CanDrive, IsServed};
ghost use Rattle.engine_driver.specs.Runs.{Made};

use crate::board::Board;
use crate::driver::Driver;
use ask_history::Engine;
use pc_terms::{Problem, Row};
use report_hub::Hub;
use std::alloc::Global;
use std::sync::Wait;

/// Serves a session until it is shut down: it feeds each call in the order of tickets, settles it, and tells and keeps what
/// checks find. Then no call is open in the engine.
pub fn drive<R: Wait, B: Board, E: Engine>(
    rt: &R,
    alloc: Global,
    board: &mut B,
    engine: &mut E,
    hub: &mut Hub,
    found: &mut Vec<Row<Problem>>,
)
    requires legal { IsTrue (is_legal (journal_of (B.history board.old))) }
    requires can { CanDrive (journal_of (B.history board.old)) (E.state engine.old) }
    ensures served { IsServed (journal_of (B.history board.new)) (E.state engine.new) }
    ensures made { Made E.answer_of E.problems_of (λ findings. OfEach (IsToldMost (of_box told) (of_box faults) findings) (reporters_of hub.old) (reporters_of hub.new))
        (B.history board.old) (B.history board.new) found.old.items found.new.items }
{
    let mut driver = Driver::new(alloc);
    for _ in rt.forever() {
        if driver.round(board, engine, hub, found) {
            engine.stop();
            return;
        }
    }
    unreachable!()
}
