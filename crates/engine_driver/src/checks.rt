//! What a driver does with the check of a file.
ghost use Rattle.std.specs.Prelude.{◌≡◌, ◌++◌, ℕ, List, true, IsTrue};
ghost use Rattle.ask_history.specs.Engine.{EngineState};
ghost use Rattle.ask_history.specs.Journal.{after};
ghost use Rattle.ask_history.specs.Legal.{may_follow};
ghost use Rattle.ask_history.specs.declared.events.Event.TheVariants.{Checked};
ghost use Rattle.report_hub.specs.Hub.{reporters_of, of_box, IsToldMost, OfEach};
ghost use Rattle.engine_driver.specs.History.{journal_of};
ghost use Rattle.engine_driver.specs.Serving.{Drives, has_file};
ghost use Rattle.engine_driver.specs.Runs.{Made};

use crate::board::{Board, CheckNoted};
use ask_history::Engine;
use pc_terms::{Problem, Row, Text};
use report_hub::Hub;

/// Notes a check, and then tells and keeps what it found. Where memory runs out for the problems or for the event, or
/// the session is shut down by then, there is no event, nobody is told, and nothing is kept.
pub fn note<B: Board, E: Engine>(
    board: &mut B,
    hub: &mut Hub,
    found: &mut Vec<Row<Problem>>,
    file: &Text,
    problems: Row<Problem>,
)
    requires due { IsTrue (may_follow (journal_of (B.history board.old)) (Checked file.now)) }
    requires right { problems ≡ E.problems_of (after (journal_of (B.history board.old))) file.now }
    ensures drives { (state : EngineState) (next : ℕ) (opened : List ℕ) → Drives (journal_of (B.history board.old)) state next opened
        → has_file (state.checked ++ state.skipped) file.now ≡ true → Drives (journal_of (B.history board.new)) state next opened }
    ensures made { Made E.answer_of E.problems_of (λ findings. OfEach (IsToldMost (of_box told) (of_box faults) findings) (reporters_of hub.old) (reporters_of hub.new))
        (B.history board.old) (B.history board.new) found.old.items found.new.items }
{
    if found.reserve(1).is_err() {
        return;
    }
    match board.check(file, &problems) {
        CheckNoted::Noted => {
            hub.tell(file, &problems);
            found.push_reserved(problems);
        }
        CheckNoted::ShutDown | CheckNoted::NoMemory => {}
    }
}
