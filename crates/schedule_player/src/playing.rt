ghost use Rattle.std.specs.Prelude.{◌≡◌, [], false, OnOk};
ghost use Rattle.schedule_player.specs.SessionState.{fresh_session};
ghost use Rattle.schedule_player.specs.InStep.{InStep, ChecksInStep};
ghost use Rattle.schedule_player.specs.Around.{around, top_work};
ghost use Rattle.schedule_player.specs.Steps.{OnlySettles, IsPlayed, IsUnderway};
ghost use Rattle.schedule_player.specs.Reporting.{KeepsTold};
ghost use Rattle.ask_history.specs.Engine.{fresh_state};
ghost use Rattle.ask_history.specs.Journal.{findings};
ghost use Rattle.report_hub.specs.Hub.{reporters_of, of_box, OfEach, IsToldMost};
ghost use Rattle.schedule_player.specs.Owed.{CanPlayAll, PlayOwes};

use crate::Played;
use crate::outers::Work;
use crate::session::Session;
use ask_history::{Engine, Journal, Line};
use pc_terms::{NoMemory, Row};
use report_hub::Hub;
use std::alloc::Global;
use std::collections::VecDeque;

impl Session {
    // Plays all lines on a fresh session.
    fn play_lines<N: Engine>(
        &mut self,
        engine: &mut N,
        hub: &mut Hub,
        lines: Row<Line>,
    ) -> Result<(), NoMemory>
        requires fresh { self.old ≡ fresh_session }
        requires in_step { InStep N.answer_of N.problems_of self.old (N.state engine.old) }
        requires checks { ChecksInStep N.problems_of self.old (N.state engine.old) }
        requires can { CanPlayAll lines }
        ensures in_step { InStep N.answer_of N.problems_of self.new (N.state engine.new) }
        ensures whole { OnOk result (IsPlayed lines self.new) }
        ensures cut { IsUnderway lines self.new }
        ensures told { KeepsTold (of_box told) (of_box faults) (findings N.problems_of self.old.journal) (reporters_of hub.old) (findings N.problems_of self.new.journal) (reporters_of hub.new) }
    {
        let mut left = VecDeque::from_vec(lines.into_vec());
        while let Some(line) = left.pop_front() {
            self.play_line(engine, hub, line)?;
        }
        self.finish_to(engine, hub, 0)?;
        Ok(())
    }

    // Takes the innermost line off, and settles it as out of memory where it is an open ask.
    fn give_up_top<N: Engine>(&mut self, engine: &mut N, work: Work)
        requires in_step { InStep N.answer_of N.problems_of self.old (N.state engine.old) }
        requires top { top_work self.old.outers ≡ work }
        ensures in_step { InStep N.answer_of N.problems_of self.new (N.state engine.new) }
        ensures outers { self.new.outers ≡ around self.old.outers }
        ensures settles { OnlySettles self.old.journal self.new.journal }
    {
        match work {
            Work::Ask { ticket, is_fed, .. } => self.give_up_ask(engine, ticket, is_fed),
            Work::Checks { .. } => self.pop(),
            Work::Check { .. } => self.pop(),
            Work::Beside => self.pop(),
            Work::Passed => self.pop(),
        }
    }

    // Settles the open asks as out of memory, the innermost first.
    fn give_up<N: Engine>(&mut self, engine: &mut N)
        requires in_step { InStep N.answer_of N.problems_of self.old (N.state engine.old) }
        ensures in_step { InStep N.answer_of N.problems_of self.new (N.state engine.new) }
        ensures outers { self.new.outers ≡ [] }
        ensures settles { OnlySettles self.old.journal self.new.journal }
        ensures none { self.old.outers ≡ [] → self.new ≡ self.old }
    {
        while let Some(outer) = self.top() {
            self.give_up_top(engine, outer.work);
        }
    }
}

// Nothing was played.
fn nothing(alloc: Global) -> Played
    ensures { result ≡ record { journal = record { events = [] }; answers = []; problems = []; whole = false } }
{
    Played {
        journal: Journal {
            events: Row::new(alloc),
        },
        answers: Row::new(alloc),
        problems: Row::new(alloc),
        whole: false,
    }
}

/// Plays the lines of a schedule on a fresh engine, in their order, each at its place under the lines around it, and tells the
/// reporters of the hub what the checks find. A reload has its texts in place of paths. Out of memory the run is cut short: what
/// is open is settled so, the innermost first.
pub fn play<N: Engine>(alloc: Global, engine: &mut N, hub: &mut Hub, lines: Row<Line>) -> Played
    requires fresh { N.state engine.old ≡ fresh_state }
    requires can { CanPlayAll lines }
    ensures owed { PlayOwes N.answer_of N.problems_of lines result (N.state engine.new) }
    ensures told { OfEach (IsToldMost (of_box told) (of_box faults) (findings N.problems_of result.journal.events)) (reporters_of hub.old) (reporters_of hub.new) }
{
    let mut session = match Session::new(alloc) {
        Ok(session) => session,
        Err(NoMemory {}) => return nothing(alloc),
    };
    let whole = session.play_lines(engine, hub, lines).is_ok();
    session.give_up(engine);
    session.into_played(whole)
}
