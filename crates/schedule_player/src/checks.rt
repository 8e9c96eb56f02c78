//! Checks of files, while no ask is open.

ghost use Rattle.std.specs.Prelude.{◌≡◌, ◌≢◌, ℕ, ◌<◌, ◌++◌, ◌∷◌, [], length, Some, None, Ok, Err, true, false, is_some, IfOk, OnOk, OnErr};
ghost use Rattle.ask_history.specs.Sources.{some_of};
ghost use Rattle.ask_history.specs.Checks.{due, check_begins, check_done};
ghost use Rattle.ask_history.specs.Journal.{findings};
ghost use Rattle.report_hub.specs.Hub.{reporters_of, of_box};
ghost use Rattle.schedule_player.specs.Reporting.{KeepsTold};
ghost use Rattle.schedule_player.specs.Around.{asks_of, top_work, with_work};
ghost use Rattle.schedule_player.specs.InStep.{InStep, ChecksInStep};
ghost use Rattle.schedule_player.specs.Steps.{Says, GoesOnLess, IsSameButFound, IsSameButChecks, ChecksOn, IsSameButTurns, IsOfChecks, Reaches, HasCome};
ghost use Rattle.schedule_player.specs.declared.outers.Work.TheVariants.{Checks, Check, Passed};
ghost use Rattle.schedule_player.specs.declared.checks.Step.TheVariants as step;

use crate::outers::Work;
use crate::session::{Pending, Session};
use ask_history::{Engine, Turn};
use pc_terms::NoMemory;
use report_hub::Hub;

/// What a turn of a check came to.
#[derive(Clone, Copy, Debug, PartialEq, Eq)]
pub enum Step {
    GoesOn,
    Found,
    NothingDue,
}

impl Session {
    // One turn of the engine. What a check finds is kept.
    fn turn_check<N: Engine>(&mut self, engine: &mut N) -> Result<Step, NoMemory>
        requires in_step { InStep N.answer_of N.problems_of self.old (N.state engine.old) }
        requires checks { ChecksInStep N.problems_of self.old (N.state engine.old) }
        requires live { self.old.closed ≡ false }
        requires alone { asks_of self.old.outers ≡ [] }
        ensures in_step { InStep N.answer_of N.problems_of self.new (N.state engine.new) }
        ensures checks { OnOk result (ChecksInStep N.problems_of self.new (N.state engine.new)) }
        ensures same { IsSameButFound self.old self.new }
        ensures says { IfOk result (λ step. Says step (due self.old.journal) self.new.found) }
        ensures lowers { IfOk result (λ step. GoesOnLess step (N.left engine.old) (N.left engine.new)) }
    {
        if self.has_found() {
            return Ok(Step::Found);
        }
        match engine.turn(1) {
            Turn::Safe => Ok(Step::GoesOn),
            Turn::Idle => Ok(Step::NothingDue),
            Turn::Checked(file, problems) => {
                self.find(Pending { file, problems });
                Ok(Step::Found)
            }
            _ => Err(NoMemory {}),
        }
    }

    // Whether a check begins.
    fn begins<N: Engine>(&mut self, engine: &mut N) -> Result<bool, NoMemory>
        requires in_step { InStep N.answer_of N.problems_of self.old (N.state engine.old) }
        requires checks { ChecksInStep N.problems_of self.old (N.state engine.old) }
        requires alone { asks_of self.old.outers ≡ [] }
        ensures in_step { InStep N.answer_of N.problems_of self.new (N.state engine.new) }
        ensures checks { OnOk result (ChecksInStep N.problems_of self.new (N.state engine.new)) }
        ensures same { IsSameButFound self.old self.new }
        ensures begins { IfOk result (λ begins. begins ≡ check_begins self.old.journal) }
    {
        if self.is_closed() {
            return Ok(false);
        }
        match self.turn_check(engine)? {
            Step::NothingDue => Ok(false),
            Step::GoesOn => Ok(true),
            Step::Found => Ok(true),
        }
    }

    // Turns the engine until a check has found problems. Tells whether one was due.
    fn finds<N: Engine>(&mut self, engine: &mut N) -> Result<bool, NoMemory>
        requires in_step { InStep N.answer_of N.problems_of self.old (N.state engine.old) }
        requires checks { ChecksInStep N.problems_of self.old (N.state engine.old) }
        requires live { self.old.closed ≡ false }
        requires alone { asks_of self.old.outers ≡ [] }
        ensures in_step { InStep N.answer_of N.problems_of self.new (N.state engine.new) }
        ensures checks { OnOk result (ChecksInStep N.problems_of self.new (N.state engine.new)) }
        ensures same { IsSameButFound self.old self.new }
        ensures due { IfOk result (λ finds. finds ≡ some_of (due self.old.journal)) }
        ensures found { IfOk result (λ finds. is_some self.new.found ≡ finds) }
    {
        loop {
            match self.turn_check(engine)? {
                Step::GoesOn => {}
                Step::Found => return Ok(true),
                Step::NothingDue => return Ok(false),
            }
        }
    }

    // Checks the first file that is due, where the session is not shut down. Tells whether one was.
    fn check<N: Engine>(&mut self, engine: &mut N, hub: &mut Hub) -> Result<bool, NoMemory>
        requires in_step { InStep N.answer_of N.problems_of self.old (N.state engine.old) }
        requires checks { ChecksInStep N.problems_of self.old (N.state engine.old) }
        requires alone { asks_of self.old.outers ≡ [] }
        ensures in_step { InStep N.answer_of N.problems_of self.new (N.state engine.new) }
        ensures checks { OnOk result (ChecksInStep N.problems_of self.new (N.state engine.new)) }
        ensures same { IsSameButChecks self.old self.new }
        ensures done { OnOk result (self.new.journal ≡ check_done self.old.journal) }
        ensures begun { IfOk result (λ begun. begun ≡ check_begins self.old.journal) }
        ensures err { OnErr result (self.new.journal ≡ self.old.journal) }
        ensures told { KeepsTold (of_box told) (of_box faults) (findings N.problems_of self.old.journal) (reporters_of hub.old) (findings N.problems_of self.new.journal) (reporters_of hub.new) }
    {
        if self.is_closed() {
            return Ok(false);
        }
        if !self.finds(engine)? {
            return Ok(false);
        }
        match self.take_found() {
            None => Ok(false),
            Some(found) => {
                self.note(found, hub)?;
                Ok(true)
            }
        }
    }

    /// Checks until no file is due.
    pub fn check_all<N: Engine>(&mut self, engine: &mut N, hub: &mut Hub) -> Result<(), NoMemory>
        requires in_step { InStep N.answer_of N.problems_of self.old (N.state engine.old) }
        requires checks { ChecksInStep N.problems_of self.old (N.state engine.old) }
        requires alone { asks_of self.old.outers ≡ [] }
        ensures in_step { InStep N.answer_of N.problems_of self.new (N.state engine.new) }
        ensures checks { OnOk result (ChecksInStep N.problems_of self.new (N.state engine.new)) }
        ensures same { IsSameButChecks self.old self.new }
        ensures goes_on { ChecksOn self.old.journal self.new.journal }
        ensures over { OnOk result (check_begins self.new.journal ≡ false) }
        ensures told { KeepsTold (of_box told) (of_box faults) (findings N.problems_of self.old.journal) (reporters_of hub.old) (findings N.problems_of self.new.journal) (reporters_of hub.new) }
    {
        while self.check(engine, hub)? {}
        Ok(())
    }

    // Checks until the check of this number has begun, or none begins.
    fn check_to<N: Engine>(
        &mut self,
        engine: &mut N,
        hub: &mut Hub,
        next: u64,
        number: u32,
    ) -> Result<(), NoMemory>
        requires in_step { InStep N.answer_of N.problems_of self.old (N.state engine.old) }
        requires checks { ChecksInStep N.problems_of self.old (N.state engine.old) }
        requires line { top_work self.old.outers ≡ Checks next }
        ensures in_step { InStep N.answer_of N.problems_of self.new (N.state engine.new) }
        ensures checks { OnOk result (ChecksInStep N.problems_of self.new (N.state engine.new)) }
        ensures reaches { Reaches number self.old self.new }
        ensures come { OnOk result (HasCome (top_work self.new.outers) number) }
        ensures told { KeepsTold (of_box told) (of_box faults) (findings N.problems_of self.old.journal) (reporters_of hub.old) (findings N.problems_of self.new.journal) (reporters_of hub.new) }
    {
        let mut next = next;
        while self.begins(engine)? {
            if u64::from(number) <= next {
                self.set_work(Work::Check { number, turns: 0 });
                return Ok(());
            }
            self.check(engine, hub)?;
            next += 1;
            self.set_work(Work::Checks { next });
        }
        self.set_work(Work::Beside);
        Ok(())
    }

    // Ends the check of one number that has begun, and checks until that of another has.
    fn check_from<N: Engine>(
        &mut self,
        engine: &mut N,
        hub: &mut Hub,
        ended: u32,
        number: u32,
    ) -> Result<(), NoMemory>
        requires in_step { InStep N.answer_of N.problems_of self.old (N.state engine.old) }
        requires checks { ChecksInStep N.problems_of self.old (N.state engine.old) }
        requires line { (turns : ℕ) × (top_work self.old.outers ≡ Check ended turns) }
        requires other { ended ≢ number }
        ensures in_step { InStep N.answer_of N.problems_of self.new (N.state engine.new) }
        ensures checks { OnOk result (ChecksInStep N.problems_of self.new (N.state engine.new)) }
        ensures reaches { Reaches number self.old self.new }
        ensures come { OnOk result (HasCome (top_work self.new.outers) number) }
        ensures told { KeepsTold (of_box told) (of_box faults) (findings N.problems_of self.old.journal) (reporters_of hub.old) (findings N.problems_of self.new.journal) (reporters_of hub.new) }
    {
        let next = u64::from(ended) + 1;
        self.check(engine, hub)?;
        self.set_work(Work::Checks { next });
        self.check_to(engine, hub, next, number)
    }

    /// Checks until the check of this number has begun, or none begins, where the innermost line is one of checks.
    pub fn reach<N: Engine>(
        &mut self,
        engine: &mut N,
        hub: &mut Hub,
        number: u32,
    ) -> Result<(), NoMemory>
        requires in_step { InStep N.answer_of N.problems_of self.old (N.state engine.old) }
        requires checks { ChecksInStep N.problems_of self.old (N.state engine.old) }
        requires line { top_work self.old.outers ≢ Passed }
        ensures in_step { InStep N.answer_of N.problems_of self.new (N.state engine.new) }
        ensures checks { OnOk result (ChecksInStep N.problems_of self.new (N.state engine.new)) }
        ensures reaches { Reaches number self.old self.new }
        ensures come { OnOk result (HasCome (top_work self.new.outers) number) }
        ensures told { KeepsTold (of_box told) (of_box faults) (findings N.problems_of self.old.journal) (reporters_of hub.old) (findings N.problems_of self.new.journal) (reporters_of hub.new) }
    {
        match self.top_work() {
            Work::Checks { next } => self.check_to(engine, hub, next, number),
            Work::Check { number: ended, .. } if ended != number => {
                self.check_from(engine, hub, ended, number)
            }
            _ => Ok(()),
        }
    }

    /// Turns the check that has begun, until it had so many turns or has found problems.
    pub fn wait_in_check<N: Engine>(&mut self, engine: &mut N, until: u64) -> Result<(), NoMemory>
        requires in_step { InStep N.answer_of N.problems_of self.old (N.state engine.old) }
        requires checks { ChecksInStep N.problems_of self.old (N.state engine.old) }
        ensures in_step { InStep N.answer_of N.problems_of self.new (N.state engine.new) }
        ensures checks { OnOk result (ChecksInStep N.problems_of self.new (N.state engine.new)) }
        ensures same { IsSameButTurns self.old self.new }
    {
        if let Work::Check { number, turns } = self.top_work() {
            if self.is_closed() {
                return Ok(());
            }
            let turns = self.turns_of(engine, turns, until)?;
            self.set_work(Work::Check { number, turns });
        }
        Ok(())
    }

    // Turns a check until it had so many turns or has found problems. Gives how many it had.
    fn turns_of<N: Engine>(
        &mut self,
        engine: &mut N,
        turns: u64,
        until: u64,
    ) -> Result<u64, NoMemory>
        requires in_step { InStep N.answer_of N.problems_of self.old (N.state engine.old) }
        requires checks { ChecksInStep N.problems_of self.old (N.state engine.old) }
        requires live { self.old.closed ≡ false }
        requires alone { asks_of self.old.outers ≡ [] }
        ensures in_step { InStep N.answer_of N.problems_of self.new (N.state engine.new) }
        ensures checks { OnOk result (ChecksInStep N.problems_of self.new (N.state engine.new)) }
        ensures same { IsSameButFound self.old self.new }
    {
        let mut turns = turns;
        while turns < until {
            match self.turn_check(engine)? {
                Step::GoesOn => turns += 1,
                _ => break,
            }
        }
        Ok(turns)
    }
}
