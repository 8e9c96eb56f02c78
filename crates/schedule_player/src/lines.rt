//! Lines that are played, one after another.

ghost use Rattle.std.specs.Prelude.{◌≡◌, ◌≢◌, ℕ, ◌<◌, ◌++◌, ◌∷◌, [], List, length, Some, None, Ok, Err, true, false, IfOk, OnOk, OnErr};
ghost use Rattle.ask_history.specs.Journal.{findings};
ghost use Rattle.ask_history.specs.Nested.{Nested};
ghost use Rattle.ask_history.specs.declared.script.Line.{Line};
ghost use Rattle.ask_history.specs.declared.script.Order.TheVariants as order;
ghost use Rattle.report_hub.specs.Hub.{reporters_of, of_box};
ghost use Rattle.schedule_player.specs.Owed.{CanPost, CanPlay};
ghost use Rattle.schedule_player.specs.Reporting.{KeepsTold};
ghost use Rattle.schedule_player.specs.Around.{ComesAt, LeadsTo, around, first_of, onto, top_work, with_work};
ghost use Rattle.schedule_player.specs.InStep.{InStep, ChecksInStep};
ghost use Rattle.schedule_player.specs.Steps.{IsPlaced, PlaysOrder, Ends, EndsTop, KeepsTop, IsOfChecks, EndsTo, IsUnder, Reaches, HasCome, KeepsNext, PlaysLine, PassesOver, idle_work};
ghost use Rattle.ask_history.specs.Closing.{after_close};
ghost use Rattle.ask_history.specs.Engine.{stopped_state};
ghost use Rattle.schedule_player.specs.declared.outers.Work.TheVariants.{Passed};

use crate::outers::Work;
use crate::session::Session;
use ask_history::{Call, Engine, Line, Order};
use pc_terms::NoMemory;
use report_hub::Hub;

impl Session {
    // Ends the innermost line, one of checks: the files that are due are checked.
    fn finish_checks<N: Engine>(&mut self, engine: &mut N, hub: &mut Hub) -> Result<(), NoMemory>
        requires in_step { InStep N.answer_of N.problems_of self.old (N.state engine.old) }
        requires checks { ChecksInStep N.problems_of self.old (N.state engine.old) }
        requires line { IsOfChecks (top_work self.old.outers) }
        ensures in_step { InStep N.answer_of N.problems_of self.new (N.state engine.new) }
        ensures checks { OnOk result (ChecksInStep N.problems_of self.new (N.state engine.new)) }
        ensures ends { OnOk result (EndsTop self.old self.new) }
        ensures keeps { OnErr result (KeepsTop self.old self.new) }
        ensures told { KeepsTold (of_box told) (of_box faults) (findings N.problems_of self.old.journal) (reporters_of hub.old) (findings N.problems_of self.new.journal) (reporters_of hub.new) }
    {
        match self.check_all(engine, hub) {
            Ok(()) => {
                self.pop();
                Ok(())
            }
            Err(none) => Err(none),
        }
    }

    // Ends the innermost line: the lines under it are all played.
    fn finish<N: Engine>(
        &mut self,
        engine: &mut N,
        hub: &mut Hub,
        work: Work,
    ) -> Result<(), NoMemory>
        requires in_step { InStep N.answer_of N.problems_of self.old (N.state engine.old) }
        requires checks { ChecksInStep N.problems_of self.old (N.state engine.old) }
        requires top { top_work self.old.outers ≡ work }
        ensures in_step { InStep N.answer_of N.problems_of self.new (N.state engine.new) }
        ensures checks { OnOk result (ChecksInStep N.problems_of self.new (N.state engine.new)) }
        ensures ends { OnOk result (EndsTop self.old self.new) }
        ensures keeps { OnErr result (KeepsTop self.old self.new) }
        ensures told { KeepsTold (of_box told) (of_box faults) (findings N.problems_of self.old.journal) (reporters_of hub.old) (findings N.problems_of self.new.journal) (reporters_of hub.new) }
    {
        match work {
            Work::Checks { .. } => return self.finish_checks(engine, hub),
            Work::Check { .. } => return self.finish_checks(engine, hub),
            Work::Ask { ticket, is_fed, .. } => self.finish_ask(engine, ticket, is_fed),
            Work::Beside => self.pop(),
            Work::Passed => self.pop(),
        }
        Ok(())
    }

    /// Ends the lines under which one of this level cannot stand.
    pub fn finish_to<N: Engine>(
        &mut self,
        engine: &mut N,
        hub: &mut Hub,
        level: u32,
    ) -> Result<(), NoMemory>
        requires in_step { InStep N.answer_of N.problems_of self.old (N.state engine.old) }
        requires checks { ChecksInStep N.problems_of self.old (N.state engine.old) }
        ensures in_step { InStep N.answer_of N.problems_of self.new (N.state engine.new) }
        ensures checks { OnOk result (ChecksInStep N.problems_of self.new (N.state engine.new)) }
        ensures ends { EndsTo level self.old self.new }
        ensures under { OnOk result (IsUnder self.new.outers level) }
        ensures told { KeepsTold (of_box told) (of_box faults) (findings N.problems_of self.old.journal) (reporters_of hub.old) (findings N.problems_of self.new.journal) (reporters_of hub.new) }
    {
        while let Some(outer) = self.top() {
            if outer.level < level {
                break;
            }
            self.finish(engine, hub, outer.work)?;
        }
        Ok(())
    }

    // Lets the innermost line come to where a line under it is to be played.
    fn arrive<N: Engine>(
        &mut self,
        engine: &mut N,
        hub: &mut Hub,
        check: u32,
        turn: u32,
    ) -> Result<(), NoMemory>
        requires in_step { InStep N.answer_of N.problems_of self.old (N.state engine.old) }
        requires checks { ChecksInStep N.problems_of self.old (N.state engine.old) }
        requires line { top_work self.old.outers ≢ Passed }
        ensures in_step { InStep N.answer_of N.problems_of self.new (N.state engine.new) }
        ensures checks { OnOk result (ChecksInStep N.problems_of self.new (N.state engine.new)) }
        ensures reaches { Reaches check self.old self.new }
        ensures come { OnOk result (HasCome (top_work self.new.outers) check) }
        ensures told { KeepsTold (of_box told) (of_box faults) (findings N.problems_of self.old.journal) (reporters_of hub.old) (findings N.problems_of self.new.journal) (reporters_of hub.new) }
    {
        self.reach(engine, hub, check)?;
        self.wait_in_ask(engine, u64::from(turn));
        self.wait_in_check(engine, u64::from(turn))?;
        Ok(())
    }

    // Plays a call line. What stands under it is played in its place where it is refused.
    fn play_call<N: Engine>(&mut self, engine: &mut N, call: Call) -> Result<(), NoMemory>
        requires in_step { InStep N.answer_of N.problems_of self.old (N.state engine.old) }
        requires checks { ChecksInStep N.problems_of self.old (N.state engine.old) }
        requires can { CanPost call }
        requires placed { IsPlaced self.old.outers }
        ensures in_step { InStep N.answer_of N.problems_of self.new (N.state engine.new) }
        ensures checks { ChecksInStep N.problems_of self.new (N.state engine.new) }
        ensures plays { OnOk result (PlaysOrder (order.Call call) self.old self.new) }
        ensures err { OnErr result (self.new ≡ self.old) }
        ensures found { findings N.problems_of self.new.journal ≡ findings N.problems_of self.old.journal }
    {
        if self.is_closed() {
            self.refuse()?;
            self.set_work(Work::Beside);
            Ok(())
        } else {
            self.play_accepted(engine, call)
        }
    }

    // Files are checked where no ask is open and the session is not shut down.
    fn play_idle(&mut self)
        ensures { self.new ≡ record self.old { outers = with_work (idle_work self.old) self.old.outers } }
    {
        if self.is_closed() || self.is_under_ask() {
            self.set_work(Work::Beside);
        } else {
            self.set_work(Work::Checks { next: 0 });
        }
    }

    fn play_close<N: Engine>(&mut self, engine: &mut N)
        ensures session { self.new ≡ record self.old { journal = after_close self.old.journal; closed = true } }
        ensures engine { N.state engine.new ≡ stopped_state (N.state engine.old) }
    {
        engine.stop();
        self.close();
    }

    // Plays what the innermost line asks for.
    fn play_order<N: Engine>(&mut self, engine: &mut N, order: Order) -> Result<(), NoMemory>
        requires in_step { InStep N.answer_of N.problems_of self.old (N.state engine.old) }
        requires checks { ChecksInStep N.problems_of self.old (N.state engine.old) }
        requires can { CanPlay order }
        requires placed { IsPlaced self.old.outers }
        ensures in_step { InStep N.answer_of N.problems_of self.new (N.state engine.new) }
        ensures checks { ChecksInStep N.problems_of self.new (N.state engine.new) }
        ensures plays { OnOk result (PlaysOrder order self.old self.new) }
        ensures err { OnErr result (self.new ≡ self.old) }
        ensures found { findings N.problems_of self.new.journal ≡ findings N.problems_of self.old.journal }
    {
        match order {
            Order::Call(call) => return self.play_call(engine, call),
            Order::Cancel(number) => self.cancel(number),
            Order::Close => self.play_close(engine),
            Order::Wait(_) => {}
            Order::Idle => self.play_idle(),
        }
        Ok(())
    }

    // A line that is passed over still has its number.
    fn pass_over(&mut self, order: Order) -> Result<(), NoMemory>
        ensures { PassesOver result order self.old self.new }
    {
        match order {
            Order::Call(_call) => self.refuse(),
            _ => Ok(()),
        }
    }

    // Plays a line to whose place the innermost one has come.
    fn play_at<N: Engine>(
        &mut self,
        engine: &mut N,
        level: u32,
        order: Order,
    ) -> Result<(), NoMemory>
        requires in_step { InStep N.answer_of N.problems_of self.old (N.state engine.old) }
        requires checks { ChecksInStep N.problems_of self.old (N.state engine.old) }
        requires can { CanPlay order }
        ensures in_step { InStep N.answer_of N.problems_of self.new (N.state engine.new) }
        ensures checks { OnOk result (ChecksInStep N.problems_of self.new (N.state engine.new)) }
        ensures plays { OnOk result ((line : Line) → line.level ≡ level → line.order ≡ order → IsUnder self.old.outers level → HasCome (top_work self.old.outers) line.check → PlaysLine line self.old self.new) }
        ensures err { OnErr result (self.new ≡ self.old) }
        ensures found { findings N.problems_of self.new.journal ≡ findings N.problems_of self.old.journal }
    {
        self.push(level)?;
        match self.play_order(engine, order) {
            Ok(()) => Ok(()),
            Err(none) => {
                self.pop();
                Err(none)
            }
        }
    }

    /// Plays a line where it stands.
    pub fn play_line<N: Engine>(
        &mut self,
        engine: &mut N,
        hub: &mut Hub,
        line: Line,
    ) -> Result<(), NoMemory>
        requires in_step { InStep N.answer_of N.problems_of self.old (N.state engine.old) }
        requires checks { ChecksInStep N.problems_of self.old (N.state engine.old) }
        requires can { CanPlay line.order }
        ensures in_step { InStep N.answer_of N.problems_of self.new (N.state engine.new) }
        ensures checks { OnOk result (ChecksInStep N.problems_of self.new (N.state engine.new)) }
        ensures plays { OnOk result (PlaysLine line self.old self.new) }
        ensures keeps { OnErr result (KeepsNext line self.old self.new) }
        ensures told { KeepsTold (of_box told) (of_box faults) (findings N.problems_of self.old.journal) (reporters_of hub.old) (findings N.problems_of self.new.journal) (reporters_of hub.new) }
    {
        let Line {
            level,
            check,
            turn,
            order,
        } = line;
        self.finish_to(engine, hub, level)?;
        if self.is_passing_over() {
            self.pass_over(order)?;
            return Ok(());
        }
        self.arrive(engine, hub, check, turn)?;
        match self.play_at(engine, level, order) {
            Ok(()) => Ok(()),
            Err(none) => Err(none),
        }
    }

    // Whether the lines under the innermost one are passed over.
    fn is_passing_over(&self) -> bool
        ensures passed { result ≡ true → top_work self.now.outers ≡ Passed }
        ensures other { result ≡ false → top_work self.now.outers ≢ Passed }
    {
        match self.top_work() {
            Work::Ask { .. } => false,
            Work::Checks { .. } => false,
            Work::Check { .. } => false,
            Work::Beside => false,
            Work::Passed => true,
        }
    }
}
