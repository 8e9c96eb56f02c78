//! Calls that an engine is fed, and asks that it works on.

ghost use Rattle.std.specs.Prelude.{◌≡◌, ℕ, ◌<◌, ◌||◌, if◌then◌else◌, ◌++◌, ◌∷◌, [], length, Some, None, Ok, Err, true, false, IfSome, IfNone, OnOk, OnErr};
ghost use Rattle.ask_history.specs.Sources.{is_mutation};
ghost use Rattle.ask_history.specs.Journal.{findings};
ghost use Rattle.ask_history.specs.Engine.{IsOnTop, is_staged, is_open_in, settled_state};
ghost use Rattle.ask_history.specs.declared.engine.Effect.TheVariants.{Dropped};
ghost use Rattle.ask_history.specs.declared.calls.Call.{Call};
ghost use Rattle.ask_history.specs.declared.events.Event.TheVariants.{Settle};
ghost use Rattle.ask_history.specs.declared.script.Order.TheVariants as order;
ghost use Rattle.work_queue.specs.Queue.{mark_of};
ghost use Rattle.schedule_player.specs.Owed.{CanPost};
ghost use Rattle.schedule_player.specs.Around.{around, top_work, with_work};
ghost use Rattle.schedule_player.specs.InStep.{InStep, ChecksInStep};
ghost use Rattle.schedule_player.specs.Steps.{IsPlaced, Finds, IsRight, top_ask, Ends, OnlySettles, PlaysOrder, IsSameButTurns};
ghost use Rattle.schedule_player.specs.declared.outers.Work.TheVariants.{Passed, Ask};

use crate::outers::Work;
use crate::session::Session;
use ask_history::{Answer, Call, Effect, Engine, Fed, Turn};
use pc_terms::NoMemory;
use work_queue::Settling;

// One turn of the ask on top. Tells what was found for it, where it does not go on.
fn turn_on_top<N: Engine>(engine: &mut N) -> Option<Settling>
    requires { (N.state engine.old).staged ≡ None }
    ensures same { (ask : ℕ × Call) → IsOnTop (N.state engine.old).asks ask → N.state engine.new ≡ N.state engine.old }
    ensures finds { (ask : ℕ × Call) → IsOnTop (N.state engine.old).asks ask → IfSome result (λ what. Finds what (N.answer_of (N.state engine.old).sources ask.1)) }
    ensures staged { (N.state engine.new).staged ≡ None }
    ensures lowers { IfNone result (N.left engine.new < N.left engine.old) }
{
    match engine.turn(1) {
        Turn::Safe => None,
        Turn::Ready(_, answer) => Some(Settling::Value(answer)),
        _ => Some(Settling::NoMemory),
    }
}

// What the engine finds for the ask on top.
fn answer_of<N: Engine>(engine: &mut N) -> Settling
    requires { (N.state engine.old).staged ≡ None }
    ensures same { (ask : ℕ × Call) → IsOnTop (N.state engine.old).asks ask → N.state engine.new ≡ N.state engine.old }
    ensures finds { (ask : ℕ × Call) → IsOnTop (N.state engine.old).asks ask → Finds result (N.answer_of (N.state engine.old).sources ask.1) }
{
    loop {
        if let Some(found) = turn_on_top(engine) {
            return found;
        }
    }
}

// Turns the ask on top until it had so many turns, or is ready. Gives how many it had.
fn turn_ask<N: Engine>(engine: &mut N, turns: u64, until: u64) -> u64
    requires { (N.state engine.old).staged ≡ None }
    ensures { (ask : ℕ × Call) → IsOnTop (N.state engine.old).asks ask → N.state engine.new ≡ N.state engine.old }
{
    let mut turns = turns;
    while turns < until {
        if turn_on_top(engine).is_some() {
            break;
        }
        turns += 1;
    }
    turns
}

// Takes an ask off the engine, where it has it.
fn take_off<N: Engine>(engine: &mut N, ticket: u64, is_fed: bool)
    requires { is_fed ≡ true → (is_staged (N.state engine.old).staged ticket || is_open_in (N.state engine.old).asks ticket) ≡ true }
    ensures { N.state engine.new ≡ (if is_fed then settled_state (N.state engine.old) ticket Dropped else N.state engine.old) }
{
    if is_fed {
        engine.settled(ticket, Effect::Dropped);
    }
}

fn is_mutation(call: &Call) -> bool
    ensures { result ≡ is_mutation call.now }
{
    matches!(call, Call::Reload(_) | Call::Remove(_))
}

impl Session {
    // What is found for the innermost line, an open ask. One that is cancelled needs no more turns.
    fn found_for<N: Engine>(&self, engine: &mut N, ticket: u64, is_fed: bool) -> Settling
        requires in_step { InStep N.answer_of N.problems_of self.now (N.state engine.old) }
        requires live { self.now.closed ≡ false }
        requires top { top_ask self.now.outers ≡ Some (ticket, is_fed) }
        ensures right { IsRight N.answer_of self.now.journal ticket result }
        ensures same { N.state engine.new ≡ N.state engine.old }
    {
        if !is_fed {
            Settling::NoMemory
        } else if self.is_cancelled(ticket) {
            Settling::Value(Answer::Cancelled)
        } else {
            answer_of(engine)
        }
    }

    // Settles the innermost line, an open ask, and takes it off.
    fn settle_ask<N: Engine>(&mut self, engine: &mut N, ticket: u64, is_fed: bool, what: Settling)
        requires in_step { InStep N.answer_of N.problems_of self.old (N.state engine.old) }
        requires live { self.old.closed ≡ false }
        requires top { top_ask self.old.outers ≡ Some (ticket, is_fed) }
        requires right { IsRight N.answer_of self.old.journal ticket what }
        ensures in_step { InStep N.answer_of N.problems_of self.new (N.state engine.new) }
        ensures checks { ChecksInStep N.problems_of self.old (N.state engine.old) → ChecksInStep N.problems_of self.new (N.state engine.new) }
        ensures journal { self.new.journal ≡ self.old.journal ++ Settle ticket (mark_of what) ∷ [] }
        ensures outers { self.new.outers ≡ around self.old.outers }
        ensures tickets { self.new.tickets ≡ self.old.tickets }
    {
        self.settle(ticket, what);
        take_off(engine, ticket, is_fed);
        self.pop();
    }

    /// Ends the innermost line, an ask, when its inner lines are played: it is settled where it is open still.
    pub fn finish_ask<N: Engine>(&mut self, engine: &mut N, ticket: u64, is_fed: bool)
        requires in_step { InStep N.answer_of N.problems_of self.old (N.state engine.old) }
        requires top { top_ask self.old.outers ≡ Some (ticket, is_fed) }
        ensures in_step { InStep N.answer_of N.problems_of self.new (N.state engine.new) }
        ensures checks { ChecksInStep N.problems_of self.old (N.state engine.old) → ChecksInStep N.problems_of self.new (N.state engine.new) }
        ensures ends { Ends (top_work self.old.outers) self.old.journal self.new.journal }
        ensures settles { OnlySettles self.old.journal self.new.journal }
        ensures outers { self.new.outers ≡ around self.old.outers }
        ensures tickets { self.new.tickets ≡ self.old.tickets }
    {
        if self.is_closed() {
            self.pop();
        } else {
            let what = self.found_for(engine, ticket, is_fed);
            self.settle_ask(engine, ticket, is_fed, what);
        }
    }

    /// Takes the innermost line off, an ask, and settles it as out of memory where it is open still.
    pub fn give_up_ask<N: Engine>(&mut self, engine: &mut N, ticket: u64, is_fed: bool)
        requires in_step { InStep N.answer_of N.problems_of self.old (N.state engine.old) }
        requires top { top_ask self.old.outers ≡ Some (ticket, is_fed) }
        ensures in_step { InStep N.answer_of N.problems_of self.new (N.state engine.new) }
        ensures settles { OnlySettles self.old.journal self.new.journal }
        ensures outers { self.new.outers ≡ around self.old.outers }
    {
        if self.is_closed() {
            self.pop();
        } else {
            self.settle_ask(engine, ticket, is_fed, Settling::NoMemory);
        }
    }

    /// Turns the innermost line, where it is an open ask, until it had so many turns or is ready.
    pub fn wait_in_ask<N: Engine>(&mut self, engine: &mut N, until: u64)
        requires in_step { InStep N.answer_of N.problems_of self.old (N.state engine.old) }
        ensures in_step { InStep N.answer_of N.problems_of self.new (N.state engine.new) }
        ensures checks { ChecksInStep N.problems_of self.old (N.state engine.old) → ChecksInStep N.problems_of self.new (N.state engine.new) }
        ensures same { IsSameButTurns self.old self.new }
    {
        if let Work::Ask {
            ticket,
            is_fed,
            turns,
        } = self.top_work()
        {
            if is_fed && !self.is_closed() && !self.is_cancelled(ticket) {
                let turns = turn_ask(engine, turns, until);
                self.set_work(Work::Ask {
                    ticket,
                    is_fed,
                    turns,
                });
            }
        }
    }

    /// Plays a call line where the session is not shut down. A mutation is settled at once; of an ask, the lines under it are
    /// to be played.
    pub fn play_accepted<N: Engine>(&mut self, engine: &mut N, call: Call) -> Result<(), NoMemory>
        requires in_step { InStep N.answer_of N.problems_of self.old (N.state engine.old) }
        requires checks { ChecksInStep N.problems_of self.old (N.state engine.old) }
        requires live { self.old.closed ≡ false }
        requires can { CanPost call }
        requires placed { IsPlaced self.old.outers }
        ensures in_step { InStep N.answer_of N.problems_of self.new (N.state engine.new) }
        ensures checks { ChecksInStep N.problems_of self.new (N.state engine.new) }
        ensures plays { OnOk result (PlaysOrder (order.Call call) self.old self.new) }
        ensures err { OnErr result (self.new ≡ self.old) }
        ensures found { findings N.problems_of self.new.journal ≡ findings N.problems_of self.old.journal }
    {
        let mutates = is_mutation(&call);
        let ticket = self.accept(call)?;
        match engine.feed(ticket, self.call(ticket)) {
            Fed::Taken => self.set_work(Work::Ask {
                ticket,
                is_fed: true,
                turns: 0,
            }),
            Fed::Staged => {
                let effect = self.settle(ticket, Settling::Value(Answer::Done));
                engine.settled(ticket, effect);
                self.forget_found();
            }
            Fed::NoMemory if mutates => {
                self.settle(ticket, Settling::NoMemory);
            }
            Fed::NoMemory => self.set_work(Work::Ask {
                ticket,
                is_fed: false,
                turns: 0,
            }),
        }
        Ok(())
    }
}
