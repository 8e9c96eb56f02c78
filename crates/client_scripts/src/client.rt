//! The client: it plays the lines of its script, and keeps what it holds of its accepted calls.
ghost use Rattle.std.specs.Prelude.{◌≡◌, ◌≤◌, ◌<◌, ◌+◌, ◌^◌, [], ◌∷◌, ◌++◌, take, length, slice_get, Some, true, false, IfOk, IfErr, OnOk, IfSome, IfNone, IsTrue};
ghost use Rattle.std.specs.List.{list_all, filter_map, cons_option};
ghost use Rattle.ask_history.specs.Engine.{has_file_names};
ghost use Rattle.ask_history.specs.Legal.{is_legal};
ghost use Rattle.work_queue.specs.Reloads.{reloaded_by};
ghost use Rattle.client_scripts.specs.Lines.{AreMeant, AllMayPost};
ghost use Rattle.client_scripts.specs.History.{journal_of, has_entry_of};
ghost use Rattle.client_scripts.specs.Passes.{MayStop};
ghost use Rattle.client_scripts.specs.Runs.{Runs, HasEnded, AreAnswers};
ghost use Rattle.client_scripts.specs.Holding.{IsHolding, IsPlaying, CanReceive, Gives, Posts, Rests, CancelsAt, ReceivesAt, HasStopped, is_had, had_answer};

use crate::pass::ClientPass;
use ask_history::{Answer, Call, Line, Order, Script};
use pc_terms::{NoMemory, Row};
use std::alloc::Global;
use std::mem;
use work_queue::PostRefused;

/// What a client holds of an accepted call.
#[derive(Drop)]
pub(crate) enum Held<T> {
    /// The right to its answer.
    Due(T),
    Had(Answer),
}

/// A client that plays its script.
#[derive(Drop)]
pub(crate) struct Client<T> {
    /// The number of the next call line.
    pub(crate) next: u64,
    /// What it holds of its accepted calls, in order.
    pub(crate) held: Vec<Held<T>>,
}

// The answer of a call, which is received where it is not there yet.
fn answer_to<P: ClientPass>(pass: &mut P, held: Held<P::Ticket>) -> Answer
    requires { CanReceive P.number_of (P.state pass.old) held }
    ensures { Gives P.number_of (P.state pass.old) (P.state pass.new) held result }
{
    match held {
        Held::Due(ticket) => pass.receive(ticket),
        Held::Had(answer) => answer,
    }
}

// One answer more, where it is there.
fn push_had<T: Drop>(answers: &mut Row<Answer>, one: Held<T>) -> Result<(), NoMemory>
    ensures { OnOk result (answers.new ≡ answers.old ++ cons_option (had_answer one) []) }
{
    match one {
        Held::Had(answer) => answers.push(answer),
        Held::Due(_) => Ok(()),
    }
}

impl<T: Drop> Client<T> {
    // Posts the call of the next call line.
    fn call<P: ClientPass<Ticket = T>>(
        &mut self,
        pass: &mut P,
        call: &Call,
    ) -> Result<(), PostRefused>
        requires names { has_file_names call.now ≡ true }
        requires few { length (reloaded_by call.now) < 2 ^ 32 }
        requires fits { self.old.next + 1 < 2 ^ 64 }
        ensures ok { IfOk result (λ done. Posts P.number_of (P.state pass.old) (P.state pass.new) self.old self.new call.now) }
        ensures err { IfErr result (λ why. Rests (P.state pass.old) (P.state pass.new)) }
        ensures reason { IfErr result MayStop }
    {
        if self.held.reserve(1).is_err() {
            return Err(PostRefused::NoMemory);
        }
        match pass.post(self.next, call) {
            Ok(ticket) => self.held.push_reserved(Held::Due(ticket)),
            Err(PostRefused::Closed(_)) => {}
            Err(why) => return Err(why),
        }
        self.next += 1;
        Ok(())
    }

    // Cancels the call at an index, where its answer is not there.
    fn cancel<P: ClientPass<Ticket = T>>(&self, pass: &mut P, index: usize)
        requires there { index < length self.now.held.items }
        requires holding { IsHolding P.number_of (P.state pass.old) self.now.held.items }
        ensures { CancelsAt (P.state pass.old) (P.state pass.new) index }
    {
        match &self.held[index] {
            Held::Due(ticket) => pass.cancel(ticket),
            Held::Had(_) => {}
        }
    }

    // Waits for the answer of the call at an index, where it is not there.
    fn receive<P: ClientPass<Ticket = T>>(&mut self, pass: &mut P, index: usize)
        requires there { index < length self.old.held.items }
        requires holding { IsHolding P.number_of (P.state pass.old) self.old.held.items }
        ensures holding { IsHolding P.number_of (P.state pass.new) self.new.held.items }
        ensures received { ReceivesAt (P.state pass.old) (P.state pass.new) index }
        ensures next { self.new.next ≡ self.old.next }
        ensures length { length self.new.held.items ≡ length self.old.held.items }
        ensures had { list_all is_had (take index self.old.held.items) ≡ true → list_all is_had (take (index + 1) self.new.held.items) ≡ true }
    {
        let held = mem::replace(&mut self.held[index], Held::Had(Answer::NoMemory));
        let answer = answer_to(pass, held);
        self.held[index] = Held::Had(answer);
    }

    // The index of the accepted call with a number; none where it was refused.
    fn index_of(&self, number: u32) -> Option<usize>
        ensures some { IfSome result (λ index. (index + 1 ≡ number) × (index < length self.now.held.items)) }
        ensures none { IfNone result (0 < number → length self.now.held.items < number) }
    {
        let number = number as usize;
        if 0 < number && number <= self.held.len() {
            Some(number - 1)
        } else {
            None
        }
    }

    // Plays a line.
    fn step<P: ClientPass<Ticket = T>>(
        &mut self,
        pass: &mut P,
        lines: &[Line],
        at: usize,
    ) -> Result<(), PostRefused>
        requires there { at < length lines.now }
        requires short { length lines.now < 2 ^ 63 }
        requires meant { AreMeant lines.now }
        requires may { AllMayPost lines.now }
        requires playing { IsPlaying P.number_of (P.state pass.old).number lines.now (take at lines.now) (P.state pass.old) self.old }
        ensures ok { IfOk result (λ done. IsPlaying P.number_of (P.state pass.old).number lines.now (take (at + 1) lines.now) (P.state pass.new) self.new) }
        ensures err { IfErr result (λ why. HasStopped (P.state pass.old).number lines.now (P.state pass.new)) }
        ensures reason { IfErr result MayStop }
    {
        match &lines[at].order {
            Order::Call(call) => self.call(pass, call),
            Order::Cancel(number) => match self.index_of(*number) {
                Some(index) => {
                    self.cancel(pass, index);
                    Ok(())
                }
                None => Ok(()),
            },
            Order::Wait(number) => match self.index_of(*number) {
                Some(index) => {
                    self.receive(pass, index);
                    Ok(())
                }
                None => Ok(()),
            },
            Order::Close => {
                pass.close();
                Ok(())
            }
            Order::Idle => Ok(()),
        }
    }

    // Waits for all answers that are not there, in the order of the calls.
    fn receive_all<P: ClientPass<Ticket = T>>(&mut self, pass: &mut P)
        requires holding { IsHolding P.number_of (P.state pass.old) self.old.held.items }
        ensures holding { IsHolding P.number_of (P.state pass.new) self.new.held.items }
        ensures had { list_all is_had self.new.held.items ≡ true }
        ensures rests { Rests (P.state pass.old) (record (P.state pass.new) { got = (P.state pass.old).got }) }
    {
        for index in 0..self.held.len() {
            self.receive(pass, index);
        }
    }

    // The answers that are there, in order.
    fn answers(self, alloc: Global) -> Result<Row<Answer>, NoMemory>
        ensures { IfOk result (λ answers. answers ≡ filter_map had_answer self.held.items) }
    {
        let Client { next: _, held } = self;
        let mut answers = Row::new(alloc);
        for one in held {
            push_had(&mut answers, one)?;
        }
        Ok(answers)
    }
}

/// Plays a script to its end, and gives the answers of its accepted calls in order. It stops at the first call that is refused
/// for another reason than that the session is shut down, and tells that reason.
pub fn play<P: ClientPass>(
    alloc: Global,
    pass: &mut P,
    script: &Script,
) -> Result<Row<Answer>, PostRefused>
    requires meant { AreMeant script.now.lines }
    requires may { AllMayPost script.now.lines }
    requires fresh { has_entry_of (P.state pass.old).number (P.state pass.old).history ≡ false }
    requires legal { IsTrue (is_legal (journal_of (P.state pass.old).history)) }
    ensures named { (P.state pass.new).number ≡ (P.state pass.old).number }
    ensures runs { Runs (P.state pass.old).number script.now.lines (P.state pass.new).history }
    ensures ended { IfOk result (λ answers. HasEnded (P.state pass.old).number script.now.lines (P.state pass.new).history) }
    ensures answers { IfOk result (AreAnswers (P.state pass.old).number (P.state pass.new).history) }
    ensures reason { IfErr result MayStop }
{
    let mut client = Client {
        next: 1,
        held: Vec::new(alloc),
    };
    let lines = script.lines.as_slice();
    for at in 0..lines.len() {
        client.step(pass, lines, at)?;
    }
    client.receive_all(pass);
    match client.answers(alloc) {
        Ok(answers) => Ok(answers),
        Err(NoMemory) => Err(PostRefused::NoMemory),
    }
}
