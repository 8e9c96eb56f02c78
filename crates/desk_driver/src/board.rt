//! A desk as the driver of its engine sees it.
ghost use Rattle.std.specs.Prelude.{◌≡◌};
ghost use Rattle.desk_driver.specs.Seen.{settling_of, posted_of, noted_of};

use crate::serving::{Begun, Serving};
use ask_desk::Desk;
use ask_history::{Answer, Call, Effect};
use counting_word::Room;
use engine_driver::{Board, CheckNoted, News, Posted};
use pc_outside::Gate;
use pc_terms::{NoMemory, Problem, Row, Text};
use std::alloc::Global;
use std::sync::Wait;
use work_queue::Settling;

/// The engine's pass at a desk, and the gate at its safe points.
#[derive(Drop)]
pub struct DeskBoard<'a, R: Wait, B: Room, M: Begun, G: Gate> {
    pub rt: &'a R,
    pub alloc: Global,
    pub desk: &'a Desk<B>,
    pub gate: &'a mut G,
    pub serving: Serving<B, M>,
}

fn settling_of(found: Option<Answer>) -> Settling
    ensures { result ≡ settling_of found }
{
    match found {
        Some(answer) => Settling::Value(answer),
        None => Settling::NoMemory,
    }
}

fn posted_of(found: Result<Option<Call>, NoMemory>) -> Posted
    ensures { result ≡ posted_of found }
{
    match found {
        Ok(Some(call)) => Posted::Call(call),
        Ok(None) => Posted::Settled,
        Err(_) => Posted::NoMemory,
    }
}

fn noted_of(noted: ask_desk::CheckNoted) -> CheckNoted
    ensures { result ≡ noted_of noted }
{
    match noted {
        ask_desk::CheckNoted::Noted => CheckNoted::Noted,
        ask_desk::CheckNoted::ShutDown => CheckNoted::ShutDown,
        ask_desk::CheckNoted::NoMemory => CheckNoted::NoMemory,
    }
}

impl<R: Wait, B: Room, M: Begun, G: Gate> Board for DeskBoard<'_, R, B, M, G> {
    ghost use Rattle.desk_driver.specs.Seen.{seen_history};

    ghost history = { λ board. seen_history board.serving.seen };

    fn look(&mut self, opened: &[u64]) -> News {
        let found = self.serving.look_over(self.rt, self.desk, opened);
        News {
            accepted: found.0.accepted,
            is_closed: found.0.is_closed,
            cancelled: found.1,
        }
    }

    fn await_calls(&mut self, count: u64) {
        self.serving.await_calls(self.rt, self.desk, count);
    }

    fn posted(&mut self, ticket: u64) -> Posted {
        let found = self.serving.posted(self.rt, self.alloc, self.desk, ticket);
        posted_of(found)
    }

    fn settle(&mut self, ticket: u64, found: Option<Answer>) -> Effect {
        let what = settling_of(found);
        self.serving.settle(self.rt, self.desk, ticket, what)
    }

    fn check(&mut self, file: &Text, problems: &Row<Problem>) -> CheckNoted {
        let noted = self.serving.check(self.rt, self.desk, file, problems);
        noted_of(noted)
    }

    fn at_safe_point(&mut self) {
        self.gate.at_safe_point(self.rt);
        self.serving.law_legal();
    }
}
