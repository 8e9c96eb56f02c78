use std::sync::{Barrier, Wait};

/// What is called at each safe point of an engine that serves: it has typed a tree, and goes on.
pub trait Gate {
    /// It may wait, so that a test holds the engine there.
    fn at_safe_point<R: Wait>(&mut self, rt: &R);
}

/// The gate of a program, which holds nobody.
#[derive(Clone, Copy, Debug)]
pub struct OpenGate {}

impl Gate for OpenGate {
    fn at_safe_point<R: Wait>(&mut self, _rt: &R) {}
}

/// The gate of a test. It holds the engine at its first safe point, from one meeting with another thread to the next.
#[derive(Drop)]
pub struct HoldingGate<'a> {
    meetings: &'a Barrier,
    held: bool,
}

impl<'a> HoldingGate<'a> {
    /// A gate that has held nobody. Each of the two meetings is a wait of both threads at the barrier, which is one for two.
    pub fn new(meetings: &'a Barrier) -> HoldingGate<'a> {
        HoldingGate {
            meetings,
            held: false,
        }
    }
}

impl Gate for HoldingGate<'_> {
    fn at_safe_point<R: Wait>(&mut self, rt: &R) {
        if self.held {
            return;
        }
        self.held = true;
        self.meetings.wait(rt);
        self.meetings.wait(rt);
    }
}
