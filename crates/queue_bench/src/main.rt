//! Times a queue: `queue_bench ROUNDS SESSIONS` runs that many sessions, of that many rounds. A round posts a reload of a
//! small text and an ask, and every fourth round cancels its ask. Then all calls are settled in order.
#![tactic(auto)]

mod session;

use session::Counts;
use std::env;
use std::process::ExitCode;
use std::rt::Env;

fn main(rt: HostRuntime) -> ExitCode {
    let Some((rounds, sessions)) = numbers(&rt) else {
        return usage(&rt);
    };
    let mut last = Counts::default();
    for _ in 0..sessions {
        match session::run(rt.alloc(), rounds) {
            Ok(counts) => last = counts,
            Err(_) => return ExitCode::FAILURE,
        }
    }
    match last.print(&rt) {
        Ok(()) => ExitCode::SUCCESS,
        Err(_) => ExitCode::FAILURE,
    }
}

/// The two words of the command line.
fn numbers<R: Env + Alloc>(rt: &R) -> Option<(u64, u64)> {
    let mut words = env::args(rt).ok()?;
    let _program = words.next()?;
    let rounds = words.next()?.as_str().parse().ok()?;
    let sessions = words.next()?.as_str().parse().ok()?;
    match words.next() {
        None => Some((rounds, sessions)),
        Some(_) => None,
    }
}

fn usage(rt: &impl Eprint) -> ExitCode {
    let _ = eprintln!(rt; "usage: queue_bench ROUNDS SESSIONS");
    ExitCode::from(2)
}
