//! Times completions: `completion_bench SHAPE NODES TIMES` completes that many nodes of a graph, that many times, each time
//! with a new memo. SHAPE is `chain`, where each node needs the next one and the first is asked for first, or `tree`, where
//! each node needs the one half as far, and the last is asked for first.
#![tactic(auto)]

mod counts;
mod shapes;

use counts::Counts;
use shapes::Shape;
use std::env;
use std::process::ExitCode;
use std::rt::Env;

fn main(rt: HostRuntime) -> ExitCode {
    let Some((shape, nodes, times)) = words(&rt) else {
        return usage(&rt);
    };
    let Ok(counts) = counts::run(rt.alloc(), shape, nodes, times) else {
        return ExitCode::FAILURE;
    };
    match counts.print(&rt) {
        Ok(()) => ExitCode::SUCCESS,
        Err(_) => ExitCode::FAILURE,
    }
}

/// The three words of the command line.
fn words<R: Env + Alloc>(rt: &R) -> Option<(Shape, u32, u32)> {
    let mut words = env::args(rt).ok()?;
    let _program = words.next()?;
    let shape = Shape::named(words.next()?.as_str())?;
    let nodes = words.next()?.as_str().parse().ok()?;
    let times = words.next()?.as_str().parse().ok()?;
    match words.next() {
        None => Some((shape, nodes, times)),
        Some(_) => None,
    }
}

fn usage(rt: &impl Eprint) -> ExitCode {
    let _ = eprintln!(rt; "usage: completion_bench chain|tree NODES TIMES");
    ExitCode::from(2)
}
