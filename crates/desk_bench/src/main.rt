//! Times posts: `desk_bench queue POSTS SESSIONS` makes so many sessions of so many posts each on a queue alone, and
//! `desk_bench THREADS POSTS SESSIONS` does so through a desk, where that many threads share the posts of each session.
#![tactic(auto)]

mod posting;
mod through_desk;

use pc_terms::NoMemory;
use std::alloc::Global;
use std::env;
use std::process::ExitCode;
use std::rt::Env;
use std::sync::Wait;
use std::thread::Threads;

/// Where the posts go.
#[derive(Clone, Copy)]
enum Route {
    Queue,
    Desk { threads: u64 },
}

#[derive(Clone, Copy)]
struct Run {
    route: Route,
    posts: u64,
    sessions: u64,
}

fn main(rt: HostRuntime) -> ExitCode {
    let Some(run) = words(&rt) else {
        return usage(&rt);
    };
    match all_sessions(&rt, rt.alloc(), &run) {
        Ok(accepted) => match println!(&rt; "{accepted} calls accepted in the last session") {
            Ok(()) => ExitCode::SUCCESS,
            Err(_) => ExitCode::FAILURE,
        },
        Err(_) => ExitCode::FAILURE,
    }
}

/// Runs the sessions, and gives the number of calls that the last one accepted.
fn all_sessions<R: Threads + Wait + Sync>(
    rt: &R,
    alloc: Global,
    run: &Run,
) -> Result<u64, NoMemory> {
    let mut accepted = 0;
    for _ in 0..run.sessions {
        accepted = match run.route {
            Route::Queue => posting::session(alloc, run.posts)?,
            Route::Desk { threads } => { through_desk::session(rt, alloc, threads, run.posts)? }
        };
    }
    Ok(accepted)
}

/// The three words of the command line.
fn words<R: Env + Alloc>(rt: &R) -> Option<Run> {
    let mut words = env::args(rt).ok()?;
    let _program = words.next()?;
    let route = route_of(words.next()?.as_str())?;
    let posts = words.next()?.as_str().parse().ok()?;
    let sessions = words.next()?.as_str().parse().ok()?;
    match words.next() {
        None => Some(Run {
            route,
            posts,
            sessions,
        }),
        Some(_) => None,
    }
}

fn route_of(word: &str) -> Option<Route> {
    if word == "queue" {
        return Some(Route::Queue);
    }
    match word.parse().ok()? {
        0 => None,
        threads => Some(Route::Desk { threads }),
    }
}

fn usage(rt: &impl Eprint) -> ExitCode {
    let _ = eprintln!(rt; "usage: desk_bench queue|THREADS POSTS SESSIONS");
    ExitCode::from(2)
}
