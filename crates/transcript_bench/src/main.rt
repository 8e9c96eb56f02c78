//! Times the printing of sessions: `transcript_bench SHAPE CALLS ROUNDS` makes a session of that shape with so many calls, prints it
//! that many times to a text, and writes the length of the last text.
#![tactic(auto)]

mod calls;
mod scripts;
mod sessions;

use pc_terms::NoMemory;
use sessions::Session;
use std::alloc::Global;
use std::env;
use std::process::ExitCode;
use std::rt::Env;
use transcript::print_session;

fn main(rt: HostRuntime) -> ExitCode {
    let Some((session, rounds)) = words(&rt) else {
        return usage(&rt);
    };
    match printed(rt.alloc(), &session, rounds) {
        Ok(length) => match println!(rt; "{length} bytes") {
            Ok(()) => ExitCode::SUCCESS,
            Err(_) => ExitCode::FAILURE,
        },
        Err(_) => ExitCode::FAILURE,
    }
}

/// The session of the command line, and how often it is printed.
fn words<R: Env + AllocGlobal>(rt: &R) -> Option<(Session, u64)> {
    let mut words = env::args(rt).ok()?;
    let _program = words.next()?;
    let shape = words.next()?;
    let calls = words.next()?.as_str().parse().ok()?;
    let rounds = words.next()?.as_str().parse().ok()?;
    let session = sessions::of_shape(rt.alloc(), shape.as_str(), calls)?;
    match words.next() {
        None => Some((session, rounds)),
        Some(_) => None,
    }
}

/// The length of what is printed of a session.
fn printed(alloc: Global, session: &Session, rounds: u64) -> Result<usize, NoMemory> {
    let mut length = 0;
    for _ in 0..rounds {
        let text = print_session(
            alloc,
            &session.scripts,
            &session.journal,
            &session.answers,
            &session.problems,
        )?;
        length = text.len();
    }
    Ok(length)
}

fn usage(rt: &impl Eprint) -> ExitCode {
    let _ = eprintln!(rt; "usage: transcript_bench SHAPE CALLS ROUNDS");
    ExitCode::from(2)
}
