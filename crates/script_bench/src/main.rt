//! Reads a file as a schedule or as a client's script, so that the cost of reading can be measured.
#![tactic(auto)]

mod refused;

use refused::Refused;
use script_text::{ScriptRefused, read_client, read_schedule};
use std::alloc::Global;
use std::process::ExitCode;
use std::rt::{Env, Files};
use std::{env, fs};

fn lines_of_schedule(alloc: Global, text: &str) -> Result<usize, ScriptRefused> {
    Ok(read_schedule(alloc, text)?.script.lines.len())
}

fn lines_of_client(alloc: Global, text: &str) -> Result<usize, ScriptRefused> {
    Ok(read_client(alloc, text)?.lines.len())
}

fn lines_of(alloc: Global, kind: &str, text: &str) -> Result<usize, Refused> {
    if kind == "schedule" {
        lines_of_schedule(alloc, text).map_err(Refused::Script)
    } else if kind == "client" {
        lines_of_client(alloc, text).map_err(Refused::Script)
    } else {
        Err(Refused::Usage)
    }
}

fn run(rt: &(impl Env + Files + AllocGlobal + Print)) -> Result<(), Refused> {
    let alloc: Global = rt.alloc();
    let mut words = Vec::new(alloc);
    for word in env::args(rt).map_err(Refused::Outside)?.skip(1) {
        words.push(word).map_err(|_| Refused::NoMemory)?;
    }
    match words.as_slice() {
        [kind, name] => {
            let text = fs::read_to_string(rt, name.as_str()).map_err(Refused::Unreadable)?;
            let count = lines_of(alloc, kind.as_str(), text.as_str())?;
            println!(rt; "{count} lines").map_err(Refused::Outside)
        }
        _ => Err(Refused::Usage),
    }
}

fn main(rt: HostRuntime) -> ExitCode {
    match run(&rt) {
        Ok(()) => ExitCode::SUCCESS,
        Err(refused) => {
            let _ = eprintln!(rt; "script_bench: {refused}");
            ExitCode::from(2)
        }
    }
}
