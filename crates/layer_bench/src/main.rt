//! Runs one layer of the compiler over a file again and again, so that its cost can be measured.
#![tactic(auto)]

mod layers;
mod refused;
mod words;

use layers::count_of;
use pc_terms::MAX_SOURCE_BYTES;
use refused::Refused;
use std::alloc::Global;
use std::process::ExitCode;
use std::rt::{Env, Files};
use std::{env, fs};
use words::work_of;

fn run(rt: &(impl Env + Files + AllocGlobal + Print)) -> Result<(), Refused> {
    let alloc: Global = rt.alloc();
    let mut words = Vec::new(alloc);
    for word in env::args(rt).map_err(Refused::Outside)?.skip(1) {
        words.push(word).map_err(|_| Refused::NoMemory)?;
    }
    let work = work_of(alloc, words.as_slice())?;
    let text = fs::read_to_string(rt, work.name.as_str()).map_err(Refused::Unreadable)?;
    if text.len() > MAX_SOURCE_BYTES {
        return Err(Refused::TooLong);
    }
    let count = count_of(alloc, work.layer, text.as_str(), work.times).map_err(
        |_| Refused::NoMemory,
    )?;
    let count = count.ok_or(Refused::NoType)?;
    println!(rt; "{count}").map_err(Refused::Outside)
}

fn main(rt: HostRuntime) -> ExitCode {
    match run(&rt) {
        Ok(()) => ExitCode::SUCCESS,
        Err(refused) => {
            let _ = eprintln!(rt; "layer_bench: {refused}");
            ExitCode::from(2)
        }
    }
}
