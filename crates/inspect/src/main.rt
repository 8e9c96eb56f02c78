//! Prints the tokens or the trees of files, for those who work on the layers of the language.
#![tactic(auto)]

mod refused;
mod showing;

use pc_terms::MAX_SOURCE_BYTES;
use refused::Refused;
use showing::{Layer, shown};
use std::alloc::Global;
use std::process::ExitCode;
use std::rt::{Env, Files};
use std::{env, fs};

fn layer_of(word: &str) -> Option<Layer> {
    match word {
        "tokens" => Some(Layer::Tokens),
        "tree" => Some(Layer::Tree),
        _ => None,
    }
}

fn show_file(
    rt: &(impl Files + AllocGlobal + Print),
    layer: Layer,
    name: &str,
) -> Result<(), Refused> {
    let source = fs::read_to_string(rt, name).map_err(Refused::Unreadable)?;
    if source.len() > MAX_SOURCE_BYTES {
        return Err(Refused::TooLong);
    }
    let lines = shown(rt.alloc(), layer, name, source.as_str()).map_err(|_| Refused::NoMemory)?;
    print!(rt; "{lines}").map_err(Refused::Outside)
}

// The words after the program's name.
fn words_of(rt: &(impl Env + AllocGlobal)) -> Result<Vec<String>, Refused> {
    let alloc: Global = rt.alloc();
    let mut words = Vec::new(alloc);
    for word in env::args(rt).map_err(Refused::Outside)?.skip(1) {
        words.push(word).map_err(|_| Refused::NoMemory)?;
    }
    Ok(words)
}

// Whether each file was shown. One that is not is named on standard error.
fn show_files(
    rt: &(impl Files + AllocGlobal + Print + Eprint),
    layer: Layer,
    names: &[String],
) -> bool {
    let mut whole = true;
    for name in names {
        if let Err(refused) = show_file(rt, layer, name.as_str()) {
            let _ = eprintln!(rt; "inspect: {name}: {refused}");
            whole = false;
        }
    }
    whole
}

fn run(rt: &(impl Env + Files + AllocGlobal + Print + Eprint)) -> Result<bool, Refused> {
    let words = words_of(rt)?;
    let [layer, names @ ..] = words.as_slice() else {
        return Err(Refused::Usage)
    };
    let layer = layer_of(layer.as_str()).ok_or(Refused::Usage)?;
    Ok(show_files(rt, layer, names))
}

fn main(rt: HostRuntime) -> ExitCode {
    match run(&rt) {
        Ok(true) => ExitCode::SUCCESS,
        Ok(false) => ExitCode::from(1),
        Err(refused) => {
            let _ = eprintln!(rt; "inspect: {refused}");
            ExitCode::from(2)
        }
    }
}
