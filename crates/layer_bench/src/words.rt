//! The words of the command line.

ghost use Rattle.std.specs.Option.{option_map};
ghost use Rattle.std.specs.Prelude.{string_bytes, slice_get, ◌≡◌, ◌≤◌, IfOk, OnOk, length};
ghost use Rattle.layer_bench.specs.Counts.{layer_named, layer_word};

use crate::layers::{Layer, Reader};
use crate::refused::Refused;
use std::alloc::Global;

#[derive(Debug, Drop)]
pub struct Work {
    pub layer: Layer,
    pub name: String,
    /// At least 1.
    pub times: u32,
}

fn layer_of(word: &str) -> Option<Layer>
    ensures { result ≡ layer_named word.now }
{
    match word {
        "scan" => Some(Layer::Scan),
        "types" => Some(Layer::Parts(Reader::Types)),
        "patterns" => Some(Layer::Parts(Reader::Patterns)),
        "exprs" => Some(Layer::Parts(Reader::Exprs)),
        "units" => Some(Layer::Units),
        "locate" => Some(Layer::Locate),
        _ => None,
    }
}

/// The work that the words after the program's name ask for.
pub fn work_of(alloc: Global, words: &[String]) -> Result<Work, Refused>
    ensures count { OnOk result (length words.now ≡ 3) }
    ensures usage { result ≡ Err Refused.Usage → ¬ (length words.now ≡ 3) }
    ensures unknown { result ≡ Err Refused.UnknownLayer → layer_word (option_map string_bytes (slice_get words.now 0)) ≡ None }
    ensures layer { IfOk result (λ work. layer_word (option_map string_bytes (slice_get words.now 0)) ≡ Some work.layer) }
    ensures name { IfOk result (λ work. option_map string_bytes (slice_get words.now 1) ≡ Some (string_bytes work.name)) }
    ensures times { IfOk result (λ work. 1 ≤ work.times) }
{
    let [layer, name, times] = words else {
        return Err(Refused::Usage);
    };
    let layer = layer_of(layer.as_str()).ok_or(Refused::UnknownLayer)?;
    let times = match times.as_str().parse::<u32>() {
        Ok(times) if times >= 1 => times,
        _ => return Err(Refused::BadTimes),
    };
    let name = String::from_str(alloc, name.as_str()).map_err(|_| Refused::NoMemory)?;
    Ok(Work { layer, name, times })
}
